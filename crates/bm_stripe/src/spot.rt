//! Where a record lies.

ghost use Rattle.std.specs.Prelude.{◌≡◌, ℕ, ◌+◌, ◌-◌, ◌*◌, ◌^◌, ◌<◌, ◌≤◌};
ghost use Rattle.bm_base.specs.Shape.{stripes};
ghost use Rattle.bm_base.specs.Area.{area_start};
ghost use Rattle.bm_stripe.specs.Spot.{IsSpot, spot_of, address_of};

use bm_base::{Area, Shape};

/// The parts of a record's address: disk and stripe of its block, and its number in the block.
///
/// Records lie striped as in Vitter and Shriver's model, and an address is cut into its parts as by
/// Cormen, Sundquist and Wisniewski.
#[derive(Clone, Copy, Debug, PartialEq, Eq)]
pub struct Spot {
    /// The disk, below D.
    pub disk: u32,
    /// The stripe, below N/BD: the place of the block on its disk, from the start of an area on.
    pub place: u64,
    /// The number of the record in its block, below B.
    pub offset: u32,
}

/// Cuts the address x, which is below N, into its parts.
pub fn split(shape: &Shape, x: u64) -> Spot
    requires { x < 2 ^ shape.now.n }
    ensures spot { result ≡ spot_of shape.now x }
    ensures inside { IsSpot shape.now result }
    ensures back { address_of shape.now result ≡ x }
{
    let block = x >> shape.b();
    Spot {
        disk: (block % (1 << shape.d())) as u32,
        place: block >> shape.d(),
        offset: (x % (1 << shape.b())) as u32,
    }
}

/// The address of these parts, the inverse of `split`.
pub fn join_spot(shape: &Shape, spot: &Spot) -> u64
    requires { IsSpot shape.now spot.now }
    ensures address { result ≡ address_of shape.now spot.now }
    ensures below { result < 2 ^ shape.now.n }
    ensures back { spot_of shape.now result ≡ spot.now }
{
    let block = (spot.place << shape.d()) + u64::from(spot.disk);
    (block << shape.b()) + u64::from(spot.offset)
}

/// The place on each disk of a stripe of an area, or of the end of the area.
pub fn place_in_area(shape: &Shape, area: Area, stripe: u64) -> u64
    requires { stripe ≤ stripes shape.now }
    ensures { result ≡ area_start shape.now area + stripe }
{
    match area {
        Area::Input => stripe,
        Area::One => shape.stripes() + stripe,
        Area::Two => 2 * shape.stripes() + stripe,
    }
}
