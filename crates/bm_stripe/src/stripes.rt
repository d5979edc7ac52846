//! Single stripes.

ghost use Rattle.std.specs.Prelude.{◌≡◌, ℕ, ◌+◌, ◌-◌, ◌*◌, ◌^◌, ◌<◌, ◌≤◌, IsTrue, IsOk, IsErr, length, Some};
ghost use Rattle.bm_base.specs.Shape.{dims_of, stripes};
ghost use Rattle.bm_base.specs.Records.{record_at, record_in};
ghost use Rattle.bm_rack.specs.Frames.{Keeps, MovesRows, HasCause, SameState};

use crate::rows::read_rows;
use crate::spot::place_in_area;
use bm_base::{Area, Failed, Shape};
use bm_rack::Rack;

/// Reads a stripe of an area in one row call: its record i comes to place i of the buffer.
///
/// Where the call fails the buffer holds anything.
pub fn read_stripe<R: Rack>(
    rack: &mut R,
    shape: &Shape,
    area: Area,
    stripe: u64,
    buf: &mut [u8],
) -> Result<(), Failed>
    requires attached { (R.view rack.old).attached ≡ Some (dims_of shape.now) }
    requires stripe { stripe < stripes shape.now }
    requires size { length buf.old ≡ 2 ^ (shape.now.b + shape.now.d) * shape.now.width }

    ensures records { IsTrue R.tells_contents → IsOk result
        → (i : ℕ) → i < 2 ^ (shape.now.b + shape.now.d)
        → record_in shape.now buf.new i
        ≡ record_at (R.view rack.old).contents shape.now area
        (2 ^ (shape.now.b + shape.now.d) * stripe + i) }
    ensures state { SameState (R.view rack.old) (R.view rack.new) }
    ensures moved { MovesRows 1 (IsOk result) (R.view rack.old) (R.view rack.new) }
    ensures keeps { Keeps (R.view rack.old) (R.view rack.new) }
    ensures cause { HasCause (IsErr result) (R.view rack.old) (R.view rack.new) }
{
    let place = place_in_area(shape, area, stripe);
    read_rows(rack, shape.dims(), place, 1, buf)
}
