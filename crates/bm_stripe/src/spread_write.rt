//! Writes that spread the blocks of a buffer over the loads of an area.

ghost use Rattle.std.specs.Prelude.{◌≡◌, ℕ, ◌+◌, ◌-◌, ◌*◌, ◌/◌, ◌^◌, ◌<◌, ◌≤◌, IsTrue, IsOk, IsErr, length, Some};
ghost use Rattle.bm_base.specs.Shape.{dims_of, stripes, load_stripes};
ghost use Rattle.bm_base.specs.Records.{record_at, record_in};
ghost use Rattle.bm_gf2.specs.Spread.{spread_value};
ghost use Rattle.bm_rack.specs.Calls.{place_on};
ghost use Rattle.bm_rack.specs.Frames.{Keeps, MovesRows, HasCause, ChangesOnly};
ghost use Rattle.bm_stripe.specs.Units.{IsSpreadUnit};
ghost use Rattle.bm_stripe.specs.Rows.{spread_place};

use crate::rows::write_row_of;
use crate::spot::place_in_area;
use bm_base::{Area, Failed, MOST_DISKS, Shape};
use bm_gf2::Spread;
use bm_rack::Rack;

// The place of block `row * D + disk`: in the load that the spread gives it, in that load's row.
fn place_of_block(shape: &Shape, area: Area, spread: &Spread, row: u64, disk: u64) -> u64
    requires columns { spread.now.map.count ≡ shape.now.m - shape.now.b }
    requires loads { (t : ℕ) → t < 2 ^ (shape.now.m - shape.now.b)
        → spread_value spread.now t < 2 ^ (shape.now.n - shape.now.m) }
    requires row { row < load_stripes shape.now }
    requires disk { disk < 2 ^ shape.now.d }
    ensures { result ≡ spread_place shape.now area spread.now row disk }
{
    let block = (row << shape.d()) + disk;
    let load = spread.at(block);
    place_in_area(shape, area, load * shape.load_stripes() + row)
}

// The places of a row, on each of the D disks that of its block.
fn places_of_row(
    shape: &Shape,
    area: Area,
    spread: &Spread,
    row: u64,
) -> [Option<u64>; MOST_DISKS as usize]
    requires columns { spread.now.map.count ≡ shape.now.m - shape.now.b }
    requires loads { (t : ℕ) → t < 2 ^ (shape.now.m - shape.now.b)
        → spread_value spread.now t < 2 ^ (shape.now.n - shape.now.m) }
    requires row { row < load_stripes shape.now }
    ensures length { length result ≡ 64 }
    ensures each { (disk : ℕ) → disk < 2 ^ shape.now.d
        → place_on result disk ≡ Some (spread_place shape.now area spread.now row disk) }
{
    let mut places = [None; MOST_DISKS as usize];
    for disk in 0..shape.dims().disks {
        places[disk as usize] = Some(place_of_block(shape, area, spread, row, u64::from(disk)));
    }
    places
}

/// Writes the M/B blocks of a buffer in M/BD row calls: block t as block t of load `spread.at(t)`.
///
/// It stops at the first row call that fails. The blocks that it names then hold anything.
pub fn write_spread<R: Rack>(
    rack: &mut R,
    shape: &Shape,
    area: Area,
    spread: &Spread,
    buf: &[u8],
) -> Result<(), Failed>
    requires attached { (R.view rack.old).attached ≡ Some (dims_of shape.now) }
    requires columns { spread.now.map.count ≡ shape.now.m - shape.now.b }
    requires loads { (t : ℕ) → t < 2 ^ (shape.now.m - shape.now.b)
        → spread_value spread.now t < 2 ^ (shape.now.n - shape.now.m) }
    requires size { length buf.now ≡ 2 ^ shape.now.m * shape.now.width }

    // Record p of the buffer is in its block p / B.
    ensures records { IsTrue R.tells_contents → IsOk result → (p : ℕ) → p < 2 ^ shape.now.m
        → record_at (R.view rack.new).contents shape.now area
        (2 ^ shape.now.m * spread_value spread.now (p / 2 ^ shape.now.b) + p)
        ≡ record_in shape.now buf.now p }
    ensures only { ChangesOnly (IsSpreadUnit shape.now area spread.now)
        (R.view rack.old) (R.view rack.new) }
    ensures moved { MovesRows (load_stripes shape.now) (IsOk result)
        (R.view rack.old) (R.view rack.new) }
    ensures keeps { Keeps (R.view rack.old) (R.view rack.new) }
    ensures cause { HasCause (IsErr result) (R.view rack.old) (R.view rack.new) }
{
    let dims = shape.dims();
    for row in 0..shape.load_stripes() {
        write_row_of(
            rack,
            dims,
            &places_of_row(shape, area, spread, row),
            row,
            buf,
        )?;
    }
    Ok(())
}
