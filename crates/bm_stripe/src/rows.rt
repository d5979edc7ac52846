//! Rows that follow one another.

ghost use Rattle.std.specs.Prelude.{◌≡◌, ℕ, ◌+◌, ◌*◌, ◌<◌, ◌≤◌, IsTrue, IsOk, IsErr, length, take, Some};
ghost use Rattle.std.specs.Fork.{slice_chunk};
ghost use Rattle.bm_rack.specs.Calls.{RowWritten, place_on};
ghost use Rattle.bm_rack.specs.Frames.{Keeps, RaisesCounts, MovesRows, HasCause, SameState, ChangesOnly};
ghost use Rattle.bm_stripe.specs.Rows.{HoldsRows, IsRowsUnit, following};

use bm_base::{Dims, Failed, MOST_DISKS};
use bm_rack::{Rack, same_places};

/// Reads rows that follow one another from a place on, the bytes of each behind those of the last.
pub fn read_rows<R: Rack>(
    rack: &mut R,
    dims: Dims,
    first: u64,
    rows: u64,
    buf: &mut [u8],
) -> Result<(), Failed>
    requires attached { (R.view rack.old).attached ≡ Some dims }
    requires disks { dims.disks ≤ 64 }
    requires places { first + rows ≤ dims.places }
    requires size { length buf.old ≡ rows * (dims.disks * dims.block) }
    ensures bytes { IsTrue R.tells_contents → IsOk result
        → HoldsRows dims (R.view rack.old).contents (following first) rows buf.new }
    ensures state { SameState (R.view rack.old) (R.view rack.new) }
    ensures moved { MovesRows rows (IsOk result) (R.view rack.old) (R.view rack.new) }
    ensures keeps { Keeps (R.view rack.old) (R.view rack.new) }
    ensures cause { HasCause (IsErr result) (R.view rack.old) (R.view rack.new) }
{
    let disks = dims.disks as usize;
    let row_bytes = disks * dims.block as usize;
    for row in 0..rows {
        let from = row as usize * row_bytes;
        let places = same_places(first + row);
        rack.read_row(&places[..disks], &mut buf[from..from + row_bytes])?;
    }
    Ok(())
}

/// Writes one row of a buffer of rows, to the places of its disks.
pub fn write_row_of<R: Rack>(
    rack: &mut R,
    dims: Dims,
    places: &[Option<u64>; MOST_DISKS as usize],
    row: u64,
    buf: &[u8],
) -> Result<(), Failed>
    requires attached { (R.view rack.old).attached ≡ Some dims }
    requires disks { dims.disks ≤ 64 }
    requires length { length places.now ≡ 64 }
    requires places { (disk place : ℕ) → disk < dims.disks
        → place_on places.now disk ≡ Some place → place < dims.places }
    requires size { (row + 1) * (dims.disks * dims.block) ≤ length buf.now }
    ensures written { RowWritten R.tells_contents dims (R.view rack.old)
        (take dims.disks places.now)
        (slice_chunk buf.now (dims.disks * dims.block) row) result (R.view rack.new) }
    ensures counts { RaisesCounts 1 0 0 (R.view rack.old) (R.view rack.new) }
    ensures keeps { Keeps (R.view rack.old) (R.view rack.new) }
    ensures cause { HasCause (IsErr result) (R.view rack.old) (R.view rack.new) }
{
    let disks = dims.disks as usize;
    let row_bytes = disks * dims.block as usize;
    let from = row as usize * row_bytes;
    rack.write_row(&places[..disks], &buf[from..from + row_bytes])
}

/// Writes rows that follow one another, the reverse of `read_rows`.
pub fn write_rows<R: Rack>(
    rack: &mut R,
    dims: Dims,
    first: u64,
    rows: u64,
    buf: &[u8],
) -> Result<(), Failed>
    requires attached { (R.view rack.old).attached ≡ Some dims }
    requires disks { dims.disks ≤ 64 }
    requires places { first + rows ≤ dims.places }
    requires size { length buf.now ≡ rows * (dims.disks * dims.block) }
    ensures bytes { IsTrue R.tells_contents → IsOk result
        → HoldsRows dims (R.view rack.new).contents (following first) rows buf.now }
    ensures only { ChangesOnly (IsRowsUnit dims.disks (following first) rows)
        (R.view rack.old) (R.view rack.new) }
    ensures moved { MovesRows rows (IsOk result) (R.view rack.old) (R.view rack.new) }
    ensures keeps { Keeps (R.view rack.old) (R.view rack.new) }
    ensures cause { HasCause (IsErr result) (R.view rack.old) (R.view rack.new) }
{
    for row in 0..rows {
        write_row_of(rack, dims, &same_places(first + row), row, buf)?;
    }
    Ok(())
}
