//! One call asked of one side, and the answer of both.

ghost use Rattle.std.specs.Prelude.{◌≡◌, ◌&&◌, ℕ, ◌<◌, ◌^◌, length, Some, IsTrue, IsFalse, IsOk, IsErr, is_err};
ghost use Rattle.bm_base.specs.declared.dims.Dims.{Dims};
ghost use Rattle.bm_base.specs.Count.{raised};
ghost use Rattle.bm_rack.specs.RackView.{IsAttached};
ghost use Rattle.bm_rack.specs.Calls.{RowFits, RowRead, RowWritten, PageRead, PageWritten, Synced};
ghost use Rattle.bm_mirror.specs.SideCalls.{SideAsked, SideRead, IsSettled};
ghost use Rattle.bm_mirror.specs.Lasting.{LevelNow};

use crate::sides::Sides;
use bm_base::{Failed, PAGE_BYTES};
use bm_rack::Rack;

/// Writes a row to a side, where it is in.
pub fn write_row_of<R: Rack>(
    rack: &mut R,
    is_in: bool,
    places: &[Option<u64>],
    bytes: &[u8],
) -> Result<(), Failed>
    requires { IsTrue is_in → RowFits (R.view rack.old).attached places.now (length bytes.now) }
    ensures written { IsTrue is_in → (dims : Dims) → (R.view rack.old).attached ≡ Some dims
        → RowWritten R.tells_contents dims (R.view rack.old) places.now bytes.now result
        (R.view rack.new) }
    ensures asked { SideAsked 1 0 0 (IsErr result) is_in (R.view rack.old) (R.view rack.new) }
{
    if is_in {
        rack.write_row(places, bytes)
    } else {
        Ok(())
    }
}

/// Writes a page to a side, where it is in.
pub fn write_page_of<R: Rack>(
    rack: &mut R,
    is_in: bool,
    page: u16,
    bytes: &[u8; PAGE_BYTES],
) -> Result<(), Failed>
    requires ready { IsTrue is_in → IsAttached (R.view rack.old).attached }
    requires page { page < 516 }
    ensures written { IsTrue is_in → PageWritten R.tells_contents
        (R.view rack.old) page bytes.now result (R.view rack.new) }
    ensures asked { SideAsked 0 1 0 (IsErr result) is_in (R.view rack.old) (R.view rack.new) }
{
    if is_in {
        rack.write_page(page, bytes)
    } else {
        Ok(())
    }
}

/// Syncs a side, where it is in.
pub fn sync_of<R: Rack>(rack: &mut R, is_in: bool) -> Result<(), Failed>
    requires { IsTrue is_in → IsAttached (R.view rack.old).attached }
    ensures synced { IsTrue is_in → Synced (R.view rack.old) result (R.view rack.new) }
    ensures asked { SideAsked 0 0 1 (IsErr result) is_in (R.view rack.old) (R.view rack.new) }
{
    if is_in { rack.sync() } else { Ok(()) }
}

/// Reads a row of a side that is asked. One that is not asked fails, and leaves the bytes.
pub fn read_row_of<R: Rack>(
    rack: &mut R,
    asked: bool,
    places: &[Option<u64>],
    bytes: &mut [u8],
) -> Result<(), Failed>
    requires { IsTrue asked → RowFits (R.view rack.old).attached places.now (length bytes.old) }
    ensures bytes { IsTrue asked → (dims : Dims) → (R.view rack.old).attached ≡ Some dims
        → RowRead R.tells_contents dims (R.view rack.old).contents places.now
        result bytes.old bytes.new }
    ensures rests { IsFalse asked → bytes.new ≡ bytes.old }
    ensures read { SideRead 1 0 0 (IsErr result) asked (R.view rack.old) (R.view rack.new) }
{
    if asked {
        rack.read_row(places, bytes)
    } else {
        Err(Failed)
    }
}

/// Reads a page of a side that is asked. One that is not asked fails, and leaves the bytes.
pub fn read_page_of<R: Rack>(
    rack: &mut R,
    asked: bool,
    page: u16,
    bytes: &mut [u8; PAGE_BYTES],
) -> Result<(), Failed>
    requires ready { IsTrue asked → IsAttached (R.view rack.old).attached }
    requires page { page < 516 }
    ensures length { length bytes.new ≡ 512 }
    ensures bytes { IsTrue asked → PageRead R.tells_contents
        (R.view rack.old).contents page result bytes.new }
    ensures rests { IsFalse asked → bytes.new ≡ bytes.old }
    ensures read { SideRead 0 1 0 (IsErr result) asked (R.view rack.old) (R.view rack.new) }
{
    if asked {
        rack.read_page(page, bytes)
    } else {
        Err(Failed)
    }
}

/// The right side is asked for a read where it is in and the left one gave nothing.
pub fn asks_right(sides: Sides, left: Result<(), Failed>) -> bool
    ensures { result ≡ (sides.right && is_err left) }
{
    sides.right && left.is_err()
}

/// The answer of a read: that of the right side where the left one gave nothing.
pub fn either(left: Result<(), Failed>, right: Result<(), Failed>) -> Result<(), Failed>
    ensures left { IsOk left → result ≡ left }
    ensures right { IsErr left → result ≡ right }
{
    if left.is_ok() { left } else { right }
}

/// Counts a fault where the call failed.
pub fn count_fault(faults: &mut u64, failed: bool)
    ensures failed { IsTrue failed → faults.new ≡ raised faults.old 1 }
    ensures quiet { IsFalse failed → faults.new ≡ faults.old }
    ensures fits { faults.old < 2 ^ 64 → faults.new < 2 ^ 64 }
{
    if failed {
        *faults = faults.saturating_add(1);
    }
}

/// The sides that are level: those that were, and, where no call has failed, those that are in.
pub fn level_after(level: Sides, sides: Sides, faults: u64) -> Sides
    ensures left { LevelNow faults sides.left level.left result.left }
    ensures right { LevelNow faults sides.right level.right result.right }
{
    Sides {
        left: level.left || (faults == 0 && sides.left),
        right: level.right || (faults == 0 && sides.right),
    }
}

/// The answer of both sides, each of which was asked where it is in. A side that failed goes out
/// where the other is in and did not fail; where both failed, left goes out.
pub fn settle(
    sides: &mut Sides,
    left: Result<(), Failed>,
    right: Result<(), Failed>,
) -> Result<(), Failed>
    requires some_in { IsFalse sides.old.left → IsTrue sides.old.right }
    requires left { IsFalse sides.old.left → IsOk left }
    requires right { IsFalse sides.old.right → IsOk right }
    ensures { IsSettled left right result sides.old sides.new }
{
    if left.is_err() && sides.right {
        sides.left = false;
    }
    if right.is_err() && sides.left {
        sides.right = false;
    }
    if sides.left { left } else { right }
}
