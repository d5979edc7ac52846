//! The copy of one rack to another.

ghost use Rattle.std.specs.Prelude.{◌≡◌, ℕ, ◌<◌, ◌≤◌, ◌*◌, length, IsTrue, IsOk, Some, Err};
ghost use Rattle.bm_base.specs.Contents.{block_at, page_at};
ghost use Rattle.bm_base.specs.Count.{Rose};
ghost use Rattle.bm_rack.specs.RackView.{IsAttached, IsClean};
ghost use Rattle.bm_rack.specs.Frames.{Keeps, SameState, ChangesOnly};
ghost use Rattle.bm_rack.specs.Calls.{RowFits, place_on, InRow, IsPage};
ghost use Rattle.bm_mirror.specs.Healing.{IsAtPlace, IsFilled, StaysAttached};

use bm_base::{Dims, PAGE_BYTES, SLATE_PAGES};
use bm_rack::{Rack, same_places};

/// Why a copy ended.
#[derive(Clone, Copy, Debug, PartialEq, Eq)]
pub enum CopyFault {
    /// The rack that is read failed.
    Read,
    /// The rack that is written failed.
    Write,
}

// Copies the blocks of a row.
fn copy_blocks<F: Rack, T: Rack>(
    from: &mut F,
    to: &mut T,
    places: &[Option<u64>],
    row: &mut [u8],
) -> Result<(), CopyFault>
    requires from_fits { RowFits (F.view from.old).attached places.now (length row.old) }
    requires to_fits { RowFits (T.view to.old).attached places.now (length row.old) }
    ensures same { SameState (F.view from.old) (F.view from.new) }
    ensures read_keeps { Keeps (F.view from.old) (F.view from.new) }
    ensures changes { ChangesOnly (InRow places.now) (T.view to.old) (T.view to.new) }
    ensures write_keeps { Keeps (T.view to.old) (T.view to.new) }
    ensures copied { IsTrue F.tells_contents → IsTrue T.tells_contents → IsOk result
        → (dims : Dims) → (F.view from.old).attached ≡ Some dims
        → (T.view to.old).attached ≡ Some dims
        → (disk place : ℕ) → disk < dims.disks → place_on places.now disk ≡ Some place
        → block_at (T.view to.new).contents disk place
        ≡ block_at (F.view from.old).contents disk place }
    ensures read { result ≡ Err CopyFault.Read
        → Rose (F.view from.old).faults (F.view from.new).faults }
    ensures write { result ≡ Err CopyFault.Write
        → Rose (T.view to.old).faults (T.view to.new).faults }
{
    if from.read_row(places, row).is_err() {
        return Err(CopyFault::Read);
    }
    if to.write_row(places, row).is_err() {
        return Err(CopyFault::Write);
    }
    Ok(())
}

// Copies the blocks at one place of all disks.
fn copy_row<F: Rack, T: Rack>(
    from: &mut F,
    to: &mut T,
    dims: &Dims,
    place: u64,
    row: &mut [u8],
) -> Result<(), CopyFault>
    requires from_ready { (F.view from.old).attached ≡ Some dims.now }
    requires to_ready { (T.view to.old).attached ≡ Some dims.now }
    requires few { dims.now.disks ≤ 64 }
    requires inside { place < dims.now.places }
    requires fits { length row.old ≡ dims.now.disks * dims.now.block }
    ensures same { SameState (F.view from.old) (F.view from.new) }
    ensures read_keeps { Keeps (F.view from.old) (F.view from.new) }
    ensures changes { ChangesOnly (IsAtPlace place) (T.view to.old) (T.view to.new) }
    ensures write_keeps { Keeps (T.view to.old) (T.view to.new) }
    ensures copied { IsTrue F.tells_contents → IsTrue T.tells_contents → IsOk result
        → (disk : ℕ) → disk < dims.now.disks → block_at (T.view to.new).contents disk place
        ≡ block_at (F.view from.old).contents disk place }
    ensures read { result ≡ Err CopyFault.Read
        → Rose (F.view from.old).faults (F.view from.new).faults }
    ensures write { result ≡ Err CopyFault.Write
        → Rose (T.view to.old).faults (T.view to.new).faults }
{
    let all = same_places(place);
    let places = &all[..dims.disks as usize];
    copy_blocks(from, to, places, row)
}

// Copies every block.
fn copy_rows<F: Rack, T: Rack>(
    from: &mut F,
    to: &mut T,
    dims: &Dims,
    row: &mut [u8],
) -> Result<(), CopyFault>
    requires from_ready { (F.view from.old).attached ≡ Some dims.now }
    requires to_ready { (T.view to.old).attached ≡ Some dims.now }
    requires few { dims.now.disks ≤ 64 }
    requires fits { length row.old ≡ dims.now.disks * dims.now.block }
    ensures same { SameState (F.view from.old) (F.view from.new) }
    ensures read_keeps { Keeps (F.view from.old) (F.view from.new) }
    ensures stays { StaysAttached (T.view to.old) (T.view to.new) }
    ensures copied { IsTrue F.tells_contents → IsTrue T.tells_contents → IsOk result
        → IsFilled dims.now dims.now.places 0
        (F.view from.old).contents (T.view to.new).contents }
    ensures read { result ≡ Err CopyFault.Read
        → Rose (F.view from.old).faults (F.view from.new).faults }
    ensures write { result ≡ Err CopyFault.Write
        → Rose (T.view to.old).faults (T.view to.new).faults }
{
    for place in 0..dims.places {
        match copy_row(from, to, dims, place, row) {
            Ok(()) => {}
            Err(fault) => return Err(fault),
        }
    }
    Ok(())
}

// Copies one page.
fn copy_page<F: Rack, T: Rack>(from: &mut F, to: &mut T, page: u16) -> Result<(), CopyFault>
    requires from_ready { IsAttached (F.view from.old).attached }
    requires to_ready { IsAttached (T.view to.old).attached }
    requires inside { page < 516 }
    ensures same { SameState (F.view from.old) (F.view from.new) }
    ensures read_keeps { Keeps (F.view from.old) (F.view from.new) }
    ensures changes { ChangesOnly (IsPage page) (T.view to.old) (T.view to.new) }
    ensures write_keeps { Keeps (T.view to.old) (T.view to.new) }
    ensures copied { IsTrue F.tells_contents → IsTrue T.tells_contents → IsOk result
        → page_at (T.view to.new).contents page ≡ page_at (F.view from.old).contents page }
    ensures read { result ≡ Err CopyFault.Read
        → Rose (F.view from.old).faults (F.view from.new).faults }
    ensures write { result ≡ Err CopyFault.Write
        → Rose (T.view to.old).faults (T.view to.new).faults }
{
    let mut bytes = [0; PAGE_BYTES];
    if from.read_page(page, &mut bytes).is_err() {
        return Err(CopyFault::Read);
    }
    if to.write_page(page, &bytes).is_err() {
        return Err(CopyFault::Write);
    }
    Ok(())
}

// Copies every page, and leaves the blocks.
fn copy_pages<F: Rack, T: Rack>(from: &mut F, to: &mut T, dims: &Dims) -> Result<(), CopyFault>
    requires from_ready { (F.view from.old).attached ≡ Some dims.now }
    requires to_ready { (T.view to.old).attached ≡ Some dims.now }
    ensures same { SameState (F.view from.old) (F.view from.new) }
    ensures read_keeps { Keeps (F.view from.old) (F.view from.new) }
    ensures stays { StaysAttached (T.view to.old) (T.view to.new) }
    ensures copied { IsTrue F.tells_contents → IsTrue T.tells_contents → IsOk result
        → IsFilled dims.now dims.now.places 0
        (F.view from.old).contents (T.view to.old).contents
        → IsFilled dims.now dims.now.places 516
        (F.view from.old).contents (T.view to.new).contents }
    ensures read { result ≡ Err CopyFault.Read
        → Rose (F.view from.old).faults (F.view from.new).faults }
    ensures write { result ≡ Err CopyFault.Write
        → Rose (T.view to.old).faults (T.view to.new).faults }
{
    for page in 0..SLATE_PAGES {
        match copy_page(from, to, page) {
            Ok(()) => {}
            Err(fault) => return Err(fault),
        }
    }
    Ok(())
}

/// Copies all, and makes it durable.
pub fn copy_all<F: Rack, T: Rack>(
    from: &mut F,
    to: &mut T,
    dims: &Dims,
    row: &mut [u8],
) -> Result<(), CopyFault>
    requires from_ready { (F.view from.old).attached ≡ Some dims.now }
    requires to_ready { (T.view to.old).attached ≡ Some dims.now }
    requires few { dims.now.disks ≤ 64 }
    requires fits { length row.old ≡ dims.now.disks * dims.now.block }
    ensures same { SameState (F.view from.old) (F.view from.new) }
    ensures read_keeps { Keeps (F.view from.old) (F.view from.new) }
    ensures stays { StaysAttached (T.view to.old) (T.view to.new) }
    ensures clean { IsOk result → IsClean (T.view to.new) }
    ensures copied { IsTrue F.tells_contents → IsTrue T.tells_contents → IsOk result
        → IsFilled dims.now dims.now.places 516
        (F.view from.old).contents (T.view to.new).contents }
    ensures read { result ≡ Err CopyFault.Read
        → Rose (F.view from.old).faults (F.view from.new).faults }
    ensures write { result ≡ Err CopyFault.Write
        → Rose (T.view to.old).faults (T.view to.new).faults }
{
    match copy_rows(from, to, dims, row) {
        Ok(()) => {}
        Err(fault) => return Err(fault),
    }
    match copy_pages(from, to, dims) {
        Ok(()) => {}
        Err(fault) => return Err(fault),
    }
    if to.sync().is_err() {
        return Err(CopyFault::Write);
    }
    Ok(())
}
