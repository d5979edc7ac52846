//! Racks of two disks with three blocks of four bytes, and what is written on them.

ghost use Rattle.std.specs.Prelude.{◌≡◌, ◌<◌, IsTrue, Some};
ghost use Rattle.bm_rack.specs.Frames.{Keeps};

use bm_base::{Dims, PAGE_BYTES};
use bm_memrack::MemRack;
use bm_mirror::{HealError, Healed, Mirror, Side, Sides};
use bm_rack::{Found, Rack};
use std::alloc::Global;
use test_helpers::rack_of;

/// The sizes of these racks.
pub const SMALL: Dims = Dims {
    disks: 2,
    places: 3,
    block: 4,
};

/// Other sizes.
pub const OTHER: Dims = Dims {
    disks: 2,
    places: 4,
    block: 4,
};

/// Both sides are in.
pub const BOTH: Sides = Sides {
    left: true,
    right: true,
};

/// The left side alone is in.
pub const LEFT: Sides = Sides {
    left: true,
    right: false,
};

/// The right side alone is in.
pub const RIGHT: Sides = Sides {
    left: false,
    right: true,
};

/// Whether the rack is ready.
pub fn is_ready<R: Rack>(rack: &mut R) -> bool
    ensures { IsTrue result → (R.view rack.new).attached ≡ Some SMALL }
{
    match rack.attach(&SMALL) {
        Ok(Found::Ready) => true,
        _ => false,
    }
}

/// Whether the rack was made, and is ready.
pub fn is_made<R: Rack>(rack: &mut R) -> bool
    ensures { IsTrue result → (R.view rack.new).attached ≡ Some SMALL }
{
    rack.create(&SMALL).is_ok() && is_ready(rack)
}

/// Writes the byte to all of a row.
pub fn put_row<R: Rack>(rack: &mut R, place: u64, byte: u8) -> bool
    requires attached { (R.view rack.old).attached ≡ Some SMALL }
    requires place { place < 3 }
    ensures attached { (R.view rack.new).attached ≡ Some SMALL }
    ensures keeps { Keeps (R.view rack.old) (R.view rack.new) }
{
    rack.write_row(&[Some(place), Some(place)], &[byte; 8])
        .is_ok()
}

/// Writes the byte to all of a page.
pub fn put_page<R: Rack>(rack: &mut R, page: u16, byte: u8) -> bool
    requires attached { (R.view rack.old).attached ≡ Some SMALL }
    requires page { page < 516 }
    ensures { (R.view rack.new).attached ≡ Some SMALL }
{
    rack.write_page(page, &[byte; PAGE_BYTES]).is_ok()
}

// The byte that all of these are, if there is one.
fn mark_of(bytes: &[u8]) -> Option<u8> {
    let first = *bytes.first()?;
    if bytes.iter().all(|byte| *byte == first) {
        Some(first)
    } else {
        None
    }
}

// The byte that all of a row is, where it can be read and is.
fn row_mark<R: Rack>(rack: &mut R, place: u64) -> Option<u8>
    requires attached { (R.view rack.old).attached ≡ Some SMALL }
    requires place { place < 3 }
    ensures { (R.view rack.new).attached ≡ Some SMALL }
{
    let mut bytes = [255; 8];
    rack.read_row(&[Some(place), Some(place)], &mut bytes).ok()?;
    mark_of(&bytes)
}

// The byte that all of a page is, where it can be read and is.
fn page_mark<R: Rack>(rack: &mut R, page: u16) -> Option<u8>
    requires attached { (R.view rack.old).attached ≡ Some SMALL }
    requires page { page < 516 }
    ensures { (R.view rack.new).attached ≡ Some SMALL }
{
    let mut bytes = [255; PAGE_BYTES];
    rack.read_page(page, &mut bytes).ok()?;
    mark_of(&bytes)
}

/// The marks of the three rows, of the first page and of the last.
pub fn marks<R: Rack>(rack: &mut R) -> [Option<u8>; 5]
    requires { (R.view rack.old).attached ≡ Some SMALL }
    ensures { (R.view rack.new).attached ≡ Some SMALL }
{
    [
        row_mark(rack, 0),
        row_mark(rack, 1),
        row_mark(rack, 2),
        page_mark(rack, 0),
        page_mark(rack, 515),
    ]
}

/// Writes a mark to each row, to the first page and to the last.
pub fn put_marks<R: Rack>(rack: &mut R) -> bool
    requires { (R.view rack.old).attached ≡ Some SMALL }
    ensures { (R.view rack.new).attached ≡ Some SMALL }
{
    put_row(rack, 0, 10)
        && put_row(rack, 1, 11)
        && put_row(rack, 2, 12)
        && put_page(rack, 0, 20)
        && put_page(rack, 515, 25)
}

/// The marks that `put_marks` writes.
pub const MARKS: [Option<u8>; 5] = [Some(10), Some(11), Some(12), Some(20), Some(25)];

/// The marks of a rack on which nothing was written.
pub const ZEROS: [Option<u8>; 5] = [Some(0), Some(0), Some(0), Some(0), Some(0)];

/// The marks of a rack, which is attached first.
pub fn marks_alone<R: Rack>(mut rack: R) -> Option<[Option<u8>; 5]>
where
    R: Drop,
{
    if is_ready(&mut rack) {
        Some(marks(&mut rack))
    } else {
        None
    }
}

/// A mirror over two racks whose calls of these numbers fail. Left is first.
pub fn mirror_of(alloc: Global, left: &[u64], right: &[u64]) -> Option<Mirror<MemRack, MemRack>> {
    Some(Mirror::new(rack_of(alloc, left)?, rack_of(alloc, right)?, Side::Left))
}

/// Heals a mirror.
pub fn heal<L: Rack, G: Rack>(mirror: &mut Mirror<L, G>) -> Result<Healed, HealError>
    requires { mirror.old.attached ≡ Some SMALL }
    ensures attached { mirror.new.attached ≡ Some SMALL }
    ensures keeps { Keeps (⟦<Mirror<L, G> as Rack>⟧.view mirror.old)
        (⟦<Mirror<L, G> as Rack>⟧.view mirror.new) }
{
    let mut row = [0; 8];
    mirror.heal(&SMALL, &mut row)
}
