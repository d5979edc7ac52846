//! The order in which the two sides are asked.

ghost use Rattle.std.specs.Prelude.{◌≡◌, IsTrue, Some};

use crate::marks::{SMALL, heal, is_made, put_page, put_row};
use crate::noted::{Kind, Note, Noted, Notes, call_of};
use bm_base::PAGE_BYTES;
use bm_mirror::{Healed, Mirror, Side};
use bm_rack::Rack;
use std::cell::RefCell;
use std::test::Fail;
use test_helpers::rack_of;

const fn left(kind: Kind) -> Note {
    call_of(Side::Left, kind)
}

const fn right(kind: Kind) -> Note {
    call_of(Side::Right, kind)
}

// Every call once.
fn asks_each<R: Rack>(rack: &mut R) -> bool {
    if !is_made(rack) {
        return false;
    }
    let row = put_row(rack, 0, 1);
    let page = put_page(rack, 0, 1);
    let synced = rack.sync().is_ok();
    let read = rack.read_row(&[Some(0), None], &mut [0; 8]).is_ok();
    let seen = rack.read_page(0, &mut [0; PAGE_BYTES]).is_ok();
    row && page && synced && read && seen
}

// The side that is out is made first. Else left is asked first, and right is not asked to read.
#[test]
fn both_sides_in_order(rt: HostRuntime) -> Result<(), Fail> {
    let notes: Notes = RefCell::new(Vec::new(rt.alloc()));
    let one = rack_of(rt.alloc(), &[]).ok_or("memory")?;
    let other = rack_of(rt.alloc(), &[]).ok_or("memory")?;
    let mut mirror = Mirror::new(
        Noted::new(one, Side::Left, &notes),
        Noted::new(other, Side::Right, &notes),
        Side::Left,
    );
    if !asks_each(&mut mirror) {
        return Err(Fail::from("calls"));
    }
    let want = [
        right(Kind::Create),
        left(Kind::Create),
        left(Kind::Attach),
        right(Kind::Attach),
        left(Kind::WriteRow),
        right(Kind::WriteRow),
        left(Kind::WritePage),
        right(Kind::WritePage),
        left(Kind::Sync),
        right(Kind::Sync),
        left(Kind::ReadRow),
        left(Kind::ReadPage),
    ];
    let list = notes.try_borrow().ok().ok_or("notes")?;
    assert_eq!(rt; list.as_slice(), want.as_slice());
    Ok(())
}

// Two sides that are in, of which left fell at a write.
fn has_fallen<R: Rack>(rack: &mut R) -> bool
    ensures { IsTrue result → (R.view rack.new).attached ≡ Some SMALL }
{
    if !is_made(rack) {
        return false;
    }
    put_row(rack, 0, 1)
}

// A heal syncs, attaches, copies row by row and page by page, and syncs. A second one does nothing.
#[test]
fn a_heal_in_order(rt: HostRuntime) -> Result<(), Fail> {
    let notes: Notes = RefCell::new(Vec::new(rt.alloc()));
    let one = rack_of(rt.alloc(), &[3]).ok_or("memory")?;
    let other = rack_of(rt.alloc(), &[]).ok_or("memory")?;
    let mut mirror = Mirror::new(
        Noted::new(one, Side::Left, &notes),
        Noted::new(other, Side::Right, &notes),
        Side::Left,
    );
    if !has_fallen(&mut mirror) {
        return Err(Fail::from("calls"));
    }
    let answers = [heal(&mut mirror), heal(&mut mirror)];
    let list = notes.try_borrow().ok().ok_or("notes")?;
    let copy = list.as_slice().get(6..).ok_or("copy")?;
    let want = [
        right(Kind::Sync),
        left(Kind::Attach),
        right(Kind::ReadRow),
        left(Kind::WriteRow),
        right(Kind::ReadRow),
        left(Kind::WriteRow),
        right(Kind::ReadRow),
        left(Kind::WriteRow),
        right(Kind::ReadPage),
        left(Kind::WritePage),
    ];
    let begins = copy.get(..10) == Some(want.as_slice());
    let ends = copy.last() == Some(&left(Kind::Sync));
    assert_eq!(rt;
        (answers, begins, ends, copy.len()),
        ([Ok(Healed::Level); 2], true, true, 2 + 6 + 2 * 516 + 1)
    );
    Ok(())
}
