//! What stays true of the sides of a mirror: a side that is level, one that lapsed, a create that is
//! begun no more.

ghost use Rattle.std.specs.Prelude.{◌≡◌, ◌⊎◌, IsTrue, IsFalse, Some};
ghost use Rattle.bm_base.specs.Count.{Rose};

use crate::marks::{
    BOTH, LEFT, OTHER, RIGHT, SMALL, heal, is_made, is_ready, marks_alone, mirror_of, put_row,
};
use crate::noted::{Kind, Noted, Notes, call_of};
use crate::refused::Refused;
use bm_memrack::UntoldRack;
use bm_mirror::{HealError, Healed, Mirror, Side, Sides};
use bm_rack::{CreateError, Rack};
use std::cell::RefCell;
use std::test::Fail;
use test_helpers::rack_of;

// The left side is made last, and finds no memory: the right one is made then, and out. No create is
// begun after that.
#[test]
fn a_create_that_found_no_memory(rt: HostRuntime) -> Result<(), Fail> {
    let notes: Notes = RefCell::new(Vec::new(rt.alloc()));
    let memory = rack_of(rt.alloc(), &[]).ok_or("memory")?;
    let mut mirror = Mirror::new(
        Noted::new(Refused::new(UntoldRack::new()), Side::Left, &notes),
        Noted::new(memory, Side::Right, &notes),
        Side::Left,
    );
    let answers = [mirror.create(&SMALL), mirror.create(&SMALL)];
    let sides = mirror.sides();
    let (_, right) = mirror.parts();
    let refused = Err(CreateError::OutOfMemory);
    assert_eq!(rt;
        (answers, sides, marks_alone(right)),
        ([refused; 2], LEFT, Some([Some(0); 5]))
    );
    let want = [
        call_of(Side::Right, Kind::Create),
        call_of(Side::Left, Kind::Create),
        call_of(Side::Right, Kind::Attach),
    ];
    let list = notes.try_borrow().ok().ok_or("notes")?;
    assert_eq!(rt; list.as_slice().get(..3), Some(want.as_slice()));
    Ok(())
}

// Where the side that was out found no memory, nothing was made, and a later create is begun.
#[test]
fn a_create_that_made_nothing(rt: HostRuntime) -> Result<(), Fail> {
    let notes: Notes = RefCell::new(Vec::new(rt.alloc()));
    let memory = rack_of(rt.alloc(), &[]).ok_or("memory")?;
    let mut mirror = Mirror::new(
        Noted::new(memory, Side::Left, &notes),
        Noted::new(Refused::new(UntoldRack::new()), Side::Right, &notes),
        Side::Left,
    );
    let answers = [mirror.create(&SMALL), mirror.create(&SMALL)];
    let right = call_of(Side::Right, Kind::Create);
    let list = notes.try_borrow().ok().ok_or("notes")?;
    let as_noted = list.as_slice() == [right, right].as_slice();
    let refused = Err(CreateError::OutOfMemory);
    assert_eq!(rt; (answers, as_noted), ([refused; 2], true));
    Ok(())
}

// Two sides that are in are not asked whether something stands.
#[test]
fn a_create_of_what_stands(rt: HostRuntime) -> Result<(), Fail> {
    let mut mirror = mirror_of(rt.alloc(), &[2], &[2]).ok_or("memory")?;
    let answers = [mirror.create(&SMALL), mirror.create(&OTHER)];
    let present = Err(CreateError::Present);
    assert_eq!(rt; (answers, mirror.sides()), ([Ok(()), present], BOTH));
    Ok(())
}

// A right side that lapsed stands as before, and a heal takes it in.
#[test]
fn a_side_that_lapsed(rt: HostRuntime) -> Result<(), Fail> {
    let memory = rack_of(rt.alloc(), &[]).ok_or("memory")?;
    let mut mirror = Mirror::new(UntoldRack::new(), memory, Side::Left);
    assert_eq!(rt; lapse(&mut mirror), Some([BOTH, LEFT, BOTH]));
    Ok(())
}

// Which sides are in after a heal, after an attach that right does not follow, and after a second
// heal.
fn lapse<L: Rack, G: Rack>(mirror: &mut Mirror<L, G>) -> Option<[Sides; 3]> {
    if !is_ready(mirror) {
        return None;
    }
    let _ = heal(mirror);
    let level = mirror.sides();
    let _ = mirror.attach(&OTHER);
    let lapsed = mirror.sides();
    if !is_ready(mirror) {
        return None;
    }
    let _ = heal(mirror);
    Some([level, lapsed, mirror.sides()])
}

// A heal and two writes. By what each call keeps, a caller sees that a left side fell that was in
// while no call had failed and is out then, and that a side stays level.
fn worn_out<L: Rack, G: Rack>(mirror: &mut Mirror<L, G>) -> Result<Healed, HealError>
    requires { mirror.old.attached ≡ Some SMALL }
    ensures fell { mirror.old.faults ≡ 0 → IsTrue mirror.old.sides.left
        → IsFalse mirror.new.sides.left
        → Rose (L.view mirror.old.left).faults (L.view mirror.new.left).faults }
    ensures level { IsTrue mirror.old.level.right → IsTrue mirror.new.level.right }
{
    let healed = heal(mirror);
    put_row(mirror, 0, 1);
    put_row(mirror, 1, 2);
    healed
}

// Left fails at its second write: its count rose, and right is in.
#[test]
fn a_side_that_fell(rt: HostRuntime) -> Result<(), Fail> {
    let mut mirror = mirror_of(rt.alloc(), &[4], &[]).ok_or("memory")?;
    if !is_made(&mut mirror) {
        return Err(Fail::from("made"));
    }
    let healed = worn_out(&mut mirror);
    assert_eq!(rt; (healed, mirror.sides()), (Ok(Healed::Level), RIGHT));
    Ok(())
}
