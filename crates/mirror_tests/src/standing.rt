//! What stands on the two sides before and after attach and create.

ghost use Rattle.std.specs.Prelude.{◌≡◌, Some};

use crate::marks::{BOTH, LEFT, OTHER, RIGHT, SMALL, ZEROS, is_ready, marks_alone, mirror_of};
use bm_mirror::{Mirror, Side, Sides};
use bm_rack::{AttachError, CreateError, Found, Rack};
use std::alloc::Global;
use std::test::Fail;
use test_helpers::rack_of;

// What create answered, which sides are in, and what each holds then.
#[derive(Clone, Copy, Debug, PartialEq, Eq)]
struct Made {
    answer: Result<(), CreateError>,
    sides: Sides,
    held: [Option<[Option<u8>; 5]>; 2],
}

// Creates a mirror over racks where something stands already or nothing does, and whose calls of
// these numbers fail. No call has number 0.
fn make(alloc: Global, stands: [bool; 2], faults: [u64; 2], first: Side) -> Option<Made> {
    let [left_stands, right_stands] = stands;
    let [left_fault, right_fault] = faults;
    let mut left = rack_of(alloc, &[left_fault])?;
    let mut right = rack_of(alloc, &[right_fault])?;
    if left_stands {
        left.create(&SMALL).ok()?;
    }
    if right_stands {
        right.create(&SMALL).ok()?;
    }
    let mut mirror = Mirror::new(left, right, first);
    let answer = mirror.create(&SMALL);
    let sides = mirror.sides();
    let (left, right) = mirror.parts();
    Some(Made {
        answer,
        sides,
        held: [marks_alone(left), marks_alone(right)],
    })
}

// What it is to come to.
fn made_as(
    answer: Result<(), CreateError>,
    sides: Sides,
    left: Option<[Option<u8>; 5]>,
    right: Option<[Option<u8>; 5]>,
) -> Made {
    Made {
        answer,
        sides,
        held: [left, right],
    }
}

// The other side is in exactly where it was made, and a refusal of the first leaves it made.
#[test]
fn create_of_both(rt: HostRuntime) -> Result<(), Fail> {
    let blank = Some(ZEROS);
    let no = [false, false];
    let present = Err(CreateError::Present);
    let failed = Err(CreateError::Failed);
    // what stands, the calls that fail, which side is first
    let rows = [
        (no, [0, 0], Side::Left, made_as(Ok(()), BOTH, blank, blank)),
        (no, [0, 0], Side::Right, made_as(Ok(()), BOTH, blank, blank)),
        (
            [false, true],
            [0, 0],
            Side::Left,
            made_as(Ok(()), LEFT, blank, blank),
        ),
        (
            [true, false],
            [0, 0],
            Side::Left,
            made_as(present, LEFT, blank, blank),
        ),
        (no, [0, 1], Side::Left, made_as(Ok(()), LEFT, blank, None)),
        (no, [1, 0], Side::Left, made_as(failed, LEFT, None, blank)),
        (no, [1, 0], Side::Right, made_as(Ok(()), RIGHT, None, blank)),
    ];
    for (stands, faults, first, want) in rows {
        let made = make(rt.alloc(), stands, faults, first);
        assert_eq!(rt; made, Some(want), "{stands:?} {faults:?}");
    }
    Ok(())
}

// What a create and an attach with these sizes and with others answer on two sides that are in.
fn looked_at(
    alloc: Global,
    right: &[u64],
) -> Option<
    (
        Result<(), CreateError>,
        [Result<Found, AttachError>; 3],
        Sides,
    ),
> {
    let mut mirror = mirror_of(alloc, &[], right)?;
    let early = mirror.attach(&SMALL);
    mirror.create(&SMALL).ok()?;
    let again = mirror.create(&SMALL);
    let other = mirror.attach(&OTHER);
    let same = mirror.attach(&SMALL);
    Some((again, [early, other, same], mirror.sides()))
}

// Right is asked by create, by the attach that finds something else not, and then by the last.
#[test]
fn attach_of_both(rt: HostRuntime) -> Result<(), Fail> {
    let present = Err(CreateError::Present);
    let found = [Ok(Found::Absent), Ok(Found::Other), Ok(Found::Ready)];
    for (fault, sides) in [(0, BOTH), (2, LEFT), (3, BOTH)] {
        let told = looked_at(rt.alloc(), &[fault]);
        assert_eq!(rt; told, Some((present, found, sides)), "{fault}");
    }
    Ok(())
}
