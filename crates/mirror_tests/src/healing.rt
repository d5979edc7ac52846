//! Sides that are taken in again.

use crate::marks::{
    BOTH, LEFT, MARKS, OTHER, ZEROS, heal, is_made, is_ready, marks_alone, put_marks, put_row,
};
use bm_memrack::{MemRack, UntoldRack};
use bm_mirror::{HealError, Healed, Mirror, Side, Sides};
use bm_rack::{AttachError, Found, Rack, StopRack};
use std::alloc::Global;
use std::test::Fail;
use test_helpers::rack_of;

// What a heal came to, which sides are in, how many rows the mirror counts, and what each holds.
#[derive(Clone, Copy, Debug, PartialEq, Eq)]
struct Mended {
    answer: Result<Healed, HealError>,
    sides: Sides,
    rows: u64,
    held: [Option<[Option<u8>; 5]>; 2],
}

// Heals a mirror over this right side, whose left one holds the marks. The left side's calls of these
// numbers fail: 8 is the attach of the mirror, 9 the sync, and 10 the first read.
fn mend(alloc: Global, left: &[u64], right: MemRack) -> Option<Mended> {
    let mut left = rack_of(alloc, left)?;
    if !is_made(&mut left) || !put_marks(&mut left) {
        return None;
    }
    let mut mirror = Mirror::new(left, right, Side::Left);
    if !is_ready(&mut mirror) {
        return None;
    }
    let answer = heal(&mut mirror);
    let sides = mirror.sides();
    let rows = mirror.rows();
    let (left, right) = mirror.parts();
    Some(Mended {
        answer,
        sides,
        rows,
        held: [marks_alone(left), marks_alone(right)],
    })
}

// All but the last page.
const ALL_BUT_ONE: [Option<u8>; 5] = [Some(10), Some(11), Some(12), Some(20), Some(0)];

// A half of the last page.
const HALF_A_PAGE: [Option<u8>; 5] = [Some(10), Some(11), Some(12), Some(20), None];

// A half of each block of the last row.
const HALF_A_ROW: [Option<u8>; 5] = [Some(10), Some(11), None, Some(0), Some(0)];

// What a heal leaves that answers so.
fn left_with(answer: Result<Healed, HealError>, right: Option<[Option<u8>; 5]>) -> Option<Mended> {
    let level = answer == Ok(Healed::Level);
    Some(Mended {
        answer,
        sides: if level { BOTH } else { LEFT },
        rows: 0,
        held: [Some(MARKS), right],
    })
}

// An empty side, one that is older, and one of other sizes.
#[test]
fn sides_of_each_kind(rt: HostRuntime) -> Result<(), Fail> {
    let a = rt.alloc();
    let empty = rack_of(a, &[]).ok_or("memory")?;
    let mut older = rack_of(a, &[]).ok_or("memory")?;
    if !is_made(&mut older) || !put_row(&mut older, 2, 99) {
        return Err(Fail::from("older"));
    }
    let mut other = rack_of(a, &[]).ok_or("memory")?;
    if other.create(&OTHER).is_err() {
        return Err(Fail::from("other"));
    }
    let level = left_with(Ok(Healed::Level), Some(MARKS));
    let apart = left_with(Ok(Healed::Apart), None);
    for (right, want) in [(empty, level), (older, level), (other, apart)] {
        assert_eq!(rt; mend(a, &[], right), want);
    }
    Ok(())
}

// An empty right side whose calls fail: attach, create, the second attach, the last row, the last
// page and the sync.
#[test]
fn faults_of_the_side_that_is_out(rt: HostRuntime) -> Result<(), Fail> {
    let held = [
        (1, None),
        (2, None),
        (3, Some(ZEROS)),
        (6, Some(HALF_A_ROW)),
        (522, Some(HALF_A_PAGE)),
        (523, Some(MARKS)),
    ];
    for (call, right) in held {
        let rack = rack_of(rt.alloc(), &[call]).ok_or("memory")?;
        assert_eq!(rt;
            mend(rt.alloc(), &[], rack),
            left_with(Ok(Healed::Apart), right)
        );
    }
    Ok(())
}

// The sync of the left side, its first row, and its last page.
#[test]
fn faults_of_the_side_that_is_in(rt: HostRuntime) -> Result<(), Fail> {
    let held = [(9, None), (10, Some(ZEROS)), (528, Some(ALL_BUT_ONE))];
    for (call, right) in held {
        let rack = rack_of(rt.alloc(), &[]).ok_or("memory")?;
        assert_eq!(rt;
            mend(rt.alloc(), &[call], rack),
            left_with(Err(HealError::Failed), right)
        );
    }
    Ok(())
}

// What stands on both sides after a stop of each, where left fell before.
fn stopped(alloc: Global) -> Option<[Option<[Option<u8>; 5]>; 2]> {
    let mut left = rack_of(alloc, &[])?;
    let mut right = rack_of(alloc, &[])?;
    left.stop_after(4);
    right.stop_after(7);
    let mut mirror = Mirror::new(left, right, Side::Left);
    if !is_made(&mut mirror) {
        return None;
    }
    let _ = put_row(&mut mirror, 0, 1);
    let _ = mirror.sync();
    let _ = put_row(&mut mirror, 1, 3);
    let _ = mirror.sync();
    let _ = put_row(&mut mirror, 2, 4);
    if mirror.sync().is_ok() {
        return None;
    }
    let (mut left, mut right) = mirror.parts();
    left.restart(0x5555_5555_5555_5555);
    right.restart(0x5555_5555_5555_5555);
    let mut mirror = Mirror::new(left, right, Side::Right);
    if !is_ready(&mut mirror) || heal(&mut mirror) != Ok(Healed::Level) {
        return None;
    }
    let (left, right) = mirror.parts();
    Some([marks_alone(left), marks_alone(right)])
}

// The stops lose what was not made durable. Left has the first row alone, right the second too.
#[test]
fn a_stop_of_both(rt: HostRuntime) -> Result<(), Fail> {
    let kept = Some([Some(1), Some(3), Some(0), Some(0), Some(0)]);
    assert_eq!(rt; stopped(rt.alloc()), Some([kept, kept]));
    Ok(())
}

// Over a rack that tells nothing and answers every attach as ready: what a heal answers, then an
// attach with other sizes, and which sides are in.
fn untold<L: Rack, G: Rack>(
    mirror: &mut Mirror<L, G>,
) -> Option<(Result<Healed, HealError>, Result<Found, AttachError>, Sides)> {
    if !is_ready(mirror) {
        return None;
    }
    let healed = heal(mirror);
    let found = mirror.attach(&OTHER);
    Some((healed, found, mirror.sides()))
}

// The answer is that of left. Right goes out where it does not follow.
#[test]
fn a_rack_that_tells_nothing(rt: HostRuntime) -> Result<(), Fail> {
    let level = Ok(Healed::Level);
    let memory = rack_of(rt.alloc(), &[]).ok_or("memory")?;
    let other = rack_of(rt.alloc(), &[]).ok_or("memory")?;
    let mut right = Mirror::new(memory, UntoldRack::new(), Side::Right);
    let mut left = Mirror::new(UntoldRack::new(), other, Side::Left);
    assert_eq!(rt;
        [untold(&mut right), untold(&mut left)],
        [
            Some((level, Ok(Found::Other), BOTH)),
            Some((level, Ok(Found::Ready), LEFT))
        ]
    );
    Ok(())
}
