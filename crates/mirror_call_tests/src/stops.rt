//! A side that stops, and commands that go on from the other.

use crate::calling::{Answer, said};
use bm_memrack::MemRack;
use bm_rack::StopRack;
use bm_top::Status;
use std::alloc::Global;
use std::test::Fail;
use test_helpers::{DONE_BOTH, INPUT, REVERSAL, REVERSED, rack_of};

// What a stop leaves of what was not made durable: every other unit in its old form.
const TORN: u64 = 0x5555_5555_5555_5555;

// What a `carry` says where each side stops after so many of its calls, and the racks after the
// stop.
fn stopped(
    alloc: Global,
    left_after: u64,
    right_after: u64,
    pick: u64,
) -> Option<Answer<MemRack, MemRack>> {
    let mut left = rack_of(alloc, &[])?;
    let mut right = rack_of(alloc, &[])?;
    left.stop_after(left_after);
    right.stop_after(right_after);
    let mut carried = said(alloc, "mirror left carry job", REVERSAL, INPUT, left, right)?;
    carried.left.restart(pick);
    carried.right.restart(pick);
    Some(carried)
}

// What a run and then a dump say that trust these sides: both statuses, and whether both are in and
// the records are right at the end.
fn gone_on(
    alloc: Global,
    run: &str,
    dump: &str,
    left: MemRack,
    right: MemRack,
) -> Option<(Status, Status, bool)> {
    let ran = said(alloc, run, REVERSAL, &[], left, right)?;
    let dumped = said(alloc, dump, REVERSAL, &[], ran.left, ran.right)?;
    let whole = dumped.out.taken() == REVERSED && dumped.err.taken() == DONE_BOTH.as_bytes();
    Some((ran.status, dumped.status, whole))
}

// What is found from the right side where left stops after so many calls, and the lines of the
// `carry` with it.
fn left_stops(alloc: Global, after: u64, pick: u64) -> Option<(Status, (Status, Status, bool))> {
    let carried = stopped(alloc, after, 1000, pick)?;
    let next = gone_on(
        alloc,
        "mirror right run job",
        "mirror left dump job",
        carried.left,
        carried.right,
    )?;
    Some((carried.status, next))
}

// The same from the left side where right stops.
fn right_stops(alloc: Global, after: u64, pick: u64) -> Option<(Status, (Status, Status, bool))> {
    let carried = stopped(alloc, 1000, after, pick)?;
    let next = gone_on(
        alloc,
        "mirror left run job",
        "mirror right dump job",
        carried.left,
        carried.right,
    )?;
    Some((carried.status, next))
}

const DONE: (Status, Status, bool) = (Status::Done, Status::Done, true);

// The first number of calls after which left stops and not all is as it has to be.
fn first_left(alloc: Global, pick: u64) -> Option<u64> {
    for after in 0..=62 {
        let want = if after == 0 {
            (
                Status::RackFault,
                (Status::NotLoaded, Status::NotLoaded, false),
            )
        } else {
            (Status::Done, DONE)
        };
        if left_stops(alloc, after, pick) != Some(want) {
            return Some(after);
        }
    }
    None
}

// The same where right stops.
fn first_right(alloc: Global, pick: u64) -> Option<u64> {
    for after in 0..=35 {
        if right_stops(alloc, after, pick) != Some((Status::Done, DONE)) {
            return Some(after);
        }
    }
    None
}

// Left stops at each of the 62 calls of a `carry`, which right goes on with. A left side that can't
// be made ends it: the right one has disks, and nothing is loaded.
#[test]
fn the_left_side_stops(rt: HostRuntime) -> Result<(), Fail> {
    assert_eq!(rt; first_left(rt.alloc(), 0), None);
    Ok(())
}

// The same where the stop leaves other bytes of what was not made durable.
#[test]
fn the_left_side_stops_and_is_torn(rt: HostRuntime) -> Result<(), Fail> {
    assert_eq!(rt; first_left(rt.alloc(), TORN), None);
    Ok(())
}

// Right stops at each of its 35 calls.
#[test]
fn the_right_side_stops(rt: HostRuntime) -> Result<(), Fail> {
    assert_eq!(rt; first_right(rt.alloc(), 0), None);
    assert_eq!(rt; first_right(rt.alloc(), TORN), None);
    Ok(())
}

// The calls of the right side among the first so many of a `carry`: all but the reads, and its own
// create comes first.
fn right_calls(calls: u64) -> u64 {
    match calls {
        0..=3 => calls,
        4..=5 => 3,
        6..=14 => calls - 2,
        15..=17 => 12,
        18..=25 => calls - 5,
        26..=28 => 20,
        29..=30 => calls - 8,
        31..=32 => 22,
        33..=37 => calls - 10,
        38..=40 => 27,
        41..=42 => calls - 13,
        43..=44 => 29,
        45..=50 => calls - 15,
        _ => 35,
    }
}

// What is found from one side where both stop at one moment.
fn both_stop(alloc: Global, run: &str, after: u64, pick: u64) -> Option<(Status, Status)> {
    let carried = stopped(alloc, after, right_calls(after), pick)?;
    let ran = said(alloc, run, REVERSAL, &[], carried.left, carried.right)?;
    Some((carried.status, ran.status))
}

// Both sides stop at once, as where the program is killed: either one goes on from there.
#[test]
fn both_sides_stop(rt: HostRuntime) -> Result<(), Fail> {
    for after in 0..=61 {
        let want = match after {
            0 => Status::NoDisks,
            1..=10 => Status::NotLoaded,
            _ => Status::Done,
        };
        for run in ["mirror left run job", "mirror right run job"] {
            assert_eq!(rt;
                both_stop(rt.alloc(), run, after, 0),
                Some((Status::RackFault, want)),
                "{run} after {after}"
            );
        }
    }
    Ok(())
}
