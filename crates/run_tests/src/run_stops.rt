//! Whole runs with a stop, or a failed call, at each of their device calls.

ghost use Rattle.std.specs.Prelude.{◌≡◌, Some};
ghost use Rattle.bm_base.specs.Shape.{dims_of};

use bm_base::{RunReport, Shape};
use bm_gf2::Affine;
use bm_job::RunError;
use bm_memrack::MemRack;
use bm_named::bit_reversal;
use bm_rack::StopRack;
use run_helpers::{PICKS, has_loaded, holds, ran, report};
use std::alloc::Global;
use std::test::Fail;
use test_helpers::{INPUT, REVERSED};

// The device calls of a new run in order: s is a sync, p a page call, r a row call. G is the write
// of a gate that shows loads to be moved; the sync after it makes it durable.
#[derive(Clone, Copy)]
struct Order {
    calls: &'static [u8],
    /// After how many loads of a pass its progress is made durable.
    every: u64,
}

// Two passes of two loads, whose gates alone show progress.
//
// The sync at the start; pages 1, 0 and 3 are read; pages 2, 4, 5, 6 and 7 written; a sync, page 3
// and a sync. In each pass its body is read, eight row calls move its loads, and between two syncs its
// gate is written.
const WHOLE: Order = Order {
    calls: b"sppppppppspsprrrrrrrrsGsprrrrrrrrsGs",
    every: 2,
};

// The same, and the first load of each pass is counted in the first slot.
//
// Pages 513 and 515 are written too at the start. The slot is closed at first: its gate is read, its
// body written, a sync, its gate and a sync. In pass 2 it is open: its gate is read, closed and synced
// before that.
const PARTS: Order = Order {
    calls: b"sppppppppppspsprrrrppsGsrrrrsGsprrrrppspsGsrrrrsGs",
    every: 1,
};

// How many of the first so many calls are of this letter.
fn count_of(calls: &[u8], first: usize, letter: u8) -> u64 {
    let mut found = 0u64;
    for (i, call) in calls.iter().enumerate() {
        if i < first && *call == letter {
            found = found.wrapping_add(1);
        }
    }
    found
}

// What is known after a run that failed, and one after it.
#[derive(Clone, Copy, Debug, PartialEq, Eq)]
struct Outcome {
    /// How many runs failed.
    restarts: u32,
    /// The row calls of the first run, a failed one among them.
    first: u64,
    /// Those of both.
    rows: u64,
    /// What the last run tells.
    last: RunReport,
    /// Whether its area holds the reversed records, and the input is as before.
    holds: bool,
}

// What stands after a run that a stop ends after so many device calls, or none where it is reached
// later. The next run finds what the gates show: a gate whose write or sync was stopped is open where
// what stands or its first half is left, and closed where zeros or ones are.
fn wanted(order: Order, after: usize, gates_stay: bool) -> Outcome {
    let first = count_of(order.calls, after.wrapping_add(1), b'r');
    if after >= order.calls.len() {
        return Outcome {
            restarts: 0,
            first,
            rows: 16,
            last: report(2, 0, 0, 16),
            holds: true,
        };
    }
    let shown = if gates_stay {
        after.wrapping_add(1)
    } else {
        after.saturating_sub(1)
    };
    let gates = count_of(order.calls, shown, b'G');
    let loads = gates.wrapping_mul(order.every);
    let left = 16u64.wrapping_sub(loads.wrapping_mul(4));
    // two loads are a pass
    let done = match loads {
        0 | 1 => 0,
        2 | 3 => 1,
        _ => 2,
    };
    Outcome {
        restarts: 1,
        first,
        rows: first.wrapping_add(left),
        last: report(2, done, loads % 2, left),
        holds: true,
    }
}

// A stop after so many device calls, and what it leaves; or none.
#[derive(Clone, Copy, Debug, PartialEq, Eq)]
enum Stops {
    Never,
    Once { after: u64, pick: u64 },
}

// Runs the job, and where that failed once more, after a restart where there was a stop.
fn run_twice<R: StopRack>(
    alloc: Global,
    rack: &mut R,
    shape: &Shape,
    map: &Affine,
    stops: Stops,
    every: u64,
    every_then: u64,
) -> Option<Outcome>
    requires { (R.view rack.old).attached ≡ Some (dims_of shape.now) }
{
    let before = rack.rows();
    if let Stops::Once { after, .. } = stops {
        rack.stop_after(after);
    }
    let answer = ran(alloc, rack, shape, map, every)?;
    let first = rack.rows().checked_sub(before)?;
    if let Stops::Once { pick, .. } = stops {
        if answer.is_err() {
            rack.restart(pick)
        } else {
            rack.stop_never()
        }
    }
    let (restarts, last) = match answer {
        Ok(last) => (0, last),
        Err(RunError::Failed) => (1, ran(alloc, rack, shape, map, every_then)?.ok()?),
        Err(_) => return None,
    };
    let rows = rack.rows().checked_sub(before)?;
    Some(Outcome {
        restarts,
        first,
        rows,
        last,
        holds: holds(alloc, rack, shape, last.passes, REVERSED),
    })
}

// The same on new disks, whose device calls with these numbers fail.
fn run_on_disks(
    alloc: Global,
    faults: Vec<u64>,
    stops: Stops,
    every: u64,
    every_then: u64,
) -> Option<Outcome> {
    let shape = Shape::new(4, 1, 1, 3, 1).ok()?;
    let mut rack = MemRack::new(alloc, faults);
    if !has_loaded(&mut rack, &shape, INPUT) {
        return None;
    }
    run_twice(
        alloc,
        &mut rack,
        &shape,
        &bit_reversal(4),
        stops,
        every,
        every_then,
    )
}

// The letters of the two orders: their row calls, page calls and syncs.
#[test]
fn numbers_of_device_calls(rt: HostRuntime) -> Result<(), Fail> {
    for (order, want) in [(WHOLE, (36, 16, 11, 7, 2)), (PARTS, (50, 16, 18, 12, 4))] {
        let calls = order.calls;
        let count = calls.len();
        let found = (
            count,
            count_of(calls, count, b'r'),
            count_of(calls, count, b'p'),
            count_of(calls, count, b's'),
            count_of(calls, count, b'G'),
        );
        assert_eq!(rt; found, want);
    }
    Ok(())
}

// A stop at each device call, with each pick. All of them are made where the stop comes after the last.
#[test]
fn stops_of_a_run(rt: HostRuntime) -> Result<(), Fail> {
    for order in [WHOLE, PARTS] {
        for after in 0..order.calls.len() + 1 {
            for pick in PICKS {
                let stops = Stops::Once {
                    after: after as u64,
                    pick,
                };
                let faults = Vec::new(rt.alloc());
                let found = run_on_disks(rt.alloc(), faults, stops, order.every, order.every);
                let stays = pick == 0 || pick == 0xFFFF_FFFF_FFFF_FFFF;
                let want = wanted(order, after, stays);
                assert_eq!(rt; found, Some(want), "{after} {pick:x}");
            }
        }
    }
    Ok(())
}

// One device call that fails, without a stop: the next run finds what stands.
//
// Ten calls are made before the run.
#[test]
fn failing_calls_of_a_run(rt: HostRuntime) -> Result<(), Fail> {
    for order in [WHOLE, PARTS] {
        for after in 0..order.calls.len() {
            let mut faults = Vec::new(rt.alloc());
            faults.push(11u64.wrapping_add(after as u64))?;
            let found = run_on_disks(rt.alloc(), faults, Stops::Never, order.every, order.every);
            let want = wanted(order, after, true);
            assert_eq!(rt; found, Some(want), "{after}");
        }
    }
    Ok(())
}

// The row calls before a stop and in both runs, and what the second one tells.
//
// The numbers of loads after which progress is made durable are those of both runs. The second is not
// used, since the stored one is.
#[test]
fn stops_after_the_first_gate(rt: HostRuntime) -> Result<(), Fail> {
    let zeros = 0x5555_5555_5555_5555;
    let rows = [
        // the gate of pass 1 is written and not durable, and then it is durable
        (2, 2, 22, 0, 8, 16, report(2, 1, 0, 8)),
        (2, 2, 22, zeros, 8, 24, report(2, 0, 0, 16)),
        (2, 2, 24, zeros, 8, 16, report(2, 1, 0, 8)),
        (2, 1, 24, zeros, 8, 16, report(2, 1, 0, 8)),
        // so is that of the slot
        (1, 1, 23, 0, 4, 16, report(2, 0, 1, 12)),
        (1, 1, 23, zeros, 4, 20, report(2, 0, 0, 16)),
        (1, 2, 24, zeros, 5, 17, report(2, 0, 1, 12)),
    ];
    for (every, then, after, pick, first, rows, last) in rows {
        let stops = Stops::Once { after, pick };
        let found = run_on_disks(rt.alloc(), Vec::new(rt.alloc()), stops, every, then);
        let want = Outcome {
            restarts: 1,
            first,
            rows,
            last,
            holds: true,
        };
        assert_eq!(rt; found, Some(want), "{every} {then} {after} {pick:x}");
    }
    Ok(())
}
