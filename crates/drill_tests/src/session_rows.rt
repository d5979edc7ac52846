//! Sessions of the reversal of sixteen records, with one stop.

ghost use Rattle.std.specs.Prelude.{◌≡◌, ◌^◌, ◌<◌, IsTrue, Some, length};
ghost use Rattle.bm_base.specs.Shape.{dims_of};

use bm_base::{SessionsReport, Shape, Stop};
use bm_bufs::Bufs;
use bm_drill::run_sessions;
use bm_factor::factor;
use bm_forms::Job;
use bm_job::run_job;
use bm_memrack::MemRack;
use bm_named::bit_reversal;
use bm_rack::StopRack;
use run_helpers::{PICKS, has_loaded, holds, is_job};
use std::alloc::Global;
use std::test::Fail;
use test_helpers::{INPUT, REVERSED};

// What sessions tell, and whether the records are reversed and the input is as before.
type Outcome = (SessionsReport, bool);

// Loads the records, runs the job once with a stop ahead where one is given and restarts the rack,
// and then runs sessions.
fn sessions_of<R: StopRack>(
    alloc: Global,
    rack: &mut R,
    before: Option<(Stop, u64)>,
    stops: &[Stop],
    every: u64,
) -> Option<Outcome>
    requires steady { IsTrue (R.view rack.old).steady }
    requires few { length stops.now < 2 ^ 32 }
{
    let shape = Shape::new(4, 1, 1, 3, 1).ok()?;
    let map = bit_reversal(4);
    if map.a.n != shape.n() {
        return None;
    }
    let Ok(plan) = factor(alloc, &shape, &map) else {
        return None;
    };
    let mut bufs = Bufs::new(alloc, &shape).ok()?;
    if !has_loaded(rack, &shape, INPUT) {
        return None;
    }
    let job = Job::Permute(map);
    if let Some((stop, first_every)) = before {
        if !is_job(&shape, &map, plan.len(), first_every) {
            return None;
        }
        rack.stop_after(stop.after);
        if run_job(rack, &shape, &job, &plan, &mut bufs, first_every).is_ok() {
            return None;
        }
        rack.restart(stop.pick);
    }
    if !is_job(&shape, &map, plan.len(), every) {
        return None;
    }
    let report = run_sessions(rack, &shape, &job, &plan, &mut bufs, stops, every).ok()?;
    let whole = holds(alloc, rack, &shape, report.passes, REVERSED);
    Some((report, whole))
}

// The same on new disks.
fn on_disks(
    alloc: Global,
    before: Option<(Stop, u64)>,
    stops: &[Stop],
    every: u64,
) -> Option<Outcome>
    requires few { length stops.now < 2 ^ 32 }
{
    let mut rack = MemRack::new(alloc, Vec::new(alloc));
    sessions_of(alloc, &mut rack, before, stops, every)
}

// What is told where the job was done.
fn done(restarts: u32, moves: u64) -> Option<Outcome> {
    Some((
        SessionsReport {
            passes: 2,
            restarts,
            moves,
        },
        true,
    ))
}

// A stop at each of the 36 device calls, with each pick; and one that is not reached.
//
// A pass has eight row calls: what a restart costs is one pass at most.
#[test]
fn one_stop_anywhere(rt: HostRuntime) -> Result<(), Fail> {
    for after in 0..36 {
        for pick in PICKS {
            let stops = [Stop { after, pick }];
            let (report, whole) = on_disks(rt.alloc(), None, &stops, 2).ok_or("sessions")?;
            assert!(rt; whole, "{after} {pick:x}");
            assert_eq!(rt;
                (report.passes, report.restarts),
                (2, 1),
                "{after} {pick:x}"
            );
            assert!(rt; report.moves <= 24, "{after} {pick:x}");
        }
    }
    for pick in PICKS {
        let stops = [Stop { after: 36, pick }];
        assert_eq!(rt; on_disks(rt.alloc(), None, &stops, 2), done(0, 16));
    }
    assert_eq!(rt; on_disks(rt.alloc(), None, &[], 2), done(0, 16));
    Ok(())
}

// Stops within the calls that show progress: the write of a gate that stays or is zeros, and the
// sync after a slot's gate.
#[test]
fn stops_at_the_gates(rt: HostRuntime) -> Result<(), Fail> {
    let zeros = 0x5555_5555_5555_5555;
    for (after, pick, every, moves) in [
        (22, 0, 2, 16),
        (22, zeros, 2, 24),
        (23, 0, 1, 16),
        (23, zeros, 1, 20),
    ] {
        let stops = [Stop { after, pick }];
        let found = on_disks(rt.alloc(), None, &stops, every);
        assert_eq!(rt; found, done(1, moves), "{after} {pick:x} {every}");
    }
    Ok(())
}

// Three stops that are reached, each with its own pick, and one that is not.
//
// The first is at the write of the gate of pass 1, which the restart leaves as zeros, so the
// second session moves the pass again. It stops at the sync after the gate, which stays. The third
// stops at its first call, and the fourth moves pass 2.
#[test]
fn several_stops(rt: HostRuntime) -> Result<(), Fail> {
    let zeros = 0x5555_5555_5555_5555;
    let stops = [
        Stop {
            after: 22,
            pick: zeros,
        },
        Stop { after: 20, pick: 0 },
        Stop { after: 0, pick: 0 },
        Stop {
            after: 100,
            pick: zeros,
        },
    ];
    assert_eq!(rt; on_disks(rt.alloc(), None, &stops, 2), done(3, 24));
    Ok(())
}

// A job that was begun with no progress within a pass goes on so, whatever the later call asks
// for.
#[test]
fn stored_number_of_loads(rt: HostRuntime) -> Result<(), Fail> {
    let stop = Stop { after: 24, pick: 0 };
    assert_eq!(rt; on_disks(rt.alloc(), Some((stop, 2)), &[], 1), done(0, 8));
    Ok(())
}
