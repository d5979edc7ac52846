//! Sessions of the transform of four numbers, with one stop.

ghost use Rattle.std.specs.Prelude.{◌≡◌, ◌^◌, ◌<◌, IsTrue, Some, length};
ghost use Rattle.bm_base.specs.Shape.{dims_of};

use bm_base::{Area, SessionsReport, Shape, Stop};
use bm_bufs::Bufs;
use bm_drill::run_sessions;
use bm_forms::{Job, pass_limit};
use bm_memrack::MemRack;
use bm_rack::StopRack;
use bm_walsh::walsh_plan;
use run_helpers::has_loaded;
use std::alloc::Global;
use std::test::Fail;
use test_helpers::{read_area, records_of};

// Loads the numbers and runs sessions of the transform: what they tell, and the area after four
// passes.
fn transformed<R: StopRack>(
    alloc: Global,
    rack: &mut R,
    input: &[u8],
    stops: &[Stop],
    every: u64,
) -> Option<(SessionsReport, Vec<u8>)>
    requires steady { IsTrue (R.view rack.old).steady }
    requires few { length stops.now < 2 ^ 32 }
{
    let shape = Shape::new(2, 0, 0, 1, 8).ok()?;
    let Ok(plan) = walsh_plan(alloc, &shape) else {
        return None;
    };
    let most = pass_limit(&shape, &Job::Walsh);
    if plan.len() == 0 || plan.len() > most || every == 0 || every > shape.loads() {
        return None;
    }
    if shape.width() != 8 {
        return None;
    }
    let mut bufs = Bufs::new(alloc, &shape).ok()?;
    if !has_loaded(rack, &shape, input) {
        return None;
    }
    let report = run_sessions(rack, &shape, &Job::Walsh, &plan, &mut bufs, stops, every).ok()?;
    let bytes = read_area(alloc, rack, &shape, Area::Two)?;
    Some((report, bytes))
}

// A stop at each device call, and one that is not reached.
#[test]
fn transform_with_a_stop(rt: HostRuntime) -> Result<(), Fail> {
    let input = records_of(rt.alloc(), &[1, 2, 3, 4]).ok_or("memory")?;
    let sums = [10, 18446744073709551614, 18446744073709551612, 0];
    let output = records_of(rt.alloc(), &sums).ok_or("memory")?;
    for after in 0..70 {
        for pick in [0, 0x5555_5555_5555_5555] {
            let mut rack = MemRack::new(rt.alloc(), Vec::new(rt.alloc()));
            let stops = [Stop { after, pick }];
            let (report, bytes) = transformed(rt.alloc(), &mut rack, &input, &stops, 2).ok_or(
                "run",
            )?;
            assert_eq!(rt; bytes.as_slice(), output.as_slice(), "{after} {pick:x}");
            assert_eq!(rt; report.passes, 4);
            // a restart costs a pass of eight row calls at most
            let most = 32 + 8 * u64::from(report.restarts);
            assert!(rt;
                report.restarts <= 1 && report.moves <= most,
                "{after} {pick:x}"
            );
        }
    }
    Ok(())
}
