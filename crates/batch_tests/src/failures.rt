//! Bays whose racks fail: they end alone.

use crate::batches::{Told, batch_on_disks, finished};
use bm_base::{RunReport, Shape};
use bm_batch::BayState;
use bm_job::RunError;
use bm_named::gray;
use bm_rack::Rack;
use run_helpers::{holds, ran, report};
use std::alloc::Global;
use std::test::Fail;
use test_helpers::{GRAYED, is_attached, rack_of};

// A bay that failed, after so many loads and row calls.
fn failed(moved: u64, rows: u64, holds: bool) -> Told {
    Told {
        state: BayState::Ended {
            error: RunError::Failed,
        },
        moved,
        rows,
        holds,
    }
}

// Runs the Gray code alone, and tells whether its records stand then.
fn gray_alone<R: Rack>(alloc: Global, rack: &mut R, shape: &Shape) -> Option<(RunReport, bool)> {
    if !is_attached(rack, shape) {
        return None;
    }
    let report = ran(alloc, rack, shape, &gray(4), 2)?.ok()?;
    Some((report, holds(alloc, rack, shape, 1, GRAYED)))
}

// One device call of the second bay fails. The others are Finished, and a run of its own ends its job.
//
// Calls 11 to 20 are those of its begin: a sync, three pages read and three written, a sync, the job's
// gate and a sync. Call 21 reads the body of its pass, and 22 to 29 are its row calls. A sync, its gate
// and a sync end the pass.
#[test]
fn a_bay_that_fails(rt: HostRuntime) -> Result<(), Fail> {
    let shape = Shape::new(4, 1, 1, 3, 1).ok().ok_or("shape")?;
    let rows = [
        (11u64, failed(0, 0, false), report(1, 0, 0, 8)),
        (14, failed(0, 0, false), report(1, 0, 0, 8)),
        (20, failed(0, 0, false), report(1, 0, 0, 8)),
        (21, failed(0, 0, false), report(1, 0, 0, 8)),
        (22, failed(0, 1, false), report(1, 0, 0, 8)),
        (25, failed(0, 4, false), report(1, 0, 0, 8)),
        (27, failed(1, 6, false), report(1, 0, 0, 8)),
        // all records are written, and the gate isn't
        (30, failed(1, 8, true), report(1, 0, 0, 8)),
        // half of the gate is, which is open
        (31, failed(1, 8, true), report(1, 1, 0, 0)),
        (32, failed(1, 8, true), report(1, 1, 0, 0)),
    ];
    for (fault, second, last) in rows {
        let mut bays = Vec::new(rt.alloc());
        bays.push(rack_of(rt.alloc(), &[]).ok_or("memory")?)?;
        bays.push(rack_of(rt.alloc(), &[fault]).ok_or("memory")?)?;
        bays.push(rack_of(rt.alloc(), &[]).ok_or("memory")?)?;
        let found = batch_on_disks(rt.alloc(), &shape, bays.as_mut_slice(), &[0, 1], 2).ok_or(
            "memory",
        )?;
        let want = [finished(4, 16), second, finished(2, 8)];
        let bay = bays.get_mut(1).ok_or("bay")?;
        let alone = gray_alone(rt.alloc(), bay, &shape);
        let as_wanted = found.as_slice() == want.as_slice();
        assert_eq!(rt; (as_wanted, alone), (true, Some((last, true))), "{fault}");
    }
    Ok(())
}
