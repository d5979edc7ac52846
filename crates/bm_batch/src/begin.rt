//! Beginning a batch.

ghost use Rattle.std.specs.Prelude.{◌≡◌, ◌≤◌, IsTrue, OnErr, IfOk, length, map};
ghost use Rattle.std.specs.List.{All};
ghost use Rattle.bm_batch.specs.Batches.{IsBatchJob, AreAllAttached, AreAttached, AreSound};
ghost use Rattle.bm_batch.specs.Batches.{BatchFollows, BatchBegun};

use crate::batch::Batch;
use crate::batch_job::BatchJob;
use crate::one_bay::begin_bay;
use bm_base::{OutOfMemory, Shape};
use bm_rack::Rack;
use std::alloc::Global;

impl Batch {
    /// Begins a machine on each bay in order, or goes on with its job where that is open there.
    ///
    /// There are 1 to 64 bays and as many jobs. Each bay is attached with the shape's dims. Each plan
    /// stands for its job, with 1 to Q passes, and each `every` is 1 to N/M.
    ///
    /// A bay whose job `Machine::begin` refuses is Ended with that refusal, and the others go on. A
    /// bay whose pass gates are all open is Finished, and every other bay is Going. A bay that was
    /// sound is sound, with its input, whatever became of the others.
    ///
    /// It takes its memory first: `OutOfMemory` leaves every bay untouched.
    pub fn begin<Y: Rack>(
        alloc: Global,
        shape: &Shape,
        jobs: &[BatchJob],
        bays: &mut [Y],
    ) -> Result<Batch, OutOfMemory>
        requires some { 1 ≤ length bays.old }
        requires few { length bays.old ≤ 64 }
        requires many { length jobs.now ≡ length bays.old }
        requires jobs { All (IsBatchJob shape.now) jobs.now }
        requires attached { AreAllAttached shape.now (map Y.view bays.old) }

        ensures refused { OnErr result (bays.new ≡ bays.old) }
        ensures begun { IfOk result (λ b. BatchBegun Y.tells_stands Y.tells_contents shape.now
            jobs.now b (map Y.view bays.old) (map Y.view bays.new)) }
        ensures attached { IfOk result (λ b. AreAttached b (map Y.view bays.new)) }
        ensures follows { IsTrue Y.tells_stands → IsTrue Y.tells_contents
            → AreSound (map Y.view bays.old)
            → IfOk result (λ b. BatchFollows b (map Y.view bays.new)) }
    {
        let mut slots = Vec::with_capacity(alloc, bays.len()).map_err(|_| OutOfMemory)?;
        for bay in 0..bays.len() {
            slots.push_reserved(begin_bay(&mut bays[bay], shape, &jobs[bay]));
        }
        Ok(Batch {
            shape: *shape,
            slots,
        })
    }
}
