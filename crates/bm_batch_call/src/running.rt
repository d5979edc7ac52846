//! Jobs that take turns in bays that are ready for them.

ghost use Rattle.std.specs.Prelude.{◌≡◌, ◌<◌, ◌≤◌, ℕ, IfSome, IfNone, length, map, slice_index_or};
ghost use Rattle.std.specs.List.{All};
ghost use Rattle.bm_base.specs.Shape.{dims_of};
ghost use Rattle.bm_bufs.specs.Bufs.{FitsShape};
ghost use Rattle.bm_batch.specs.Batches.{IsBatchJob, IsNoneGoing, AreAllAttached};
ghost use Rattle.bm_batch.specs.declared.batch_job.BatchJob.{BatchJob};
ghost use Rattle.bm_top.specs.Moment.{Tells, sink_of};
ghost use Rattle.bm_batch_call.specs.BatchCall.{AreReady, BatchCall};
ghost use Rattle.bm_batch_call.specs.Dumping.{AreFinished, IsFirstEnded};
ghost use Rattle.bm_batch_call.specs.Running.{BaysRan};
ghost use Rattle.bm_batch_call.specs.Moment.{BatchDevices, Work};
ghost use Rattle.bm_batch_call.specs.declared.words.BatchVerb.{BatchVerb};

use crate::dumping::dump_bays;
use bm_base::Shape;
use bm_batch::{Batch, BatchJob, BayState};
use bm_bufs::Bufs;
use bm_job::RunError;
use bm_rack::{Rack, Sink};
use bm_top::{Status, dump_status, run_status};
use std::alloc::Global;

// The error of the first bay that is Ended. None is Going.
fn first_ended(batch: &Batch) -> Option<RunError>
    requires { IsNoneGoing batch.now.slots }
    ensures ended { IfSome result (λ error. IsFirstEnded batch.now.slots error) }
    ensures none { IfNone result (AreFinished batch.now.slots) }
{
    for bay in 0..batch.count() {
        if let BayState::Ended { error } = batch.state(bay) {
            return Some(*error);
        }
    }
    None
}

// Writes the records that all jobs made, or answers for the first that ended.
fn finish_bays<Y: Rack, K: Sink>(
    batch: &Batch,
    shape: &Shape,
    bays: &mut [Y],
    out: &mut K,
    bufs: &mut Bufs,
) -> Status
    requires shape { batch.now.shape ≡ shape.now }
    requires some { 1 ≤ length batch.now.slots }
    requires many { length bays.old ≡ length batch.now.slots }
    requires over { IsNoneGoing batch.now.slots }
    requires attached { AreAllAttached shape.now (map Y.view bays.old) }
    requires fits { FitsShape shape.now bufs.old }
    ensures { (t : Tells) (verb : BatchVerb) (d start mid : BatchDevices) (w : Work) → w.shape ≡ shape.now
        → AreReady
        (record t { out = K.tells; stands = Y.tells_stands; contents = Y.tells_contents }) verb w start mid
        → sink_of (K.taken out.old) (K.faults out.old) ≡ mid.out → d.input ≡ mid.input
        → BaysRan (record t { out = K.tells; stands = Y.tells_stands; contents = Y.tells_contents })
        w batch.now.slots mid.bays (map Y.view bays.old)
        → BatchCall
        (record t { out = K.tells; stands = Y.tells_stands; contents = Y.tells_contents }) verb w start result
        (record d { out = sink_of (K.taken out.new) (K.faults out.new); bays = map Y.view bays.new }) }
{
    match first_ended(batch) {
        Some(error) => run_status(error),
        None => match dump_bays(batch, shape, bays, out, bufs) {
            Ok(()) => Status::Done,
            Err(error) => dump_status(error),
        },
    }
}

/// Does the jobs of bays that are ready for them, with these turns first, and writes the records
/// that they make, bay after bay. Nothing is written where a job ended.
pub fn run_bays<Y: Rack, K: Sink>(
    alloc: Global,
    shape: &Shape,
    jobs: &[BatchJob],
    turns: &[u16],
    bays: &mut [Y],
    out: &mut K,
    bufs: &mut Bufs,
) -> Status
    requires some { 1 ≤ length bays.old }
    requires few { length bays.old ≤ 64 }
    requires many { length jobs.now ≡ length bays.old }
    requires jobs { All (IsBatchJob shape.now) jobs.now }
    requires turns { All (λ bay. bay < length bays.old) turns.now }
    requires attached { AreAllAttached shape.now (map Y.view bays.old) }
    requires fits { FitsShape shape.now bufs.old }
    ensures { (t : Tells) (verb : BatchVerb) (d start : BatchDevices) (w : Work) → w.shape ≡ shape.now
        → w.count ≡ length bays.old
        → ((k : ℕ) (j : BatchJob) → k < w.count → (slice_index_or jobs.now k j).job ≡ w.job k)
        → AreReady
        (record t { out = K.tells; stands = Y.tells_stands; contents = Y.tells_contents }) verb w start
        (record d { out = sink_of (K.taken out.old) (K.faults out.old); bays = map Y.view bays.old })
        → BatchCall
        (record t { out = K.tells; stands = Y.tells_stands; contents = Y.tells_contents }) verb w start result
        (record d { out = sink_of (K.taken out.new) (K.faults out.new); bays = map Y.view bays.new }) }
{
    let Ok(mut batch) = Batch::begin(alloc, shape, jobs, bays) else {
        return Status::OutOfMemory;
    };
    batch.run_turns(turns, bays, bufs);
    finish_bays(&batch, shape, bays, out, bufs)
}
