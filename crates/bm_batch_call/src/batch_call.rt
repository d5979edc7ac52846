//! The call that carries out a batch.

ghost use Rattle.std.specs.Prelude.{◌≡◌, ◌<◌, ◌≤◌, ◌++◌, ℕ, length, map, slice_index_or, IsTrue};
ghost use Rattle.std.specs.List.{All};
ghost use Rattle.bm_base.specs.Count.{Rose};
ghost use Rattle.bm_batch.specs.Batches.{IsBatchJob};
ghost use Rattle.bm_batch.specs.declared.batch_job.BatchJob.{BatchJob};
ghost use Rattle.bm_bufs.specs.Bufs.{FitsShape};
ghost use Rattle.bm_rack.specs.Sink.{AppendsFront};
ghost use Rattle.bm_top.specs.Moment.{Tells, source_of, sink_of, tells_of};
ghost use Rattle.bm_top.specs.StatusWords.{line_of};
ghost use Rattle.bm_top.specs.Task.{TaskFits};
ghost use Rattle.bm_top.specs.declared.task.Task.{Task};
ghost use Rattle.bm_batch_call.specs.BatchCall.{BatchCall, TasksCall, VerbCall, BatchTop};
ghost use Rattle.bm_batch_call.specs.Moment.{Work, devices_of, moment_of, sources_of, work_of};
ghost use Rattle.bm_batch_call.specs.Words.{AreEnough};

use crate::planning::{draw_turns, plan_jobs};
use crate::preparing::prepare_bays;
use crate::running::run_bays;
use crate::shapes::first_other;
use crate::tasks::read_tasks;
use crate::words::{BatchVerb, BatchWords, batch_of};
use bm_base::Shape;
use bm_batch::BatchJob;
use bm_bufs::Bufs;
use bm_rack::{Rack, Sink, Source};
use bm_top::{Status, Task, write_answer};
use std::alloc::Global;

// Carries out a batch of planned jobs.
fn run_planned<Y: Rack, S: Source, K: Sink>(
    alloc: Global,
    verb: BatchVerb,
    shape: &Shape,
    jobs: &[BatchJob],
    turns: &[u16],
    input: &mut S,
    out: &mut K,
    bays: &mut [Y],
    bufs: &mut Bufs,
) -> Status
    requires some { 1 ≤ length bays.old }
    requires few { length bays.old ≤ 64 }
    requires many { length jobs.now ≡ length bays.old }
    requires jobs { All (IsBatchJob shape.now) jobs.now }
    requires turns { All (λ bay. bay < length bays.old) turns.now }
    requires fits { FitsShape shape.now bufs.old }
    ensures { (t : Tells) (w : Work) → w.shape ≡ shape.now → w.count ≡ length bays.old
        → ((k : ℕ) (j : BatchJob) → k < w.count → (slice_index_or jobs.now k j).job ≡ w.job k) → BatchCall
        (record t { input = S.tells; out = K.tells; stands = Y.tells_stands; contents = Y.tells_contents })
        verb w
        (devices_of (source_of (S.left input.old) (S.faults input.old))
        (sink_of (K.taken out.old) (K.faults out.old)) (map Y.view bays.old)) result
        (devices_of (source_of (S.left input.new) (S.faults input.new))
        (sink_of (K.taken out.new) (K.faults out.new)) (map Y.view bays.new)) }
{
    match prepare_bays(verb, bays, shape, input, bufs) {
        Ok(()) => run_bays(alloc, shape, jobs, turns, bays, out, bufs),
        Err(status) => status,
    }
}

// Carries out a batch of tasks of one shape.
fn run_shape<Y: Rack, S: Source, K: Sink>(
    alloc: Global,
    batch: BatchWords,
    shape: &Shape,
    tasks: &[Task],
    input: &mut S,
    out: &mut K,
    bays: &mut [Y],
) -> Status
    requires some { 1 ≤ length tasks.now }
    requires few { length tasks.now ≤ 64 }
    requires many { length bays.old ≡ length tasks.now }
    requires fits { All TaskFits tasks.now }
    requires shape { All (λ task. task.shape ≡ shape.now) tasks.now }
    ensures { (t : Tells) (e : Task) → BatchCall
        (record t { input = S.tells; out = K.tells; stands = Y.tells_stands; contents = Y.tells_contents })
        batch.verb (work_of (length tasks.now) (λ k. slice_index_or tasks.now k e))
        (devices_of (source_of (S.left input.old) (S.faults input.old))
        (sink_of (K.taken out.old) (K.faults out.old)) (map Y.view bays.old)) result
        (devices_of (source_of (S.left input.new) (S.faults input.new))
        (sink_of (K.taken out.new) (K.faults out.new)) (map Y.view bays.new)) }
{
    let Ok(jobs) = plan_jobs(alloc, shape, tasks) else {
        return Status::OutOfMemory;
    };
    let Ok(turns) = draw_turns(alloc, batch.seed, tasks.len() as u16) else {
        return Status::OutOfMemory;
    };
    let Ok(mut bufs) = Bufs::new(alloc, shape) else {
        return Status::OutOfMemory;
    };
    run_planned(
        alloc, batch.verb, shape, &jobs, &turns, input, out, bays, &mut bufs,
    )
}

// Carries out a batch whose texts are read.
fn run_tasks<Y: Rack, S: Source, K: Sink>(
    alloc: Global,
    batch: BatchWords,
    tasks: &[Task],
    input: &mut S,
    out: &mut K,
    bays: &mut [Y],
) -> Status
    requires some { 1 ≤ length tasks.now }
    requires few { length tasks.now ≤ 64 }
    requires many { length bays.old ≡ length tasks.now }
    requires fits { All TaskFits tasks.now }
    ensures { (t : Tells) (e : Task) → TasksCall
        (record t { input = S.tells; out = K.tells; stands = Y.tells_stands; contents = Y.tells_contents })
        batch.verb (length tasks.now) (λ k. slice_index_or tasks.now k e)
        (devices_of (source_of (S.left input.old) (S.faults input.old))
        (sink_of (K.taken out.old) (K.faults out.old)) (map Y.view bays.old)) result
        (devices_of (source_of (S.left input.new) (S.faults input.new))
        (sink_of (K.taken out.new) (K.faults out.new)) (map Y.view bays.new)) }
{
    match first_other(tasks) {
        Some(bay) => Status::BatchShape { bay },
        None => run_shape(alloc, batch, &tasks[0].shape, tasks, input, out, bays),
    }
}

// Carries out a batch.
fn run_words<Y: Rack, J: Source, S: Source, K: Sink>(
    alloc: Global,
    batch: BatchWords,
    jobs: &mut [J],
    input: &mut S,
    out: &mut K,
    bays: &mut [Y],
) -> Status
    requires some { 1 ≤ length jobs.old }
    requires few { length jobs.old ≤ 64 }
    requires many { length bays.old ≡ length jobs.old }
    ensures { VerbCall
        (tells_of J.tells S.tells K.tells Y.tells_stands Y.tells_contents) batch.verb (length jobs.old)
        (moment_of (sources_of J.left J.faults jobs.old)
        (devices_of (source_of (S.left input.old) (S.faults input.old))
        (sink_of (K.taken out.old) (K.faults out.old)) (map Y.view bays.old))) result
        (moment_of (sources_of J.left J.faults jobs.new)
        (devices_of (source_of (S.left input.new) (S.faults input.new))
        (sink_of (K.taken out.new) (K.faults out.new)) (map Y.view bays.new))) }
{
    match read_tasks(alloc, jobs) {
        Ok(tasks) => run_tasks(alloc, batch, &tasks, input, out, bays),
        Err(status) => status,
    }
}

// Carries out the batch that the words spell.
fn run_batch<Y: Rack, J: Source, S: Source, K: Sink>(
    alloc: Global,
    words: &[String],
    jobs: &mut [J],
    input: &mut S,
    out: &mut K,
    bays: &mut [Y],
) -> Status
    requires { AreEnough words.now (length jobs.old) (length bays.old) }
    ensures { BatchTop
        (tells_of J.tells S.tells K.tells Y.tells_stands Y.tells_contents) words.now
        (moment_of (sources_of J.left J.faults jobs.old)
        (devices_of (source_of (S.left input.old) (S.faults input.old))
        (sink_of (K.taken out.old) (K.faults out.old)) (map Y.view bays.old))) result
        (moment_of (sources_of J.left J.faults jobs.new)
        (devices_of (source_of (S.left input.new) (S.faults input.new))
        (sink_of (K.taken out.new) (K.faults out.new)) (map Y.view bays.new))) }
{
    match batch_of(words) {
        Some(batch) => run_words(alloc, batch, jobs, input, out, bays),
        None => Status::Usage,
    }
}

/// Carries out a batch of jobs, each in a bay of its own, and writes the line of its answer to `err`.
///
/// The words are `batch` or `batch-run`, a seed in decimal, at most the last value of 64 bits, and 1
/// to 64 words that name jobs; `Usage` for all else. Wherever they are these, there are as many job
/// sources and bays as words that name jobs.
///
/// The job texts are read in order: `JobFault`, `JobText`, `JobField`, `JobShape`, `JobMap`.
/// `BatchShape` names the first bay whose job is of another shape than the first one's. Then the
/// plans and the buffers are made.
///
/// - `batch` makes the disks of each bay in order and loads its part of the one input: `Exists`,
///   `DataFault`, `DataShort` with the bytes that came of that part, `DataLong`. No load gate is
///   opened before the byte after all parts was asked for.
/// - `batch-run` attaches the disks of each bay in order: `NoDisks`, `WrongDims`.
///
/// The jobs take 256 turns that the seed draws, and then rounds over all bays. Where jobs are
/// refused, `NotLoaded`, `OtherShape`, `OtherJob` or `BadPage` is the answer for the first such bay,
/// and nothing is written. Else what each job made is written, bay after bay. `RackFault` and
/// `SinkFault` come as they are met, and `OutOfMemory` may come up to the first turn.
pub fn batch_top<Y: Rack, J: Source, S: Source, K: Sink, E: Sink>(
    alloc: Global,
    words: &[String],
    jobs: &mut [J],
    input: &mut S,
    out: &mut K,
    err: &mut E,
    bays: &mut [Y],
) -> Status
    requires enough { AreEnough words.now (length jobs.old) (length bays.old) }
    ensures call { BatchTop
        (tells_of J.tells S.tells K.tells Y.tells_stands Y.tells_contents) words.now
        (moment_of (sources_of J.left J.faults jobs.old)
        (devices_of (source_of (S.left input.old) (S.faults input.old))
        (sink_of (K.taken out.old) (K.faults out.old)) (map Y.view bays.old))) result
        (moment_of (sources_of J.left J.faults jobs.new)
        (devices_of (source_of (S.left input.new) (S.faults input.new))
        (sink_of (K.taken out.new) (K.faults out.new)) (map Y.view bays.new))) }

    // the last line
    ensures line { IsTrue E.tells → ¬ Rose (E.faults err.old) (E.faults err.new)
        → E.taken err.new ≡ E.taken err.old ++ line_of result }
    ensures front { IsTrue E.tells → AppendsFront (E.taken err.old) (E.taken err.new) (line_of result) }
    ensures faults { E.faults err.old ≤ E.faults err.new }
{
    let status = run_batch(alloc, words, jobs, input, out, bays);
    write_answer(err, &status);
    status
}
