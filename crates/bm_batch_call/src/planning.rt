//! The plans of several jobs, and the order of their first turns.

ghost use Rattle.std.specs.Prelude.{◌≡◌, ◌<◌, ◌≤◌, ℕ, IfOk, length, slice_index_or};
ghost use Rattle.std.specs.List.{All};
ghost use Rattle.bm_top.specs.Task.{TaskFits};
ghost use Rattle.bm_top.specs.declared.task.Task.{Task};
ghost use Rattle.bm_batch.specs.Batches.{IsBatchJob};
ghost use Rattle.bm_batch.specs.declared.batch_job.BatchJob.{BatchJob};

use bm_base::{OutOfMemory, Shape};
use bm_batch::BatchJob;
use bm_top::{Task, make_plan};
use std::alloc::Global;

// How many turns are given by the seed, before rounds over all bays.
const SEED_TURNS: u64 = 256;

// 2^64 over the golden ratio: the factor of Fibonacci hashing.
const SPREAD: u64 = 0x9E37_79B9_7F4A_7C15;

// The job of one bay, with its plan.
fn plan_job(alloc: Global, task: &Task) -> Result<BatchJob, OutOfMemory>
    requires { TaskFits task.now }
    ensures fits { IfOk result (λ job. IsBatchJob task.now.shape job) }
    ensures job { IfOk result (λ job. job.job ≡ task.now.job) }
{
    let plan = make_plan(alloc, task)?;
    Ok(BatchJob {
        job: task.job,
        plan,
        every: task.every,
    })
}

/// The jobs of tasks, which are of one shape, with their plans.
pub fn plan_jobs(alloc: Global, shape: &Shape, tasks: &[Task]) -> Result<Vec<BatchJob>, OutOfMemory>
    requires fits { All TaskFits tasks.now }
    requires shape { All (λ task. task.shape ≡ shape.now) tasks.now }
    ensures fits { IfOk result (λ jobs. All (IsBatchJob shape.now) jobs.items) }
    ensures many { IfOk result (λ jobs. length jobs.items ≡ length tasks.now) }
    ensures jobs { IfOk result (λ jobs. (k : ℕ) (d : BatchJob) (e : Task) → k < length tasks.now
        → (slice_index_or jobs.items k d).job ≡ (slice_index_or tasks.now k e).job) }
{
    let mut jobs = Vec::with_capacity(alloc, tasks.len()).map_err(|_| OutOfMemory)?;
    for task in tasks {
        let job = plan_job(alloc, task)?;
        jobs.push_reserved(job);
    }
    Ok(jobs)
}

// The bay of one turn, of so many.
fn turn_of(seed: u64, turn: u64, count: u16) -> u16
    requires { 1 ≤ count }
    ensures { result < count }
{
    let drawn = seed.wrapping_add(turn).wrapping_mul(SPREAD) >> 32;
    (drawn % u64::from(count)) as u16
}

/// The bays of the first turns. Bay numbers are below the count, which is 1 to 64.
pub fn draw_turns(alloc: Global, seed: u64, count: u16) -> Result<Vec<u16>, OutOfMemory>
    requires { 1 ≤ count }
    ensures { IfOk result (λ turns. All (λ bay. bay < count) turns.items) }
{
    let mut turns = Vec::with_capacity(alloc, SEED_TURNS as usize).map_err(|_| OutOfMemory)?;
    for turn in 0..SEED_TURNS {
        turns.push_reserved(turn_of(seed, turn, count));
    }
    Ok(turns)
}
