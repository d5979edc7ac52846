//! Batches of permutations of sixteen records of one byte, each in a bay of its own.

ghost use Rattle.std.specs.Prelude.{◌≡◌, ℕ, ◌<◌, IsTrue, IfSome, Some, length, map};
ghost use Rattle.std.specs.List.{All};
ghost use Rattle.bm_base.specs.Shape.{dims_of};
ghost use Rattle.bm_batch.specs.Batches.{IsBatchJob};

use bm_base::Shape;
use bm_batch::{Batch, BatchJob, BayState};
use bm_bufs::Bufs;
use bm_forms::Job;
use bm_gf2::Affine;
use bm_named::{bit_reversal, gray, identity};
use bm_rack::Rack;
use run_helpers::{has_loaded, holds, plan_of};
use std::alloc::Global;
use test_helpers::{GRAYED, INPUT, REVERSED, is_attached};

/// The permutation of bay k, the passes that it takes, and what comes out.
pub fn work_of(k: usize) -> (Affine, u16, &'static [u8]) {
    match k {
        0 => (bit_reversal(4), 2, REVERSED),
        1 => (gray(4), 1, GRAYED),
        _ => (identity(4), 1, INPUT),
    }
}

/// Makes the disks of each bay, writes the input, and opens the load gate: ten device calls a bay.
pub fn have_loaded<R: Rack>(bays: &mut [R], shape: &Shape) -> bool
    ensures { IsTrue result
        → All (λ y. (R.view y).attached ≡ Some (dims_of shape.now)) bays.new }
{
    for bay in bays.iter_mut() {
        if !has_loaded(bay, shape, INPUT) {
            return false;
        }
    }
    true
}

/// Attaches each bay again.
pub fn have_attached<R: Rack>(bays: &mut [R], shape: &Shape) -> bool
    ensures { IsTrue result
        → All (λ y. (R.view y).attached ≡ Some (dims_of shape.now)) bays.new }
{
    for bay in bays.iter_mut() {
        if !is_attached(bay, shape) {
            return false;
        }
    }
    true
}

// The job of a permutation. Nothing where it is no job of the shape, or memory is refused.
fn job_of(alloc: Global, shape: &Shape, map: &Affine, every: u64) -> Option<BatchJob>
    ensures { IfSome result (λ job. IsBatchJob shape.now job) }
{
    let plan = plan_of(alloc, shape, map, every)?;
    Some(BatchJob {
        job: Job::Permute(*map),
        plan,
        every,
    })
}

/// The jobs of so many bays. Nothing where memory is refused.
pub fn jobs_of(alloc: Global, shape: &Shape, count: usize, every: u64) -> Option<Vec<BatchJob>>
    ensures jobs { IfSome result (λ jobs. All (IsBatchJob shape.now) jobs.items) }
    ensures many { IfSome result (λ jobs. length jobs.items ≡ count) }
{
    let mut jobs = Vec::with_capacity(alloc, count).ok()?;
    for k in 0..count {
        let (map, _, _) = work_of(k);
        jobs.push_reserved(job_of(alloc, shape, &map, every)?);
    }
    Some(jobs)
}

/// Whether these are numbers below the count.
pub fn are_below(turns: &[u16], count: u16) -> bool
    ensures { IsTrue result → All (λ bay. bay < count) turns.now }
{
    for bay in turns {
        if *bay >= count {
            return false;
        }
    }
    true
}

/// How far a bay is after a batch.
#[derive(Clone, Copy, Debug, PartialEq, Eq)]
pub struct Told {
    pub state: BayState,
    pub moved: u64,
    /// The row calls of the batch on this bay.
    pub rows: u64,
    /// Whether the area of the last pass holds what is to come out, and the input is as before.
    pub holds: bool,
}

/// A bay that is Finished, after so many loads and row calls.
pub fn finished(moved: u64, rows: u64) -> Told {
    Told {
        state: BayState::Finished,
        moved,
        rows,
        holds: true,
    }
}

// Whether the bay holds the records that come out, and its input.
fn has_result<R: Rack>(alloc: Global, rack: &mut R, shape: &Shape, k: usize) -> bool {
    let (_, passes, output) = work_of(k);
    is_attached(rack, shape) && holds(alloc, rack, shape, passes, output)
}

// What is told of each bay, whose row calls before the batch these were.
fn told_of<R: Rack>(
    alloc: Global,
    shape: &Shape,
    batch: &Batch,
    bays: &mut [R],
    before: &[u64],
) -> Option<Vec<Told>> {
    let mut list = Vec::new(alloc);
    for bay in 0..batch.count() {
        let k = usize::from(bay);
        let rack = bays.get_mut(k)?;
        let rows = rack.rows().checked_sub(*before.get(k)?)?;
        let told = Told {
            state: *batch.state(bay),
            moved: batch.moved(bay),
            rows,
            holds: has_result(alloc, rack, shape, k),
        };
        list.push(told).ok()?;
    }
    Some(list)
}

// The row calls of each bay so far.
fn rows_of<R: Rack>(alloc: Global, bays: &[R]) -> Option<Vec<u64>> {
    let mut rows = Vec::new(alloc);
    for bay in bays {
        rows.push(bay.rows()).ok()?;
    }
    Some(rows)
}

/// Begins the job of each bay, gives these turns and rounds until none is Going. Nothing where memory
/// is refused, or a number is that of no bay.
pub fn batch_of<R: Rack>(
    alloc: Global,
    shape: &Shape,
    bays: &mut [R],
    turns: &[u16],
    every: u64,
) -> Option<Vec<Told>>
    requires { All (λ y. (R.view y).attached ≡ Some (dims_of shape.now)) bays.old }
{
    let count = bays.len();
    if count == 0 || count > 64 {
        return None;
    }
    let before = rows_of(alloc, bays)?;
    let jobs = jobs_of(alloc, shape, count, every)?;
    let mut bufs = Bufs::new(alloc, shape).ok()?;
    let Ok(mut batch) = Batch::begin(alloc, shape, jobs.as_slice(), bays) else {
        return None;
    };
    if !are_below(turns, batch.count()) {
        return None;
    }
    batch.run_turns(turns, bays, &mut bufs);
    told_of(alloc, shape, &batch, bays, before.as_slice())
}

/// The same on new disks.
pub fn batch_on_disks<R: Rack>(
    alloc: Global,
    shape: &Shape,
    bays: &mut [R],
    turns: &[u16],
    every: u64,
) -> Option<Vec<Told>> {
    if !have_loaded(bays, shape) {
        return None;
    }
    batch_of(alloc, shape, bays, turns, every)
}
