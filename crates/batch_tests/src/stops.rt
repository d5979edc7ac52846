//! Stops of bays, in a batch and alone.

ghost use Rattle.std.specs.Prelude.{◌≡◌, Some};
ghost use Rattle.std.specs.List.{All};
ghost use Rattle.bm_base.specs.Shape.{dims_of};

use crate::batches::{Told, batch_of, finished, have_attached, have_loaded};
use bm_base::Shape;
use bm_batch::BayState;
use bm_job::RunError;
use bm_memrack::MemRack;
use bm_named::bit_reversal;
use bm_rack::StopRack;
use run_helpers::{holds, ran};
use std::alloc::Global;
use std::test::Fail;
use test_helpers::{REVERSED, is_attached};

// What a stop leaves of each unit that is not durable: what stands, or zeros.
const PICKS: [u64; 2] = [0, 0x5555_5555_5555_5555];

// A stop of each bay, after so many device calls.
fn stop_all<R: StopRack>(bays: &mut [R], shape: &Shape, after: u64)
    requires { All (λ y. (R.view y).attached ≡ Some (dims_of shape.now)) bays.old }
    ensures { All (λ y. (R.view y).attached ≡ Some (dims_of shape.now)) bays.new }
{
    for bay in bays.iter_mut() {
        bay.stop_after(after);
    }
}

// Restarts each bay that ended, and takes the stop of every other away.
fn restart_all<R: StopRack>(bays: &mut [R], told: &[Told], pick: u64) {
    for (bay, told) in bays.iter_mut().zip(told) {
        match told.state {
            BayState::Ended { .. } => bay.restart(pick),
            _ => bay.stop_never(),
        }
    }
}

// The states, loads and results of the bays: their first batch is stopped, and another one follows.
fn stopped_batch<R: StopRack>(
    alloc: Global,
    bays: &mut [R],
    shape: &Shape,
    after: u64,
    pick: u64,
) -> Option<Vec<(BayState, u64, bool)>> {
    if !have_loaded(bays, shape) {
        return None;
    }
    stop_all(bays, shape, after);
    let first = batch_of(alloc, shape, bays, &[], 2)?;
    restart_all(bays, first.as_slice(), pick);
    if !have_attached(bays, shape) {
        return None;
    }
    let last = batch_of(alloc, shape, bays, &[1, 0, 1], 2)?;
    let mut list = Vec::new(alloc);
    for told in &last {
        list.push((told.state, told.moved, told.holds)).ok()?;
    }
    Some(list)
}

// A stop of both bays at each of their device calls, with both picks: the next batch ends both jobs.
#[test]
fn stops_of_two_bays(rt: HostRuntime) -> Result<(), Fail> {
    let shape = Shape::new(4, 1, 1, 3, 1).ok().ok_or("shape")?;
    for after in 0..37 {
        for pick in PICKS {
            let mut bays = Vec::new(rt.alloc());
            for _bay in 0..2 {
                bays.push(MemRack::new(rt.alloc(), Vec::new(rt.alloc())))?;
            }
            let found = stopped_batch(rt.alloc(), bays.as_mut_slice(), &shape, after, pick).ok_or(
                "memory",
            )?;
            let want = [(BayState::Finished, 4, true), (BayState::Finished, 2, true)];
            assert_eq!(rt; found.as_slice(), want.as_slice(), "{after} {pick:x}");
        }
    }
    Ok(())
}

// Runs the bit reversal alone, with a stop after so many device calls. Whether the stop ended it.
fn has_stopped_alone<R: StopRack>(alloc: Global, bay: &mut R, shape: &Shape, stop: Stop) -> bool {
    if !is_attached(bay, shape) {
        return false;
    }
    bay.stop_after(stop.after);
    let answer = ran(alloc, bay, shape, &bit_reversal(4), stop.every);
    bay.restart(stop.pick);
    answer == Some(Err(RunError::Failed))
}

// Runs the bit reversal alone to its end, and tells whether its records stand then.
fn is_done_alone<R: StopRack>(alloc: Global, bay: &mut R, shape: &Shape, every: u64) -> bool {
    if !is_attached(bay, shape) {
        return false;
    }
    let answer = ran(alloc, bay, shape, &bit_reversal(4), every);
    matches!(answer, Some(Ok(_))) && holds(alloc, bay, shape, 2, REVERSED)
}

// A stop, and after how many loads of a pass progress is made durable.
#[derive(Clone, Copy)]
struct Stop {
    after: u64,
    pick: u64,
    every: u64,
}

// A bay that was interrupted alone goes on in a batch. What is told of it then.
fn alone_then_batch<R: StopRack>(
    alloc: Global,
    bays: &mut [R],
    shape: &Shape,
    stop: Stop,
) -> Option<Told> {
    if !have_loaded(bays, shape) || !has_stopped_alone(alloc, bays.first_mut()?, shape, stop) {
        return None;
    }
    if !have_attached(bays, shape) {
        return None;
    }
    batch_of(alloc, shape, bays, &[0, 0], stop.every)?
        .first()
        .copied()
}

// A bay that was interrupted in a batch goes on alone. How the batch ended, and whether the run did its
// job.
fn batch_then_alone<R: StopRack>(
    alloc: Global,
    bays: &mut [R],
    shape: &Shape,
    stop: Stop,
) -> Option<(BayState, bool)> {
    if !have_loaded(bays, shape) {
        return None;
    }
    stop_all(bays, shape, stop.after);
    let told = batch_of(alloc, shape, bays, &[], stop.every)?;
    restart_all(bays, told.as_slice(), stop.pick);
    let done = is_done_alone(alloc, bays.first_mut()?, shape, stop.every);
    Some((told.first()?.state, done))
}

// A run and a batch of one bay go on where the other was stopped, by the gates that stand.
#[test]
fn runs_and_batches(rt: HostRuntime) -> Result<(), Fail> {
    let shape = Shape::new(4, 1, 1, 3, 1).ok().ok_or("shape")?;
    // a load is four row calls
    let rows = [
        // the job's gate is not durable
        (11u64, 0u64, 2u64, 16u64),
        // in the first pass, and after its gate
        (18, 0x5555_5555_5555_5555, 2, 16),
        (24, 0x5555_5555_5555_5555, 2, 8),
        // after its first load was counted
        (24, 0x5555_5555_5555_5555, 1, 12),
        // after the last gate
        (35, 0, 2, 0),
    ];
    for (after, pick, every, left) in rows {
        let stop = Stop { after, pick, every };
        let mut bays = Vec::new(rt.alloc());
        bays.push(MemRack::new(rt.alloc(), Vec::new(rt.alloc())))?;
        let told = alone_then_batch(rt.alloc(), bays.as_mut_slice(), &shape, stop);
        let mut bays = Vec::new(rt.alloc());
        bays.push(MemRack::new(rt.alloc(), Vec::new(rt.alloc())))?;
        let found = batch_then_alone(rt.alloc(), bays.as_mut_slice(), &shape, stop);
        let error = RunError::Failed;
        assert_eq!(rt;
            (told, found),
            (
                Some(finished(4, left)),
                Some((BayState::Ended { error }, true))
            ),
            "{after} {pick:x} {every}"
        );
    }
    Ok(())
}
