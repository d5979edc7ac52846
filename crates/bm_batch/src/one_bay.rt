//! What is done with one bay.

ghost use Rattle.std.specs.Prelude.{◌≡◌, ◌≢◌, ℕ, ◌<◌, IsTrue, IfOk, Some, length};
ghost use Rattle.bm_base.specs.declared.shape.Shape.{Shape};
ghost use Rattle.bm_base.specs.Shape.{dims_of};
ghost use Rattle.bm_bufs.specs.Bufs.{FitsShape};
ghost use Rattle.bm_job.specs.declared.machine.Machine.{Machine};
ghost use Rattle.bm_batch.specs.Bays.{IsBayOfShape, BayBegun, BayWent, BayTurns, BayStep};
ghost use Rattle.bm_batch.specs.Bays.{IsSlotOf, answered};
ghost use Rattle.bm_batch.specs.Batches.{IsBatchJob};

use crate::batch_job::BatchJob;
use crate::bay_slot::BaySlot;
use crate::bay_state::BayState;
use bm_base::Shape;
use bm_bufs::Bufs;
use bm_job::{Machine, RunError, Turn};
use bm_rack::Rack;

/// Begins a job on its bay, or goes on with it where it is open there.
pub fn begin_bay<Y: Rack>(rack: &mut Y, shape: &Shape, job: &BatchJob) -> BaySlot
    requires attached { (Y.view rack.old).attached ≡ Some (dims_of shape.now) }
    requires job { IsBatchJob shape.now job.now }
    ensures begun { BayBegun Y.tells_stands Y.tells_contents shape.now job.now.job
        (length job.now.plan.forms) job.now.every result (Y.view rack.old) (Y.view rack.new) }
{
    slot_of(Machine::begin(rack, shape, &job.job, &job.plan, job.every))
}

// What is known of a bay after a begin that answers so.
fn slot_of(answer: Result<Machine, RunError>) -> BaySlot
    requires { IfOk answer (λ m. IsTrue m.alive) }
    ensures { IsSlotOf answer result }
{
    match answer {
        Ok(machine) => {
            let state = if machine.finished() {
                BayState::Finished
            } else {
                BayState::Going
            };
            BaySlot {
                machine: Some(machine),
                state,
            }
        }
        Err(error) => BaySlot {
            machine: None,
            state: BayState::Ended { error },
        },
    }
}

/// Gives a turn to a bay that is Going, and does nothing with another.
pub fn turn_bay<Y: Rack>(slot: &BaySlot, rack: &mut Y, bufs: &mut Bufs) -> BaySlot
    requires attached { slot.now.state ≡ BayState.Going → (m : Machine)
        → slot.now.machine ≡ Some m → (Y.view rack.old).attached ≡ Some (dims_of m.shape) }
    requires fits { (m : Machine) → slot.now.machine ≡ Some m → FitsShape m.shape bufs.old }
    ensures turns { BayTurns Y.tells_stands Y.tells_contents slot.now result
        (Y.view rack.old) (Y.view rack.new) }
    ensures step { slot.now.state ≡ BayState.Going → (m : Machine) → slot.now.machine ≡ Some m
        → BayStep Y.tells_stands Y.tells_contents m result (Y.view rack.old) (Y.view rack.new) }
    ensures idle { slot.now.state ≢ BayState.Going → rack.new ≡ rack.old }
    ensures shape { (s : Shape) → IsBayOfShape s slot.now → IsBayOfShape s result }
    ensures fits { (s : Shape) → IsBayOfShape s slot.now → FitsShape s bufs.old → FitsShape s bufs.new }
{
    match slot.machine {
        Some(machine) => match slot.state {
            BayState::Going => take_turn(machine, rack, bufs),
            BayState::Finished | BayState::Ended { .. } => *slot,
        },
        None => *slot,
    }
}

// The slot of a bay that was Going with this machine, after a turn.
fn take_turn<Y: Rack>(machine: Machine, rack: &mut Y, bufs: &mut Bufs) -> BaySlot
    requires alive { IsTrue machine.alive }
    requires left { machine.done < machine.passes }
    requires attached { (Y.view rack.old).attached ≡ Some (dims_of machine.shape) }
    requires fits { FitsShape machine.shape bufs.old }
    ensures went { BayWent Y.tells_stands Y.tells_contents machine result
        (Y.view rack.old) (Y.view rack.new) }
    ensures step { BayStep Y.tells_stands Y.tells_contents machine result
        (Y.view rack.old) (Y.view rack.new) }
    ensures fits { FitsShape machine.shape bufs.new }
{
    let mut next = machine;
    let state = state_after(next.turn(rack, bufs));
    BaySlot {
        machine: Some(next),
        state,
    }
}

// How far a bay is after a turn that answers so.
fn state_after(answer: Result<Turn, RunError>) -> BayState
    ensures { result ≡ answered answer }
{
    match answer {
        Ok(Turn::Went) => BayState::Going,
        Ok(Turn::Finished) => BayState::Finished,
        Err(error) => BayState::Ended { error },
    }
}
