//! Several jobs that take turns.

ghost use Rattle.std.specs.Prelude.{◌≡◌, ◌*◌, ◌<◌, ◌≤◌, length, slice_index_or, Some};
ghost use Rattle.bm_base.specs.Shape.{loads_of};
ghost use Rattle.bm_job.specs.declared.machine.Machine.{Machine};
ghost use Rattle.bm_batch.specs.declared.bay_slot.BaySlot.{BaySlot};
ghost use Rattle.bm_batch.specs.Bays.{moved_of};

use crate::bay_slot::BaySlot;
use crate::bay_state::BayState;
use bm_base::Shape;
use std::marker::Model;

/// Several jobs of one shape, each in a bay of its own, which take turns with one pair of buffers.
///
/// A bay is a `Rack`, a region of its own of the same disks. What a bay answers depends on that bay
/// alone.
#[derive(Drop)]
pub struct Batch {
    pub(crate) shape: Shape,
    pub(crate) slots: Vec<BaySlot>,
}

impl Model for Batch {
    ghost use Rattle.bm_batch.specs.Batches.{BatchValue, BatchFits};

    ghost Value = { BatchValue };

    ghost view = { λ b. record { shape = b.shape; slots = b.slots.items } };

    ghost invariant = { λ b. BatchFits b.shape b.slots.items };
}

impl Batch {
    /// How many bays there are, 1 to 64.
    pub fn count(&self) -> u16
        ensures count { result ≡ length self.now.slots }
        ensures some { 1 ≤ result }
        ensures few { result ≤ 64 }
    {
        self.slots.len() as u16
    }

    /// How far a bay is. The bay is below the count.
    pub fn state(&self, bay: u16) -> &BayState
        requires { bay < length self.now.slots }
        ensures { (d : BaySlot) → result.now ≡ (slice_index_or self.now.slots bay d).state }
    {
        &self.slots[usize::from(bay)].state
    }

    /// The loads that are moved in a bay, which is below the count: the `moved` of its machine, or 0
    /// where `begin` refused the bay. In a bay that is Finished they are N/M for each pass.
    pub fn moved(&self, bay: u16) -> u64
        requires { bay < length self.now.slots }
        ensures moved { (d : BaySlot) → result ≡ moved_of (slice_index_or self.now.slots bay d) }
        ensures all { (d : BaySlot) (m : Machine)
            → (slice_index_or self.now.slots bay d).state ≡ BayState.Finished
            → (slice_index_or self.now.slots bay d).machine ≡ Some m
            → result ≡ m.passes * loads_of self.now.shape }
    {
        match self.slots[usize::from(bay)].machine {
            Some(machine) => machine.moved(),
            None => 0,
        }
    }
}
