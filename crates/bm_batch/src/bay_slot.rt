//! What a batch knows of one bay.

ghost use Rattle.bm_batch.specs.Slots.{SlotFits};

use crate::bay_state::BayState;
use bm_job::Machine;

/// What a batch knows of one bay: its state, and its job's machine unless `begin` refused the bay.
#[derive(Clone, Copy, Debug)]
pub struct BaySlot {
    pub(crate) machine: Option<Machine>,
    pub(crate) state: BayState,
    pub ghost keeps: { SlotFits machine state },
}
