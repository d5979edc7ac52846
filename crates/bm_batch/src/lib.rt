//! Several jobs in bays of one rack, which take turns with one pair of buffers.

#![tactic(auto)]

mod batch;
mod batch_job;
mod bay_slot;
mod bay_state;
mod begin;
mod one_bay;
mod rounds;
mod turn;

pub use batch::Batch;
pub use batch_job::BatchJob;
pub use bay_state::BayState;
