//! The commands over several bays, and the one call that carries them out.

#![tactic(auto)]

mod attaching;
mod batch_call;
mod dumping;
mod filling;
mod opening;
mod planning;
mod preparing;
mod running;
mod shapes;
mod tasks;
mod words;

pub use batch_call::batch_top;
pub use words::{batch_jobs, begins_batch};
