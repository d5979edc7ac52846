//! A job's machine: one load a turn, with progress that a stop at any moment keeps.

#![tactic(auto)]

mod answers;
mod begin;
mod durable_step;
mod machine;
mod next_load;
mod run;
mod turn;

pub use answers::{RunError, Turn};
pub use bm_control::{same_job, same_shape};
pub use machine::Machine;
pub use run::run_job;
