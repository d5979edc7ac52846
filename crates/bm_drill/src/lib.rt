//! Runs of sessions, and the drill: a job on generated records, with stops within its device calls.

#![tactic(auto)]

mod drill_run;
mod drill_steps;
mod generator;
mod sessions;

pub use drill_run::{DrillSpec, drill};
pub use sessions::{SessionsEnd, run_sessions};
