//! What the program does with its words and its standard streams.
//!
//! A program hands in its runtime and streams: `exit_status(&run(&rt, rt.stdin(), rt.stdout(),
//! rt.stderr()))`.

#![tactic(auto)]

mod batch;
mod choice;
mod one_job;
mod program;
mod start_error;
mod streams;

pub use program::{exit_status, run};
pub use start_error::StartError;
pub use streams::Stream;
