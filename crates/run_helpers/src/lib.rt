//! What the tests of control files and of runs share: control files made call by call, runs of sixteen records.

#![tactic(auto)]

mod recorder;
mod runs;
mod slates;

pub use recorder::{Call, Recorder};
pub use runs::{PICKS, has_loaded, holds, plan_of, ran, report};
pub use slates::{Said, Step, has_made, have_made, is_job};
