//! Detection: whether the numbers of the input are an affine map of their addresses, and which.

#![tactic(auto)]

mod detect_error;
mod detection;
mod scan_loads;
mod scan_state;
mod scan_steps;

pub use detect_error::DetectError;
pub use detection::detect;
