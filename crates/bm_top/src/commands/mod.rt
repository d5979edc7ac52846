//! One module for each command, by its word.

pub mod carry;
pub mod detect;
pub mod drill;
pub mod drop;
pub mod dump;
pub mod flip;
pub mod load;
pub mod new;
pub mod plan;
pub mod run;
pub mod status;
