//! One pass over the records of an area: load after load through two buffers, to another area.

#![tactic(auto)]

mod one_load;
mod rows;
mod whole_pass;

pub use one_load::{fill_load, load_step};
pub use whole_pass::run_pass;
