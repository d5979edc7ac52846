//! Where records lie on a rack, and moves of loads and stripes between a rack and buffers.

#![tactic(auto)]

mod loads;
mod rows;
mod spot;
mod spread_write;
mod stripes;

pub use loads::{read_load, write_load};
pub use spot::{Spot, join_spot, split};
pub use spread_write::write_spread;
pub use stripes::read_stripe;
