//! Two racks as one: every write goes to both, and one of them may fail.

#![tactic(auto)]

mod asking;
mod attaching;
mod copying;
mod creating;
mod healing;
mod mirror;
mod rack_calls;
mod sides;

pub use healing::{HealError, Healed};
pub use mirror::Mirror;
pub use sides::{Side, Sides};
