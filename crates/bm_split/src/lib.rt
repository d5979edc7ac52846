//! A placing as two steps: whole runs of records first, and then records within tiles.

#![tactic(auto)]

mod choice;
mod columns;
mod split;
mod splitting;
mod tiling;

pub use choice::best_split;
pub use split::Split;
pub use splitting::split_placing;
