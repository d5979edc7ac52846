//! Factors of a nonsingular address map, and the plan that they make.

#![tactic(auto)]

mod erasing;
mod error;
mod factoring;
mod reducing;
mod swapping;
mod trailing;

pub use erasing::eraser;
pub use error::FactorError;
pub use factoring::factor;
pub use reducing::reducer;
pub use swapping::swapper;
pub use trailing::trailer;
