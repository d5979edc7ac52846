//! Why a map has no plan.

use thiserror::Error;

/// Why there is no plan of a permutation. The texts are for Rust's `Error` trait alone: nothing
/// prints them, and no clause rests on them.
#[derive(Clone, Copy, Debug, PartialEq, Eq, Error)]
pub enum FactorError {
    /// The matrix sends x to 0, the least such vector but 0.
    #[error("the matrix is singular: it sends {x} to 0")]
    Singular { x: u64 },
    /// Memory for the plan was refused.
    #[error("out of memory")]
    OutOfMemory,
}
