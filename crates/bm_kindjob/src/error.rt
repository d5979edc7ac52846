//! Why a transform has no plan.

use thiserror::Error;

/// Why there is no plan of a transform. The texts are for Rust's `Error` trait alone: nothing
/// prints them, and no clause rests on them.
#[derive(Clone, Copy, Debug, PartialEq, Eq, Error)]
pub enum KindError {
    /// The records are not 8 bytes wide.
    #[error("the records are not 8 bytes wide")]
    Width,
    /// Memory for the plan was refused.
    #[error("out of memory")]
    OutOfMemory,
}
