//! How far a bay is.

use bm_job::RunError;

/// How far a bay is.
#[derive(Clone, Copy, Debug, PartialEq, Eq)]
pub enum BayState {
    /// A load or a gate remains.
    Going,
    /// All passes are done.
    Finished,
    /// Its job was refused, or a turn of its own was.
    Ended {
        /// The refusal.
        error: RunError,
    },
}
