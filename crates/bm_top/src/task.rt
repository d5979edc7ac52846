//! What a command is to do.

use bm_base::{Shape, Stops};
use bm_forms::Job;

/// What a job text asks of a command: the sizes of its records, what is done with them, after how
/// many loads of a pass progress is made durable, and what a drill is made of.
#[derive(Drop)]
pub struct Task {
    /// The sizes of the records and of the rack.
    pub shape: Shape,
    /// What is to be done with the records.
    pub job: Job,
    /// After how many memory loads of a pass progress is made durable, 1 to N/M.
    pub every: u64,
    /// Where a drill's generator begins.
    pub start: u64,
    /// The stops of a drill in order, 64 at most.
    pub stops: Stops,
}
