//! The job of one bay.

use bm_forms::{Job, Plan};

/// A job, the passes that do it, and after how many loads of a pass its progress is made durable.
#[derive(Drop)]
pub struct BatchJob {
    /// What is done with the records.
    pub job: Job,
    /// The passes that do it.
    pub plan: Plan,
    /// The loads of a pass after which progress is made durable, 1 to N/M.
    pub every: u64,
}
