//! What a run tells of itself.

/// What one session of a job did.
#[derive(Clone, Copy, Debug, PartialEq, Eq)]
pub struct RunReport {
    /// The passes of the job.
    pub passes: u16,
    /// The passes that were done before this session.
    pub done_before: u16,
    /// The loads of the next pass that were counted before this session.
    pub part_before: u64,
    /// The parallel transfers of this session.
    pub moves: u64,
}

/// What a job's sessions did, with a stop between each two.
#[derive(Clone, Copy, Debug, PartialEq, Eq)]
pub struct SessionsReport {
    /// The passes of the job.
    pub passes: u16,
    /// How often the rack was restarted.
    pub restarts: u32,
    /// The parallel transfers of all sessions together.
    pub moves: u64,
}

/// What a drill did.
#[derive(Clone, Copy, Debug, PartialEq, Eq)]
pub struct DrillReport {
    /// The passes of the job.
    pub passes: u16,
    /// How often the rack was restarted.
    pub restarts: u32,
    /// The parallel transfers of all sessions together.
    pub moves: u64,
    /// The parallel transfers that an uninterrupted run never exceeds.
    pub bound: u64,
    /// The SHA-256 of the output's records in order of address.
    pub digest: [u8; 32],
}
