//! How a command ends.

ghost use Rattle.std.specs.Prelude.{◌≡◌};
ghost use Rattle.bm_top.specs.Status.{code_of};

use bm_base::FieldName;
use bm_named::MapFault;

/// How a command ended.
#[derive(Clone, Copy, Debug, PartialEq, Eq)]
pub enum Status {
    /// The command was carried out whole.
    Done,
    /// Memory was refused.
    OutOfMemory,
    /// The words are no command.
    Usage,
    /// The job source failed.
    JobFault,
    /// The job text is longer than 65536 bytes, or is no TOML document.
    JobText,
    /// This field of the job text is the first that is faulty.
    JobField {
        /// The field.
        which: FieldName,
    },
    /// The numbers of the shape break this rule, and none before it.
    JobShape {
        /// The number of the rule, as of `Shape::new`.
        rule: u8,
    },
    /// The job's map has this fault, and none before it.
    JobMap {
        /// The fault.
        fault: MapFault,
    },
    /// The input failed.
    DataFault,
    /// The input ended before its last record did.
    DataShort {
        /// The bytes that came.
        got: u64,
    },
    /// The input has a byte after its last record.
    DataLong,
    /// The rack failed.
    RackFault,
    /// Nothing stands where the disks should be.
    NoDisks,
    /// Something else stands than disks of these sizes.
    WrongDims,
    /// Something stands where the disks were to be made.
    Exists,
    /// No records are loaded.
    NotLoaded,
    /// Records of another shape are loaded.
    OtherShape,
    /// Another job is open.
    OtherJob,
    /// The open job has passes that are not done.
    NotDone {
        /// The passes that are done.
        done: u16,
        /// All passes.
        all: u16,
    },
    /// No job is open.
    NoJob,
    /// This page of the control file is the first that is wrong.
    BadPage {
        /// The page.
        page: u16,
    },
    /// The output failed.
    SinkFault,
    /// A number of the input is no address. No lower record has such a number.
    OutOfRange {
        /// The record.
        x: u64,
        /// Its number.
        y: u64,
    },
    /// The input is no affine list. The lowest record shows it that differs from the candidate.
    NotAffine {
        /// The record.
        x: u64,
        /// Its number.
        y: u64,
        /// The candidate's number for it.
        want: u64,
    },
    /// The input is the list of a singular map.
    NotPermutation {
        /// The least address but 0 that the matrix sends to 0.
        x: u64,
    },
    /// The shape of this job of a batch is the first that differs from that of the first job.
    BatchShape {
        /// The number of the job, from 0.
        bay: u16,
    },
}

impl Status {
    /// The exit status of the program.
    pub fn code(&self) -> u8
        ensures { result ≡ code_of self.now }
    {
        match self {
            Status::Done => 0,
            Status::OutOfMemory => 1,
            Status::Usage => 2,
            Status::JobFault => 3,
            Status::JobText => 4,
            Status::JobField { .. } => 5,
            Status::JobShape { .. } => 6,
            Status::JobMap { .. } => 7,
            Status::DataFault => 8,
            Status::DataShort { .. } => 9,
            Status::DataLong => 10,
            Status::RackFault => 11,
            Status::NoDisks => 12,
            Status::WrongDims => 13,
            Status::Exists => 14,
            Status::NotLoaded => 15,
            Status::OtherShape => 16,
            Status::OtherJob => 17,
            Status::NotDone { .. } => 18,
            Status::NoJob => 19,
            Status::BadPage { .. } => 20,
            Status::SinkFault => 21,
            Status::OutOfRange { .. } => 22,
            Status::NotAffine { .. } => 23,
            Status::NotPermutation { .. } => 24,
            Status::BatchShape { .. } => 25,
        }
    }
}
