//! What a job text says, and why one is refused.

ghost use Rattle.bm_base.specs.declared.field_name.FieldName.{FieldName};
ghost use Rattle.bm_jobfile.specs.JobFile.{refusal_of};
ghost use Rattle.std.specs.Prelude.{◌≡◌};

use crate::fields::FieldError;
use bm_base::{FieldName, Shape, ShapeRule, Stops};
use bm_forms::Job;
use bm_named::MapFault;

/// What a job text says.
#[derive(Drop)]
pub struct JobFile {
    /// The sizes of the records and of the rack.
    pub shape: Shape,
    /// What is to be done with the records.
    pub job: Job,
    /// Where a drill's generator begins.
    pub start: u64,
    /// The stops of a drill.
    pub stops: Stops,
    /// After how many memory loads of a pass progress is made durable, 1 to N/M.
    pub every: u64,
}

/// Why a job text is refused: the first of its faults, in the order of the variants.
#[derive(Clone, Copy, Debug, PartialEq, Eq)]
pub enum JobError {
    /// The text is longer than 65536 bytes, or is no TOML document.
    Text,
    /// The first field that is faulty.
    Field { which: FieldName },
    /// The first rule that the numbers of the shape break.
    Shape { rule: u8 },
    /// The first fault of the map, beside the shape that the text has.
    Map { shape: Shape, fault: MapFault },
    /// Memory was refused; this may come in place of any other.
    OutOfMemory,
}

impl From<FieldError> for JobError {
    ghost from_gives = { λ e made. made ≡ refusal_of e };

    fn from(error: FieldError) -> JobError {
        match error {
            FieldError::Faulty { which } => JobError::Field { which },
            FieldError::OutOfMemory => JobError::OutOfMemory,
        }
    }
}

impl From<ShapeRule> for JobError {
    ghost use Rattle.bm_jobfile.specs.declared.job_file.JobError.{JobError};

    ghost from_gives = { λ e made. made ≡ JobError.Shape e.rule };

    fn from(broken: ShapeRule) -> JobError {
        JobError::Shape { rule: broken.rule }
    }
}
