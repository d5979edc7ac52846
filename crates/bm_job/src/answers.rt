//! What a machine answers.

ghost use Rattle.std.specs.Prelude.{◌≡◌};
ghost use Rattle.bm_job.specs.Errors.{run_error};

use bm_base::Failed;
use bm_control::ControlError;

/// What a turn leaves to do.
#[derive(Clone, Copy, Debug, PartialEq, Eq)]
pub enum Turn {
    /// A load or a gate remains.
    Went,
    /// All passes are done.
    Finished,
}

/// Why a run ended early.
#[derive(Clone, Copy, Debug, PartialEq, Eq)]
pub enum RunError {
    /// The rack failed.
    Failed,
    /// No records are loaded.
    NotLoaded,
    /// The records that are loaded have another shape.
    OtherShape,
    /// Another job is open.
    OtherJob,
    /// This page of the control file is wrong.
    BadPage {
        /// The page's number.
        page: u16,
    },
}

impl From<Failed> for RunError {
    ghost use Rattle.bm_job.specs.declared.answers.RunError.TheVariants as kind;

    ghost from_gives = { λ _ made. made ≡ kind.Failed };

    fn from(_error: Failed) -> RunError {
        RunError::Failed
    }
}

impl From<ControlError> for RunError {
    ghost from_gives = { λ e made. made ≡ run_error e };

    fn from(error: ControlError) -> RunError {
        match error {
            ControlError::Failed => RunError::Failed,
            ControlError::BadPage { page } => RunError::BadPage { page },
        }
    }
}
