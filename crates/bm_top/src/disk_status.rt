//! The answers of a command for what its disks answer.

ghost use Rattle.std.specs.Prelude.{◌≡◌};
ghost use Rattle.bm_top.specs.DiskStatus.{load_status, run_status, open_status, dump_status};
ghost use Rattle.bm_top.specs.DiskStatus.{drop_status, detect_status};

use crate::Status;
use bm_detect::DetectError;
use bm_disks::{DropError, DumpError, LoadError, OpenError};
use bm_job::RunError;

/// Of records that were not loaded.
pub fn load_status(error: LoadError) -> Status
    ensures { result ≡ load_status error }
{
    match error {
        LoadError::Failed => Status::RackFault,
        LoadError::DataFault => Status::DataFault,
        LoadError::DataShort { got } => Status::DataShort { got },
        LoadError::DataLong => Status::DataLong,
    }
}

/// Of a job that was not done.
pub fn run_status(error: RunError) -> Status
    ensures { result ≡ run_status error }
{
    match error {
        RunError::Failed => Status::RackFault,
        RunError::NotLoaded => Status::NotLoaded,
        RunError::OtherShape => Status::OtherShape,
        RunError::OtherJob => Status::OtherJob,
        RunError::BadPage { page } => Status::BadPage { page },
    }
}

/// Of a job that is not open.
pub fn open_status(error: OpenError) -> Status
    ensures { result ≡ open_status error }
{
    match error {
        OpenError::Failed => Status::RackFault,
        OpenError::BadPage { page } => Status::BadPage { page },
        OpenError::NotLoaded => Status::NotLoaded,
        OpenError::OtherShape => Status::OtherShape,
        OpenError::NoJob => Status::NoJob,
        OpenError::OtherJob => Status::OtherJob,
    }
}

/// Of an area that was not written out.
pub fn dump_status(error: DumpError) -> Status
    ensures { result ≡ dump_status error }
{
    match error {
        DumpError::Failed => Status::RackFault,
        DumpError::SinkFault => Status::SinkFault,
    }
}

/// Of numbers that are no affine permutation.
pub fn detect_status(error: DetectError) -> Status
    ensures { result ≡ detect_status error }
{
    match error {
        DetectError::Failed => Status::RackFault,
        DetectError::OutOfRange { x, y } => Status::OutOfRange { x, y },
        DetectError::NotAffine { x, y, want } => Status::NotAffine { x, y, want },
        DetectError::Singular { x } => Status::NotPermutation { x },
    }
}

/// Of a job that was not dropped.
pub fn drop_status(error: DropError) -> Status
    ensures { result ≡ drop_status error }
{
    match error {
        DropError::Failed => Status::RackFault,
        DropError::NoJob => Status::NoJob,
    }
}
