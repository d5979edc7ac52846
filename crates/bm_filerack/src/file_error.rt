//! Why a call on files did not go its way.

ghost use Rattle.std.specs.Prelude.{◌≡◌, ◌≢◌};
ghost use Rattle.std.specs.IoError.{error_kind};

use std::alloc::AllocError;
use std::io;
use std::io::ErrorKind;

/// Why a call on files did not go its way.
#[derive(Clone, Copy, Debug, PartialEq, Eq)]
pub enum FileError {
    /// The system failed.
    Failed,
    /// Memory was refused.
    OutOfMemory,
    /// Something has the name of a file that was to be made.
    Taken,
}

impl From<AllocError> for FileError {
    ghost use Rattle.bm_filerack.specs.declared.file_error.FileError.TheVariants.{OutOfMemory};

    ghost from_gives = { λ _ made. made ≡ OutOfMemory };

    fn from(_: AllocError) -> FileError {
        FileError::OutOfMemory
    }
}

impl From<io::Error> for FileError {
    ghost use Rattle.bm_filerack.specs.declared.file_error.FileError.TheVariants.{Failed, OutOfMemory, Taken};
    ghost use Rattle.std.specs.declared.io.ErrorKind.TheVariants as kind;

    ghost from_gives = { λ error made. (error_kind error ≡ kind.OutOfMemory → made ≡ OutOfMemory)
        × (error_kind error ≡ kind.AlreadyExists → made ≡ Taken)
        × (error_kind error ≢ kind.OutOfMemory → error_kind error ≢ kind.AlreadyExists → made ≡ Failed) };

    fn from(error: io::Error) -> FileError {
        if error.kind() == ErrorKind::OutOfMemory {
            FileError::OutOfMemory
        } else if error.kind() == ErrorKind::AlreadyExists {
            FileError::Taken
        } else {
            FileError::Failed
        }
    }
}
