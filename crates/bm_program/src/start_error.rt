//! What ends the program before the call.

ghost use Rattle.std.specs.Prelude.{◌≡◌, ◌≢◌};
ghost use Rattle.std.specs.IoError.{error_kind};

use bm_base::OutOfMemory;
use std::alloc::AllocError;
use std::io;
use std::io::ErrorKind;

/// Why the program ends before it makes the call.
#[derive(Clone, Copy, Debug, PartialEq, Eq)]
pub enum StartError {
    /// Memory for the words or for the rack was refused.
    OutOfMemory,
    /// A standard stream is closed, or a word is no text.
    Unavailable,
}

impl From<io::Error> for StartError {
    ghost use Rattle.bm_program.specs.declared.start_error.StartError.TheVariants.{OutOfMemory, Unavailable};
    ghost use Rattle.std.specs.declared.io.ErrorKind.TheVariants as kind;

    ghost from_gives = { λ error made. (error_kind error ≡ kind.OutOfMemory → made ≡ OutOfMemory)
        × (error_kind error ≢ kind.OutOfMemory → made ≡ Unavailable) };

    fn from(error: io::Error) -> StartError {
        if error.kind() == ErrorKind::OutOfMemory {
            StartError::OutOfMemory
        } else {
            StartError::Unavailable
        }
    }
}

impl From<OutOfMemory> for StartError {
    ghost use Rattle.bm_program.specs.declared.start_error.StartError.TheVariants as end;

    ghost from_gives = { λ _ made. made ≡ end.OutOfMemory };

    fn from(_: OutOfMemory) -> StartError {
        StartError::OutOfMemory
    }
}

impl From<AllocError> for StartError {
    ghost use Rattle.bm_program.specs.declared.start_error.StartError.TheVariants.{OutOfMemory};

    ghost from_gives = { λ _ made. made ≡ OutOfMemory };

    fn from(_: AllocError) -> StartError {
        StartError::OutOfMemory
    }
}
