//! The three standard streams.

use std::os::fd::AsFd;

/// A standard stream of a program.
pub trait Stream {
    /// Tests that the stream is open.
    ///
    /// The system gives the number of a closed one to the next file that is opened. What is meant
    /// for the stream would then be written into that file. So this comes before any file is
    /// opened.
    fn is_open(&self) -> bool;
}

/// A stream of the system is open where its descriptor can be copied.
impl<T: AsFd> Stream for T {
    fn is_open(&self) -> bool {
        self.as_fd().try_clone_to_owned().is_ok()
    }
}
