//! A file that one program has at a time.

use std::fs::File;
use std::io;

/// A file that one program has at a time, as those of the system can be had.
pub trait LockFile {
    /// Takes the file for this opening of it alone, until it is closed.
    ///
    /// It fails at once where another opening has the file, in this program or in another. A program
    /// that takes no lock is not held up.
    fn take_lock(&self) -> io::Result<()>;
}

impl LockFile for File {
    fn take_lock(&self) -> io::Result<()> {
        Ok(self.try_lock()?)
    }
}
