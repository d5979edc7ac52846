//! A file that is synced only where it was written.

ghost use Rattle.std.specs.Prelude.{◌≡◌, ◌*◌, ◌^◌, ◌<◌, true, false, length, OnOk, OnErr};

use std::fs::OpenFile;
use std::io;
use std::os::unix::fs::FileExt;

/// An open file of units of one size, and whether it was written since its last sync that succeeded.
#[derive(Drop)]
pub struct SyncedFile<T: OpenFile + Drop> {
    file: T,
    is_written: bool,
}

impl<T: OpenFile + Drop> SyncedFile<T> {
    /// The file as one that was written: its first sync makes durable what an earlier program wrote.
    pub fn new(file: T) -> SyncedFile<T>
        ensures written { result.is_written ≡ true }
    {
        SyncedFile {
            file,
            is_written: true,
        }
    }

    /// Makes durable the bytes that were written. The length of the file never changes.
    pub fn sync(&mut self) -> io::Result<()>
        ensures synced { OnOk result (self.new.is_written ≡ false) }
        ensures failed { OnErr result (self.new.is_written ≡ self.old.is_written) }
    {
        if self.is_written {
            self.file.sync_data()?;
            self.is_written = false;
        }
        Ok(())
    }
}

impl<T: OpenFile + FileExt + Drop> SyncedFile<T> {
    /// Reads the unit of that number, which is as long as the bytes.
    pub fn read_unit(&self, unit: u64, bytes: &mut [u8]) -> io::Result<()>
        requires { unit * length bytes.old < 2 ^ 63 }
        ensures { length bytes.new ≡ length bytes.old }
    {
        self.file.read_exact_at(bytes, unit * bytes.len() as u64)
    }

    /// Writes the unit of that number, which is as long as the bytes.
    pub fn write_unit(&mut self, unit: u64, bytes: &[u8]) -> io::Result<()>
        requires { unit * length bytes.now < 2 ^ 63 }
        ensures written { self.new.is_written ≡ true }
    {
        self.is_written = true;
        self.file.write_all_at(bytes, unit * bytes.len() as u64)
    }
}
