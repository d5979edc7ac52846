//! Files of the system, with each call counted, the telling ones noted, and one or more of them
//! failing, or the disk full.

ghost use Rattle.std.specs.Io.{WritesAtMost};

use crate::call_notes::Notes;
use bm_filerack::LockFile;
use std::alloc::{Alloc, Allocator, Global};
use std::env::{Env, FillError};
use std::fs::{File, Metadata, OpenFile, OpenOptions};
use std::io;
use std::io::{ErrorKind, Read, Seek, SeekFrom, Write};
use std::os::unix::fs::FileExt;
use std::rt::Files;

/// The system's files, which note what is called, and the words of a program's call.
#[derive(Drop)]
pub struct Watched<'a> {
    rt: &'a HostRuntime,
    notes: &'a Notes,
    line: &'a str,
}

impl<'a> Watched<'a> {
    /// The files of this runtime, with no words.
    pub fn new(rt: &'a HostRuntime, notes: &'a Notes) -> Watched<'a> {
        Watched {
            rt,
            notes,
            line: "",
        }
    }

    /// The files of this runtime, and the words of a line with a space between them. The first is
    /// the program's name.
    pub fn called(rt: &'a HostRuntime, notes: &'a Notes, line: &'a str) -> Watched<'a> {
        Watched { rt, notes, line }
    }
}

impl<'a> Alloc for Watched<'a> {
    type A = Global;

    fn alloc(&self) -> Global {
        self.notes.alloc()
    }
}

impl<'a> Env for Watched<'a> {
    fn arg(&self, i: usize, buf: &mut [u8]) -> Result<usize, FillError> {
        match self.line.split(' ').nth(i) {
            Some(word) => fill(word, buf),
            None => Err(FillError::NotPresent),
        }
    }

    fn var(&self, _name: &str, _buf: &mut [u8]) -> Result<usize, FillError> {
        Err(FillError::NotPresent)
    }

    fn var_at(&self, _i: usize, _buf: &mut [u8]) -> Result<usize, FillError> {
        Err(FillError::NotPresent)
    }
}

// Puts a word at the start of the buffer.
fn fill(word: &str, buf: &mut [u8]) -> Result<usize, FillError>
    ensures { WritesAtMost result buf.new }
{
    let bytes = word.as_bytes();
    if bytes.len() > buf.len() {
        return Err(FillError::TooLong);
    }
    buf[..bytes.len()].copy_from_slice(bytes);
    Ok(bytes.len())
}

/// An open file, which notes what is called.
#[derive(Drop)]
pub struct WatchedFile<'a> {
    file: File,
    name: String,
    notes: &'a Notes,
}

impl<'a> Files for Watched<'a> {
    type File = WatchedFile<'a>;

    type Dir = File;

    fn open_file(&self, how: &OpenOptions, path: &str) -> io::Result<WatchedFile<'a>> {
        let alloc = self.notes.alloc();
        let name = String::from_str(alloc, path)?;
        if how.asks_create_new() {
            self.notes.note(format!(in alloc; "make {name}")?)?;
            self.notes.take_room()?;
        } else {
            self.notes.note(format!(in alloc; "open {name}")?)?;
        }
        let file = how.open(self.rt, path)?;
        Ok(WatchedFile {
            file,
            name,
            notes: self.notes,
        })
    }

    fn open_dir(&self, _path: &str) -> io::Result<File> {
        Err(io::Error::from(ErrorKind::Unsupported))
    }

    fn metadata(&self, path: &str) -> io::Result<Metadata> {
        self.notes.count()?;
        self.rt.metadata(path)
    }

    fn symlink_metadata(&self, path: &str) -> io::Result<Metadata> {
        self.notes.count()?;
        self.rt.symlink_metadata(path)
    }

    fn copy(&self, _from: &str, _to: &str) -> io::Result<u64> {
        Err(io::Error::from(ErrorKind::Unsupported))
    }

    fn rename(&self, _from: &str, _to: &str) -> io::Result<()> {
        Err(io::Error::from(ErrorKind::Unsupported))
    }

    fn remove_file(&self, path: &str) -> io::Result<()> {
        self.notes
            .note(format!(in self.notes.alloc(); "remove {path}")?)?;
        self.rt.remove_file(path)
    }

    fn create_dir(&self, _path: &str) -> io::Result<()> {
        Err(io::Error::from(ErrorKind::Unsupported))
    }

    fn remove_dir(&self, _path: &str) -> io::Result<()> {
        Err(io::Error::from(ErrorKind::Unsupported))
    }

    fn remove_dir_all<B: Allocator>(&self, _alloc: B, _path: &str) -> io::Result<()> {
        Err(io::Error::from(ErrorKind::Unsupported))
    }
}

impl<'a> WatchedFile<'a> {
    // Notes a call on the file.
    fn note(&self, call: &str) -> io::Result<()> {
        self.notes
            .note(format!(in self.notes.alloc(); "{call} {}", self.name)?)
    }

    // Notes a call on bytes of the file.
    fn note_bytes(&self, call: &str, offset: u64, length: usize) -> io::Result<()> {
        self.notes.note(format!(in self.notes.alloc(); "{call} {} {offset} {length}", self.name)?)
    }
}

impl<'a> Read for WatchedFile<'a> {
    fn read(&mut self, bytes: &mut [u8]) -> io::Result<usize> {
        self.file.read(bytes)
    }
}

impl<'a> Write for WatchedFile<'a> {
    fn write(&mut self, bytes: &[u8]) -> io::Result<usize> {
        self.notes.take_room()?;
        self.file.write(bytes)
    }

    fn flush(&mut self) -> io::Result<()> {
        Ok(())
    }
}

impl<'a> Seek for WatchedFile<'a> {
    fn seek(&mut self, to: SeekFrom) -> io::Result<u64> {
        self.file.seek(to)
    }
}

impl<'a> OpenFile for WatchedFile<'a> {
    fn metadata(&self) -> io::Result<Metadata> {
        self.file.metadata()
    }

    fn set_len(&self, size: u64) -> io::Result<()> {
        self.notes.note(format!(in self.notes.alloc(); "length {} {size}", self.name)?)?;
        self.notes.take_room()?;
        self.file.set_len(size)
    }

    fn sync_all(&self) -> io::Result<()> {
        self.note("sync")?;
        self.notes.take_room()?;
        if self.notes.passes_syncs() {
            self.file.sync_all()?;
        }
        Ok(())
    }

    fn sync_data(&self) -> io::Result<()> {
        self.note("data")?;
        self.notes.take_room()?;
        if self.notes.passes_syncs() {
            self.file.sync_data()?;
        }
        Ok(())
    }
}

impl<'a> FileExt for WatchedFile<'a> {
    fn read_at(&self, bytes: &mut [u8], offset: u64) -> io::Result<usize> {
        self.note_bytes("read", offset, bytes.len())?;
        self.file.read_at(bytes, offset)
    }

    fn write_at(&self, bytes: &[u8], offset: u64) -> io::Result<usize> {
        self.note_bytes("write", offset, bytes.len())?;
        if let Err(full) = self.notes.take_room() {
            let _ = self.file.write_at(&bytes[..bytes.len() / 2], offset)?;
            return Err(full);
        }
        self.file.write_at(bytes, offset)
    }
}

impl<'a> LockFile for WatchedFile<'a> {
    fn take_lock(&self) -> io::Result<()> {
        self.note("lock")?;
        self.file.take_lock()
    }
}
