//! The files of a rack in their folder: which of them stand, and how they are made and opened.

ghost use Rattle.std.specs.Prelude.{◌≡◌, ◌*◌, ◌^◌, ◌<◌, ◌≤◌, length, Ok, IfOk};
ghost use Rattle.std.specs.String.{string_bytes};

use crate::disk_files::DiskFiles;
use crate::file_error::FileError;
use crate::file_lengths::{disk_length, found, length_at, no_lengths};
use crate::file_lock::LockFile;
use crate::file_path::FilePath;
use crate::synced_file::SyncedFile;
use bm_base::{Dims, MOST_DISKS, SLATE_BYTES};
use bm_rack::Found;
use std::alloc::{AllocError, Global};
use std::fs::{File, OpenFile, OpenOptions};
use std::rt::Files;
use std::{fs, io};

/// Where the files of a rack lie.
#[derive(Drop)]
pub struct Folder<'a, F: Files> {
    rt: &'a F,
    alloc: Global,
    // The folder that holds the files.
    folder: String,
    // The path of the file that is spoken of.
    path: FilePath,
}

impl<'a, F: Files> Folder<'a, F> {
    /// The files in this folder whose paths begin so.
    pub fn new(
        rt: &'a F,
        alloc: Global,
        folder: &str,
        front: &str,
    ) -> Result<Folder<'a, F>, AllocError>
        ensures folder { IfOk result (λ made. string_bytes made.folder ≡ folder.now) }
        ensures front { IfOk result (λ made. string_bytes made.path.front ≡ front.now) }
    {
        let folder = String::from_str(alloc, folder)?;
        let path = FilePath::new(alloc, front)?;
        Ok(Folder {
            rt,
            alloc,
            folder,
            path,
        })
    }

    /// What stands, beside a rack of these sizes.
    pub fn what_stands(&mut self, dims: &Dims) -> Result<Found, FileError>
        ensures disks { result ≡ Ok Found.Ready → dims.now.disks ≤ 64 }
        ensures size { result ≡ Ok Found.Ready → dims.now.places * dims.now.block < 2 ^ 63 }
    {
        self.path.spell_slate();
        let slate = length_at(self.rt, self.path.as_str())?;
        let disks = self.disk_lengths()?;
        Ok(found(dims, slate, &disks))
    }

    // The lengths of the files that disks can have.
    fn disk_lengths(&mut self) -> io::Result<[Option<u64>; MOST_DISKS as usize]>
        ensures { IfOk result (λ lengths. length lengths ≡ 64) }
    {
        let mut lengths = no_lengths();
        for disk in 0..MOST_DISKS {
            self.path.spell_disk(disk);
            lengths[disk as usize] = length_at(self.rt, self.path.as_str())?;
        }
        Ok(lengths)
    }

    // Makes a disk's file.
    fn create_disk(&mut self, disk: u32, length: u64) -> io::Result<()>
        requires { disk < 64 }
    {
        self.path.spell_disk(disk);
        let file = create_file(self.rt, self.path.as_str())?;
        let made = set_length(&file, length);
        if made.is_err() {
            self.remove_disk(disk);
        }
        made
    }

    // Removes the file at the path. One that can't be removed stays.
    fn remove_file(&self) {
        let _ = fs::remove_file(self.rt, self.path.as_str());
    }

    // Removes a disk's file.
    fn remove_disk(&mut self, disk: u32)
        requires { disk < 64 }
    {
        self.path.spell_disk(disk);
        self.remove_file();
    }

    // Removes the files of the first disks, and makes it durable that they are gone.
    fn remove_disks(&mut self, count: u32)
        requires { count ≤ 64 }
    {
        for disk in 0..count {
            self.remove_disk(disk);
        }
        let _ = self.sync();
    }

    // Makes it durable which files the folder has.
    fn sync(&self) -> io::Result<()> {
        File::open(self.rt, self.folder.as_str())?.sync_all()
    }
}

impl<'a, F: Files> Folder<'a, F>
where
    F::File: LockFile,
{
    /// Opens the files of a rack of these sizes. Fails where another opening of the slate has the lock.
    pub fn open_files(&mut self, dims: &Dims) -> Result<DiskFiles<F>, FileError>
        requires size { dims.now.places * dims.now.block < 2 ^ 63 }
        requires disks { dims.now.disks ≤ 64 }
        ensures { IfOk result (λ files. files.dims ≡ dims.now) }
    {
        self.path.spell_slate();
        let slate = open_file(self.rt, self.path.as_str())?;
        slate.take_lock()?;
        let mut disks = Vec::new(self.alloc);
        for disk in 0..dims.disks {
            self.path.spell_disk(disk);
            let file = open_file(self.rt, self.path.as_str())?;
            if disks.push(SyncedFile::new(file)).is_err() {
                return Err(FileError::OutOfMemory);
            }
        }
        Ok(DiskFiles::new(dims, SyncedFile::new(slate), disks))
    }

    /// Makes the files of a rack of zeros, the slate last. Where it fails it removes what it made.
    ///
    /// It fails where there are more than 64 disks, or a disk is longer than a file can be.
    pub fn create_files(&mut self, dims: &Dims) -> Result<(), FileError> {
        let length = disk_length(dims).ok_or(FileError::Failed)?;
        if dims.disks > MOST_DISKS {
            return Err(FileError::Failed);
        }
        for disk in 0..dims.disks {
            if let Err(error) = self.create_disk(disk, length) {
                self.remove_disks(disk);
                return Err(FileError::from(error));
            }
        }
        self.create_slate(dims.disks)?;
        Ok(())
    }

    // Makes the slate's file over disks that are made. Where it fails it removes all of them.
    fn create_slate(&mut self, disks: u32) -> io::Result<()>
        requires { disks ≤ 64 }
    {
        self.path.spell_slate();
        let slate = match create_file(self.rt, self.path.as_str()) {
            Ok(slate) => slate,
            Err(error) => {
                self.remove_disks(disks);
                return Err(error);
            }
        };
        let made = self.fill_slate(&slate);
        if made.is_err() {
            // The lock keeps other programs out until all is gone.
            self.path.spell_slate();
            self.remove_file();
            self.remove_disks(disks);
        }
        made
    }

    // Gives the new slate its lock and its length.
    //
    // It gets the length last: where a rack stands, the names of its files are durable.
    fn fill_slate(&self, slate: &F::File) -> io::Result<()> {
        slate.take_lock()?;
        self.sync()?;
        set_length(slate, SLATE_BYTES as u64)
    }
}

// Opens a file for reading and writing.
fn open_file<F: Files>(rt: &F, path: &str) -> io::Result<F::File> {
    OpenOptions::new().read(true).write(true).open(rt, path)
}

// Makes a file where nothing is.
fn create_file<F: Files>(rt: &F, path: &str) -> io::Result<F::File> {
    OpenOptions::new()
        .read(true)
        .write(true)
        .create_new(true)
        .open(rt, path)
}

// Gives a new file its length, and makes that durable.
fn set_length<T: OpenFile>(file: &T, length: u64) -> io::Result<()> {
    file.set_len(length)?;
    file.sync_all()
}
