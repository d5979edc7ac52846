//! A rack over files.

ghost use Rattle.std.specs.Prelude.{◌≡◌, ◌^◌, ◌<◌, ◌≤◌, ◌↔◌, ◌++◌, false, None, codes, IfOk, option_map, IsTrue, IsOk, IsErr};
ghost use Rattle.std.specs.String.{string_bytes};
ghost use Rattle.bm_base.specs.Count.{Rose};
ghost use Rattle.bm_filerack.specs.FileNames.{bay_front};

use crate::disk_files::DiskFiles;
use crate::fault_count::{count_fault, fault};
use crate::file_error::FileError;
use crate::file_lock::LockFile;
use crate::file_path::{bay_front, front_in};
use crate::folder::Folder;
use bm_base::{Dims, Failed, OutOfMemory, PAGE_BYTES};
use bm_rack::{AttachError, CreateError, Found, Rack};
use std::alloc::Global;
use std::os::unix::fs::FileExt;
use std::rt::Files;

/// A rack of files: the slate, and a file for each disk. No contract sees what they hold.
///
/// The slate is the file `bmmc-slate`, disk k the file `bmmc-disk-kk` with two decimal digits. Each
/// may be a symbolic link to a file elsewhere. A call may fail at any time.
///
/// An attach takes a lock on the slate, which lasts until the rack is attached anew or let go: while
/// another rack holds it, in this program or another, an attach fails.
#[derive(Drop)]
pub struct FileRack<'a, F: Files> {
    folder: Folder<'a, F>,
    files: Option<DiskFiles<F>>,
    faults: u64,
    moves: u64,
    pages: u64,
    syncs: u64,
    ghost faults_fit: { faults < 2 ^ 64 },
    ghost moves_fit: { moves < 2 ^ 64 },
    ghost pages_fit: { pages < 2 ^ 64 },
    ghost syncs_fit: { syncs < 2 ^ 64 },
}

impl<'a, F: Files> FileRack<'a, F> {
    /// The rack of the current folder, with nothing attached.
    pub fn new(rt: &'a F, alloc: Global) -> Result<FileRack<'a, F>, OutOfMemory>
        ensures folder { IfOk result (λ rack. string_bytes rack.folder.folder ≡ codes ".") }
        ensures front { IfOk result (λ rack. string_bytes rack.folder.path.front ≡ codes "bmmc-") }
        ensures attached { IfOk result (λ rack. rack.files ≡ None) }
        ensures counts { IfOk result (λ rack.
            (rack.faults ≡ 0) × (rack.moves ≡ 0) × (rack.pages ≡ 0) × (rack.syncs ≡ 0)) }
    {
        match Folder::new(rt, alloc, ".", "bmmc-") {
            Ok(folder) => Ok(FileRack::over(folder)),
            Err(_) => Err(OutOfMemory),
        }
    }

    /// The rack of this folder, which has to be there, with nothing attached.
    pub fn at(rt: &'a F, alloc: Global, folder: &str) -> Result<FileRack<'a, F>, OutOfMemory>
        ensures folder { IfOk result (λ rack. string_bytes rack.folder.folder ≡ folder.now) }
        ensures front { IfOk result (λ rack. string_bytes rack.folder.path.front ≡ folder.now ++ codes "/bmmc-") }
        ensures attached { IfOk result (λ rack. rack.files ≡ None) }
        ensures counts { IfOk result (λ rack.
            (rack.faults ≡ 0) × (rack.moves ≡ 0) × (rack.pages ≡ 0) × (rack.syncs ≡ 0)) }
    {
        let Ok(front) = front_in(alloc, folder) else {
            return Err(OutOfMemory);
        };
        match Folder::new(rt, alloc, folder, front.as_str()) {
            Ok(folder) => Ok(FileRack::over(folder)),
            Err(_) => Err(OutOfMemory),
        }
    }

    /// The rack of a bay of several jobs, below 64, in the current folder, with nothing attached. Its
    /// files' names begin with `bmmc-bay-nn-`, where nn is the bay in two decimal digits.
    pub fn bay(rt: &'a F, alloc: Global, number: u16) -> Result<FileRack<'a, F>, OutOfMemory>
        requires { number < 64 }
        ensures folder { IfOk result (λ rack. string_bytes rack.folder.folder ≡ codes ".") }
        ensures front { IfOk result (λ rack. string_bytes rack.folder.path.front ≡ bay_front number) }
        ensures attached { IfOk result (λ rack. rack.files ≡ None) }
        ensures counts { IfOk result (λ rack.
            (rack.faults ≡ 0) × (rack.moves ≡ 0) × (rack.pages ≡ 0) × (rack.syncs ≡ 0)) }
    {
        let Ok(front) = bay_front(alloc, number) else {
            return Err(OutOfMemory);
        };
        match Folder::new(rt, alloc, ".", front.as_str()) {
            Ok(folder) => Ok(FileRack::over(folder)),
            Err(_) => Err(OutOfMemory),
        }
    }

    // The rack of these files, with nothing attached.
    fn over(folder: Folder<'a, F>) -> FileRack<'a, F>
        ensures folder { result.folder ≡ folder.entry }
        ensures attached { result.files ≡ None }
        ensures counts { (result.faults ≡ 0) × (result.moves ≡ 0) × (result.pages ≡ 0) × (result.syncs ≡ 0) }
    {
        FileRack {
            folder,
            files: None,
            faults: 0,
            moves: 0,
            pages: 0,
            syncs: 0,
        }
    }

    // The answer of a call on the open files, which counts a fault where it was not done.
    fn settle(&mut self, done: bool) -> Result<(), Failed>
        ensures files { self.new.files ≡ self.old.files }
        ensures faults { self.old.faults ≤ self.new.faults }
        ensures done { IsOk result ↔ IsTrue done }
        ensures cause { IsErr result → Rose self.old.faults self.new.faults }
        ensures moves { self.new.moves ≡ self.old.moves }
        ensures pages { self.new.pages ≡ self.old.pages }
        ensures syncs { self.new.syncs ≡ self.old.syncs }
    {
        if done {
            Ok(())
        } else {
            fault(&mut self.faults)
        }
    }
}

impl<'a, F: Files> Rack for FileRack<'a, F>
where
    F::File: FileExt + LockFile,
{
    ghost use Rattle.bm_rack.specs.Untold.{untold_view};
    ghost use Rattle.bm_filerack.specs.FileRack.{untold_is_consistent};

    ghost tells_stands = { false };

    ghost tells_contents = { false };

    ghost view = { λ r. untold_view (option_map (λ files. files.dims) r.files) r.faults r.moves r.pages r.syncs };

    ghost consistent = { λ r. untold_is_consistent _ _ _ _ _ r.faults_fit r.moves_fit r.pages_fit r.syncs_fit };

    fn attach(&mut self, dims: &Dims) -> Result<Found, AttachError> {
        self.files = None;
        let found = match self.folder.what_stands(dims) {
            Ok(Found::Ready) => self.folder.open_files(dims),
            Ok(found) => return Ok(found),
            Err(error) => Err(error),
        };
        match found {
            Ok(files) => {
                self.files = Some(files);
                Ok(Found::Ready)
            }
            Err(FileError::OutOfMemory) => Err(AttachError::OutOfMemory),
            Err(_) => {
                count_fault(&mut self.faults);
                Err(AttachError::Failed)
            }
        }
    }

    fn create(&mut self, dims: &Dims) -> Result<(), CreateError> {
        self.files = None;
        let made = match self.folder.what_stands(dims) {
            Ok(Found::Absent) => self.folder.create_files(dims),
            Ok(_) => return Err(CreateError::Present),
            Err(error) => Err(error),
        };
        match made {
            Ok(()) => Ok(()),
            Err(FileError::OutOfMemory) => Err(CreateError::OutOfMemory),
            Err(FileError::Taken) => Err(CreateError::Present),
            Err(FileError::Failed) => {
                count_fault(&mut self.faults);
                Err(CreateError::Failed)
            }
        }
    }

    fn read_row(&mut self, places: &[Option<u64>], bytes: &mut [u8]) -> Result<(), Failed> {
        self.moves = self.moves.saturating_add(1);
        let done = match &self.files {
            Some(files) => files.read_row(places, bytes).is_ok(),
            None => unreachable!(),
        };
        self.settle(done)
    }

    fn write_row(&mut self, places: &[Option<u64>], bytes: &[u8]) -> Result<(), Failed> {
        self.moves = self.moves.saturating_add(1);
        let done = match &mut self.files {
            Some(files) => files.write_row(places, bytes).is_ok(),
            None => unreachable!(),
        };
        self.settle(done)
    }

    fn read_page(&mut self, page: u16, bytes: &mut [u8; PAGE_BYTES]) -> Result<(), Failed> {
        self.pages = self.pages.saturating_add(1);
        let done = match &self.files {
            Some(files) => files.read_page(page, bytes).is_ok(),
            None => unreachable!(),
        };
        self.settle(done)
    }

    fn write_page(&mut self, page: u16, bytes: &[u8; PAGE_BYTES]) -> Result<(), Failed> {
        self.pages = self.pages.saturating_add(1);
        let done = match &mut self.files {
            Some(files) => files.write_page(page, bytes).is_ok(),
            None => unreachable!(),
        };
        self.settle(done)
    }

    fn sync(&mut self) -> Result<(), Failed> {
        self.syncs = self.syncs.saturating_add(1);
        let done = match &mut self.files {
            Some(files) => files.sync().is_ok(),
            None => unreachable!(),
        };
        self.settle(done)
    }

    fn rows(&self) -> u64 {
        self.moves
    }
}
