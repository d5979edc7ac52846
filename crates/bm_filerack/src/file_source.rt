//! A file as a source.

ghost use Rattle.std.specs.Prelude.{◌≡◌, ◌<◌, ◌≤◌, ◌^◌, ℕ, false, [], None, length, IsOk, IsErr};
ghost use Rattle.bm_base.specs.Count.{Rose};
ghost use Rattle.bm_rack.specs.Source.{SourceRead};

use crate::fault_count::fault;
use bm_base::Failed;
use bm_rack::Source;
use std::fs::File;
use std::io::Read;
use std::rt::Files;

/// The file of a path as a source. No contract sees what it holds.
///
/// Every read of one that could not be opened fails.
#[derive(Drop)]
pub struct FileSource<F: Files> {
    file: Option<F::File>,
    faults: u64,
    ghost faults_fit: { faults < 2 ^ 64 },
}

impl<F: Files> FileSource<F> {
    /// Opens the file of the path for reading.
    pub fn new(rt: &F, path: &str) -> FileSource<F>
        ensures faults { result.faults ≡ 0 }
    {
        FileSource {
            file: File::open(rt, path).ok(),
            faults: 0,
        }
    }
}

impl<F: Files> Source for FileSource<F> {
    ghost tells = { false };

    ghost left = { λ _. [] };

    ghost faults = { λ source. source.faults };

    ghost counted = { λ source. source.faults_fit };

    fn read(&mut self, into: &mut [u8]) -> Result<usize, Failed>
        ensures read { SourceRead false [] (length into.old) result into.new [] }
        ensures faults { self.old.faults ≤ self.new.faults }
        ensures quiet { IsOk result → self.new.faults ≡ self.old.faults }
        ensures cause { IsErr result → Rose self.old.faults self.new.faults }
        ensures missing { self.old.file ≡ None → IsErr result }
        ensures still_missing { self.old.file ≡ None → self.new.file ≡ None }
    {
        let read = match &mut self.file {
            Some(file) => file.read(into).ok(),
            None => None,
        };
        match read {
            Some(count) => Ok(count),
            None => fault(&mut self.faults),
        }
    }
}
