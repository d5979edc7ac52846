//! Readers and writers of std as a source and a sink.

ghost use Rattle.std.specs.Prelude.{◌≡◌, ◌<◌, ◌^◌, false, []};

use crate::fault_count::fault;
use bm_base::Failed;
use bm_rack::{Sink, Source};
use std::io::{Read, Write};

/// A reader of std as a source. No contract sees what it gives.
///
/// Every error of the reader is a fault, also an interrupted read.
#[derive(Drop)]
pub struct StdSource<T: Read + Drop> {
    reader: T,
    faults: u64,
    ghost faults_fit: { faults < 2 ^ 64 },
}

impl<T: Read + Drop> StdSource<T> {
    /// The reader as a source that has not failed yet.
    pub fn new(reader: T) -> StdSource<T>
        ensures reader { result.reader ≡ reader }
        ensures faults { result.faults ≡ 0 }
    {
        StdSource { reader, faults: 0 }
    }
}

impl<T: Read + Drop> Source for StdSource<T> {
    ghost tells = { false };

    ghost left = { λ _. [] };

    ghost faults = { λ source. source.faults };

    ghost counted = { λ source. source.faults_fit };

    fn read(&mut self, into: &mut [u8]) -> Result<usize, Failed> {
        match self.reader.read(into) {
            Ok(count) => Ok(count),
            Err(_) => fault(&mut self.faults),
        }
    }
}

/// A writer of std as a sink. No contract sees what it took.
///
/// Each write is flushed, and bytes count as taken once that has succeeded. A write fails where the
/// writer fails, where it takes nothing, and where the flush fails. How many of the bytes went out
/// is not known then, so the sink is to be given no more of them.
#[derive(Drop)]
pub struct StdSink<T: Write + Drop> {
    writer: T,
    faults: u64,
    ghost faults_fit: { faults < 2 ^ 64 },
}

impl<T: Write + Drop> StdSink<T> {
    /// The writer as a sink that has not failed yet.
    pub fn new(writer: T) -> StdSink<T>
        ensures writer { result.writer ≡ writer }
        ensures faults { result.faults ≡ 0 }
    {
        StdSink { writer, faults: 0 }
    }
}

impl<T: Write + Drop> Sink for StdSink<T> {
    ghost tells = { false };

    ghost taken = { λ _. [] };

    ghost faults = { λ sink. sink.faults };

    ghost counted = { λ sink. sink.faults_fit };

    fn write(&mut self, bytes: &[u8]) -> Result<usize, Failed> {
        let count = self.writer.write(bytes).unwrap_or(0);
        if count == 0 || self.writer.flush().is_err() {
            return fault(&mut self.faults);
        }
        Ok(count)
    }
}
