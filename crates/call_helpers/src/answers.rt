//! What a call said.

use bm_memrack::MemSink;
use bm_top::Status;
use std::alloc::Global;

/// What a call said: its status, the status's code, its output, and its lines on standard error.
#[derive(Drop)]
pub struct Answer {
    pub status: Status,
    pub code: u8,
    pub out: MemSink,
    pub err: MemSink,
}

impl Answer {
    /// The answer of this status, with what was written.
    pub fn of(status: Status, out: MemSink, err: MemSink) -> Answer {
        Answer {
            status,
            code: status.code(),
            out,
            err,
        }
    }

    /// Whether it has this code, this output and these lines.
    pub fn says(&self, code: u8, out: &[u8], lines: &str) -> bool {
        self.code == code && self.out.taken() == out && self.err.taken() == lines.as_bytes()
    }
}

/// A sink for so many bytes of output, which takes 64 in a write. Nothing where memory is refused.
pub fn output_sink(alloc: Global, room: usize) -> Option<MemSink> {
    MemSink::new(alloc, room, 64, Vec::new(alloc)).ok()
}

/// A sink for the lines on standard error, which takes seven bytes in a write. Nothing where memory is
/// refused.
pub fn line_sink(alloc: Global) -> Option<MemSink> {
    MemSink::new(alloc, 64, 7, Vec::new(alloc)).ok()
}
