//! Calls of a transform from a line of words.

use bm_kind_call::kind_top;
use bm_memrack::MemSink;
use bm_rack::{Rack, Source};
use call_helpers::{Answer, line_sink};
use std::alloc::Global;
use test_helpers::{bytes_source, text_source, words_of};

/// What a line of words says over these devices. Nothing where memory is refused.
pub fn said_over<R: Rack, J: Source, S: Source>(
    alloc: Global,
    line: &str,
    job: &mut J,
    input: &mut S,
    out: MemSink,
    rack: &mut R,
) -> Option<Answer> {
    let words = words_of(alloc, line).ok()?;
    let mut out = out;
    let mut err = line_sink(alloc)?;
    let status = kind_top(alloc, &words, job, input, &mut out, &mut err, rack);
    Some(Answer::of(status, out, err))
}

/// What a line of words says of this text and input, with room for so many bytes. Nothing where
/// memory is refused.
pub fn said<R: Rack>(
    alloc: Global,
    line: &str,
    text: &str,
    input: &[u8],
    room: usize,
    rack: &mut R,
) -> Option<Answer> {
    let mut job = text_source(alloc, text)?;
    let mut input = bytes_source(alloc, input)?;
    let out = MemSink::new(alloc, room, 1 << 10, Vec::new(alloc)).ok()?;
    said_over(alloc, line, &mut job, &mut input, out, rack)
}

/// Four numbers, two in memory, on one disk.
pub const FOUR: &str = "n = 2\nb = 0\nd = 0\nm = 1\nwidth = 8";
