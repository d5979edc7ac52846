//! Calls of the top call.

use crate::answers::{Answer, line_sink, output_sink};
use bm_memrack::MemSink;
use bm_rack::{Rack, Source};
use bm_top::bmmc_top;
use std::alloc::Global;
use test_helpers::{bytes_source, text_source, words_of};

/// What a line of words says over these devices. Nothing where memory is refused.
pub fn said_over<R: Rack, J: Source, S: Source>(
    alloc: Global,
    line: &str,
    job: &mut J,
    input: &mut S,
    out: MemSink,
    rack: &mut R,
) -> Option<Answer> {
    let words = words_of(alloc, line).ok()?;
    let mut out = out;
    let mut err = line_sink(alloc)?;
    let status = bmmc_top(alloc, &words, job, input, &mut out, &mut err, rack);
    Some(Answer::of(status, out, err))
}

/// What a line of words says over this rack, with this job text and input, and room for 512 bytes of
/// output. Nothing where memory is refused.
pub fn said<R: Rack>(
    alloc: Global,
    line: &str,
    job: &str,
    input: &[u8],
    rack: &mut R,
) -> Option<Answer> {
    let mut job = text_source(alloc, job)?;
    let mut input = bytes_source(alloc, input)?;
    let out = output_sink(alloc, 512)?;
    said_over(alloc, line, &mut job, &mut input, out, rack)
}
