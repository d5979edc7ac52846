//! Calls over a mirror from a line of words.

use bm_memrack::MemSink;
use bm_mirror::Mirror;
use bm_mirror_call::mirror_top;
use bm_rack::{Rack, Sink, Source};
use bm_top::Status;
use call_helpers::{line_sink, output_sink};
use std::alloc::Global;
use test_helpers::{bytes_source, text_source, words_of};

/// What a command said over two racks: its status, its output, its lines on standard error, and the
/// racks.
#[derive(Drop)]
pub struct Answer<L: Rack, G: Rack> {
    pub status: Status,
    pub out: MemSink,
    pub err: MemSink,
    pub left: L,
    pub right: G,
}

// What these words say over these devices.
fn run_over<L: Rack, G: Rack, J: Source, S: Source, K: Sink, E: Sink>(
    alloc: Global,
    words: &[String],
    job: &mut J,
    input: &mut S,
    out: &mut K,
    err: &mut E,
    left: L,
    right: G,
) -> (Status, L, G) {
    let (status, mirror) = mirror_top(alloc, words, job, input, out, err, left, right);
    let (left, right) = mirror.parts();
    (status, left, right)
}

/// What a line of words says over these racks, with this job source, input and sink of lines.
/// Nothing where memory is refused.
pub fn said_over<L: Rack + Drop, G: Rack + Drop, J: Source, S: Source>(
    alloc: Global,
    line: &str,
    job: &mut J,
    input: &mut S,
    err: MemSink,
    left: L,
    right: G,
) -> Option<Answer<L, G>> {
    let words = words_of(alloc, line).ok()?;
    let mut out = output_sink(alloc, 512)?;
    let mut err = err;
    let (status, left, right) = run_over(
        alloc, &words, job, input, &mut out, &mut err, left, right,
    );
    Some(Answer {
        status,
        out,
        err,
        left,
        right,
    })
}

/// What a line of words says over these racks, with this job text and input. The lines are taken in
/// pieces of seven bytes. Nothing where memory is refused.
pub fn said<L: Rack + Drop, G: Rack + Drop>(
    alloc: Global,
    line: &str,
    job: &str,
    input: &[u8],
    left: L,
    right: G,
) -> Option<Answer<L, G>> {
    let mut job = text_source(alloc, job)?;
    let mut input = bytes_source(alloc, input)?;
    let err = line_sink(alloc)?;
    said_over(alloc, line, &mut job, &mut input, err, left, right)
}
