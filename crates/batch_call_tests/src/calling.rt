//! Calls of a batch from a line of words.

ghost use Rattle.std.specs.Prelude.{◌≡◌, IsTrue, length};
ghost use Rattle.bm_batch_call.specs.Words.{AreEnough};

use bm_batch_call::{batch_jobs, batch_top};
use bm_memrack::SureSource;
use bm_rack::{Rack, Source};
use call_helpers::{Answer, line_sink, output_sink};
use std::alloc::Global;
use test_helpers::{GRAY, IDENTITY, REVERSAL, text_source, words_of};

/// The three jobs of a batch.
pub const THREE: [&str; 3] = [REVERSAL, GRAY, IDENTITY];

// Job texts as sources.
fn sources_of(alloc: Global, texts: &[&str]) -> Option<Vec<SureSource>> {
    let mut sources = Vec::new(alloc);
    for text in texts {
        sources.push(text_source(alloc, text)?).ok()?;
    }
    Some(sources)
}

/// Whether there are as many job sources and bays as the words name jobs, where they are a batch's.
pub fn is_enough(words: &[String], jobs: usize, bays: usize) -> bool
    ensures { IsTrue result → AreEnough words.now jobs bays }
{
    match batch_jobs(words) {
        Some(names) => names.len() == jobs && names.len() == bays,
        None => true,
    }
}

/// The input of three bays: the bytes 0 to 15 three times, and this many more or fewer.
pub fn three_inputs(alloc: Global, size: usize) -> Option<Vec<u8>> {
    let mut bytes = Vec::new(alloc);
    for i in 0..size {
        bytes.push((i % 16) as u8).ok()?;
    }
    Some(bytes)
}

// What these words say over these devices, where there are as many as they name.
fn answered<Y: Rack, J: Source, S: Source>(
    alloc: Global,
    words: &[String],
    jobs: &mut [J],
    input: &mut S,
    bays: &mut [Y],
) -> Option<Answer> {
    let mut out = output_sink(alloc, 512)?;
    let mut err = line_sink(alloc)?;
    if !is_enough(words, jobs.len(), bays.len()) {
        return None;
    }
    let status = batch_top(alloc, words, jobs, input, &mut out, &mut err, bays);
    Some(Answer::of(status, out, err))
}

/// What a line of words says over these devices. Nothing where memory is refused, or where there
/// are not as many texts and bays as the words name jobs.
pub fn said_over<Y: Rack, S: Source>(
    alloc: Global,
    line: &str,
    texts: &[&str],
    input: &mut S,
    bays: &mut [Y],
) -> Option<Answer> {
    let words = words_of(alloc, line).ok()?;
    let mut jobs = sources_of(alloc, texts)?;
    answered(alloc, &words, &mut jobs, input, bays)
}

/// What a line of words says of this input.
pub fn said<Y: Rack>(
    alloc: Global,
    line: &str,
    texts: &[&str],
    size: usize,
    bays: &mut [Y],
) -> Option<Answer> {
    let mut input = SureSource::new(three_inputs(alloc, size)?);
    said_over(alloc, line, texts, &mut input, bays)
}
