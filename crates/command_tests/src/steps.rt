//! Rows of commands over one rack, and what each of them is to say.

use bm_rack::Rack;
use call_helpers::said;
use std::alloc::Global;
use test_helpers::{DONE, INPUT, REVERSAL};

/// A line of words, the text of its job and its input, and the status, the output and the line on
/// standard error that it is to have.
#[derive(Clone, Copy)]
pub struct Exchange {
    pub words: &'static str,
    pub job: &'static str,
    pub input: &'static [u8],
    pub code: u8,
    pub out: &'static [u8],
    pub err: &'static str,
}

/// A step without input.
pub const fn step(
    words: &'static str,
    job: &'static str,
    code: u8,
    out: &'static [u8],
    err: &'static str,
) -> Exchange {
    fed(words, job, &[], code, out, err)
}

/// A step that has input.
pub const fn fed(
    words: &'static str,
    job: &'static str,
    input: &'static [u8],
    code: u8,
    out: &'static [u8],
    err: &'static str,
) -> Exchange {
    Exchange {
        words,
        job,
        input,
        code,
        out,
        err,
    }
}

/// A step of the bit reversal that is done, and its output.
pub const fn done(words: &'static str, out: &'static [u8]) -> Exchange {
    step(words, REVERSAL, 0, out, DONE)
}

/// A step of the bit reversal that is not done, with its status and its line.
pub const fn refused(words: &'static str, code: u8, err: &'static str) -> Exchange {
    step(words, REVERSAL, code, &[], err)
}

/// A load of the bytes 0 to 15 for the bit reversal.
pub const fn loaded() -> Exchange {
    fed("load job", REVERSAL, INPUT, 0, &[], DONE)
}

/// A run of the bit reversal from its beginning.
pub const fn run_anew() -> Exchange {
    done("run job", b"passes 2\nbefore 0\nmoves 16\nbound 24\n")
}

/// A run of the bit reversal that finds both passes done.
pub const fn run_after_all() -> Exchange {
    done("run job", b"passes 2\nbefore 2\nmoves 0\nbound 24\n")
}

/// The number of the first step over one rack that does not say what it is to say, or for which
/// memory is refused.
pub fn first_wrong<R: Rack>(alloc: Global, steps: &[Exchange], rack: &mut R) -> Option<usize> {
    for (i, step) in steps.iter().enumerate() {
        let (words, job, input) = (step.words, step.job, step.input);
        let Some(said) = said(alloc, words, job, input, rack) else {
            return Some(i);
        };
        let out: &[u8] = step.out;
        if !said.says(step.code, out, step.err) {
            return Some(i);
        }
    }
    None
}
