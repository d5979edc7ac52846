//! The words, the call that does all, and the exit status.

ghost use Rattle.std.specs.Prelude.{◌≡◌, Err, IfOk};
ghost use Rattle.bm_top.specs.Status.{code_of};

use crate::choice::{Choice, call_chosen, choice_by_word};
use crate::one_job::OneJob;
use crate::start_error::StartError;
use crate::streams::Stream;
use bm_filerack::{LockFile, StdSink, StdSource};
use bm_top::Status;
use std::env;
use std::env::Env;
use std::io::{Read, Write};
use std::os::unix::fs::FileExt;
use std::rt::Files;

/// Makes the call that the program's words spell, with its standard streams. The first word chooses
/// the call, and the call the disks.
///
/// Nothing is opened, read or written where a stream is closed or the words can't be had.
///
/// No contract sees the words of a runtime, nor what its streams hold. So no clause stands here: those
/// of `choice_by_word` and `call_chosen` say what is done with words and streams, and tests over real
/// files hold that these are the program's own.
pub fn run<R, I, O, E>(rt: &R, input: I, out: O, err: E) -> Result<Status, StartError>
where
    R: Env + Files + AllocGlobal,
    R::File: FileExt + LockFile,
    I: Read + Stream + Drop,
    O: Write + Stream + Drop,
    E: Write + Stream + Drop,
{
    if !(input.is_open() && out.is_open() && err.is_open()) {
        return Err(StartError::Unavailable);
    }
    let words: Vec<String> = env::args(rt)?.skip(1).collect(rt.alloc())?;
    let mut input = StdSource::new(input);
    let mut out = StdSink::new(out);
    let mut err = StdSink::new(err);
    let choice = match words.first() {
        Some(word) => choice_by_word(word.as_str()),
        None => Choice::One(OneJob::Command),
    };
    call_chosen::<R, StdSource<I>, StdSink<O>, StdSink<E>>(
        rt,
        choice,
        words.as_slice(),
        &mut input,
        &mut out,
        &mut err,
    )
}

/// The exit status of a program whose call ended so: the code of its status, or 1 where memory for
/// the words or the rack was refused, or 26 where a stream or the words could not be had.
pub fn exit_status(end: &Result<Status, StartError>) -> u8
    ensures called { IfOk end.now (λ status. result ≡ code_of status) }
    ensures memory { end.now ≡ Err StartError.OutOfMemory → result ≡ 1 }
    ensures unavailable { end.now ≡ Err StartError.Unavailable → result ≡ 26 }
{
    match end {
        Ok(status) => status.code(),
        Err(StartError::OutOfMemory) => 1,
        Err(StartError::Unavailable) => 26,
    }
}
