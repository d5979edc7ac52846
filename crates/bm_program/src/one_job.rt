//! The calls of one job, with its job file and over the files of the current folder.

ghost use Rattle.std.specs.Prelude.{◌≡◌, Err, IfOk, IsErr, IsTrue, None};
ghost use Rattle.bm_base.specs.Count.{Rose};
ghost use Rattle.bm_program.specs.Calls.{CallsOver, CallsWithJob, NamesNoJob, streams_tell, streams_of};
ghost use Rattle.bm_program.specs.Lines.{HasFronts, HasLines};
ghost use Rattle.bm_top.specs.Moment.{source_of, sink_of};

use crate::start_error::StartError;
use bm_filerack::{FileRack, FileSource, LockFile};
use bm_kind_call::{kind_job, kind_top};
use bm_memrack::SureSource;
use bm_mirror_call::{mirror_job, mirror_top};
use bm_rack::{Sink, Source};
use bm_top::{Status, bmmc_top, job_word};
use std::os::unix::fs::FileExt;
use std::rt::Files;

/// The calls that have one job.
#[derive(Clone, Copy, Debug, PartialEq, Eq)]
pub enum OneJob {
    /// A command, over the disks of the current folder.
    Command,
    /// A transform over chosen bits, over the same.
    Transform,
    /// A command over a mirror of the disks in the folders `left` and `right`.
    Mirror,
}

// The word that names the job of such a call.
fn name_of(call: OneJob, words: &[String]) -> Option<&str>
    ensures { result ≡ None → NamesNoJob call words.now }
{
    match call {
        OneJob::Command => job_word(words),
        OneJob::Transform => kind_job(words),
        OneJob::Mirror => mirror_job(words),
    }
}

// Makes the call with these sources and sinks.
//
// Nothing is read or written where memory for a rack is refused.
fn call_over<F, J: Source, S: Source, K: Sink, E: Sink>(
    rt: &F,
    call: OneJob,
    words: &[String],
    job: &mut J,
    input: &mut S,
    out: &mut K,
    err: &mut E,
) -> Result<Status, StartError>
where
    F: Files + AllocGlobal,
    F::File: FileExt + LockFile,
    ensures call { IfOk result (λ status. CallsOver call
        (streams_tell J.tells S.tells K.tells) words.now
        (streams_of (source_of (J.left job.old) (J.faults job.old))
        (source_of (S.left input.old) (S.faults input.old))
        (sink_of (K.taken out.old) (K.faults out.old))) status
        (streams_of (source_of (J.left job.new) (J.faults job.new))
        (source_of (S.left input.new) (S.faults input.new))
        (sink_of (K.taken out.new) (K.faults out.new)))) }
    ensures lines { IfOk result (λ status. IsTrue E.tells
        → ¬ Rose (E.faults err.old) (E.faults err.new)
        → HasLines call (E.taken err.old) status (E.taken err.new)) }
    ensures fronts { IfOk result (λ status. IsTrue E.tells
        → HasFronts call (E.taken err.old) status (E.taken err.new)) }
    ensures memory { IsErr result → result ≡ Err StartError.OutOfMemory }
    ensures untouched { IsErr result
        → (input.new ≡ input.old) × (out.new ≡ out.old) × (err.new ≡ err.old) }
{
    let alloc = rt.alloc();
    match call {
        OneJob::Command => {
            let mut rack = FileRack::new(rt, alloc)?;
            Ok(bmmc_top(alloc, words, job, input, out, err, &mut rack))
        }
        OneJob::Transform => {
            let mut rack = FileRack::new(rt, alloc)?;
            Ok(kind_top(alloc, words, job, input, out, err, &mut rack))
        }
        OneJob::Mirror => {
            let left = FileRack::at(rt, alloc, "left")?;
            let right = FileRack::at(rt, alloc, "right")?;
            let (status, _) = mirror_top(alloc, words, job, input, out, err, left, right);
            Ok(status)
        }
    }
}

/// Opens the job file that the words name, and makes the call with it and these streams.
///
/// The job source is one of no bytes where the words name none.
pub fn call_one<F, S: Source, K: Sink, E: Sink>(
    rt: &F,
    call: OneJob,
    words: &[String],
    input: &mut S,
    out: &mut K,
    err: &mut E,
) -> Result<Status, StartError>
where
    F: Files + AllocGlobal,
    F::File: FileExt + LockFile,
    ensures call { IfOk result (λ status. CallsWithJob call S.tells K.tells words.now
        (source_of (S.left input.old) (S.faults input.old))
        (sink_of (K.taken out.old) (K.faults out.old)) status
        (source_of (S.left input.new) (S.faults input.new))
        (sink_of (K.taken out.new) (K.faults out.new))) }
    ensures lines { IfOk result (λ status. IsTrue E.tells
        → ¬ Rose (E.faults err.old) (E.faults err.new)
        → HasLines call (E.taken err.old) status (E.taken err.new)) }
    ensures fronts { IfOk result (λ status. IsTrue E.tells
        → HasFronts call (E.taken err.old) status (E.taken err.new)) }
    ensures memory { IsErr result → result ≡ Err StartError.OutOfMemory }
    ensures untouched { IsErr result
        → (input.new ≡ input.old) × (out.new ≡ out.old) × (err.new ≡ err.old) }
{
    match name_of(call, words) {
        Some(path) => {
            let mut job = FileSource::new(rt, path);
            call_over(rt, call, words, &mut job, input, out, err)
        }
        None => {
            let mut empty = SureSource::new(Vec::new(rt.alloc()));
            call_over(rt, call, words, &mut empty, input, out, err)
        }
    }
}
