//! The call that carries out a batch, with a job file and a bay for each word that names a job.

ghost use Rattle.std.specs.Prelude.{◌≡◌, ◌≤◌, ◌++◌, Err, IfOk, IsErr, IsTrue, length};
ghost use Rattle.bm_base.specs.Count.{Rose};
ghost use Rattle.bm_batch_call.specs.Words.{AreEnough};
ghost use Rattle.bm_program.specs.BatchOverFiles.{CallsBatch};
ghost use Rattle.bm_rack.specs.Sink.{AppendsFront};
ghost use Rattle.bm_top.specs.Moment.{source_of, sink_of};
ghost use Rattle.bm_top.specs.StatusWords.{line_of};

use crate::start_error::StartError;
use bm_base::OutOfMemory;
use bm_batch_call::{batch_jobs, batch_top};
use bm_filerack::{FileRack, FileSource, LockFile};
use bm_rack::{Sink, Source};
use bm_top::Status;
use std::alloc::Global;
use std::os::unix::fs::FileExt;
use std::rt::Files;

// The words that name jobs, or none where the words are no batch's.
fn job_names(words: &[String]) -> &[String]
    ensures enough { AreEnough words.now (length result.now) (length result.now) }
    ensures few { length result.now ≤ 64 }
{
    match batch_jobs(words) {
        Some(names) => names,
        None => &[],
    }
}

// The first so many bays of the current folder, with nothing attached.
fn first_bays<'a, F: Files>(
    rt: &'a F,
    alloc: Global,
    count: usize,
) -> Result<Vec<FileRack<'a, F>>, OutOfMemory>
    requires { count ≤ 64 }
    ensures { IfOk result (λ bays. length bays.items ≡ count) }
{
    let Ok(mut bays) = Vec::with_capacity(alloc, count) else {
        return Err(OutOfMemory);
    };
    for number in 0..count {
        let bay = FileRack::bay(rt, alloc, number as u16)?;
        bays.push_reserved(bay);
    }
    Ok(bays)
}

// The files of these paths, opened in order. None is opened where memory is refused.
fn job_files<F: Files>(
    rt: &F,
    alloc: Global,
    paths: &[String],
) -> Result<Vec<FileSource<F>>, OutOfMemory>
    ensures { IfOk result (λ files. length files.items ≡ length paths.now) }
{
    let Ok(mut files) = Vec::with_capacity(alloc, paths.len()) else {
        return Err(OutOfMemory);
    };
    for path in paths {
        files.push_reserved(FileSource::new(rt, path.as_str()));
    }
    Ok(files)
}

/// Opens the job files that the words name, and carries out the batch with them, over as many bays of
/// the current folder. No file is opened where the words are no batch's.
///
/// Nothing is opened, read or written where memory for the bays or the job files is refused.
pub fn call_batch<F, S: Source, K: Sink, E: Sink>(
    rt: &F,
    words: &[String],
    input: &mut S,
    out: &mut K,
    err: &mut E,
) -> Result<Status, StartError>
where
    F: Files + AllocGlobal,
    F::File: FileExt + LockFile,
    ensures call { IfOk result (λ status. CallsBatch S.tells K.tells words.now
        (source_of (S.left input.old) (S.faults input.old))
        (sink_of (K.taken out.old) (K.faults out.old)) status
        (source_of (S.left input.new) (S.faults input.new))
        (sink_of (K.taken out.new) (K.faults out.new))) }
    ensures line { IfOk result (λ status. IsTrue E.tells
        → ¬ Rose (E.faults err.old) (E.faults err.new)
        → E.taken err.new ≡ E.taken err.old ++ line_of status) }
    ensures front { IfOk result (λ status. IsTrue E.tells
        → AppendsFront (E.taken err.old) (E.taken err.new) (line_of status)) }
    ensures memory { IsErr result → result ≡ Err StartError.OutOfMemory }
    ensures untouched { IsErr result
        → (input.new ≡ input.old) × (out.new ≡ out.old) × (err.new ≡ err.old) }
{
    let alloc = rt.alloc();
    let names = job_names(words);
    let Ok(mut bays) = first_bays(rt, alloc, names.len()) else {
        return Err(StartError::OutOfMemory);
    };
    let Ok(mut jobs) = job_files(rt, alloc, names) else {
        return Err(StartError::OutOfMemory);
    };
    Ok(batch_top(alloc, words, &mut jobs, input, out, err, &mut bays))
}
