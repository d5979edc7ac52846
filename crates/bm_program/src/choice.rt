//! Which call the program makes.

ghost use Rattle.std.specs.Prelude.{◌≡◌, Err, IfOk, IsErr};
ghost use Rattle.bm_program.specs.Choice.{Chooses, CallsChosen};
ghost use Rattle.bm_top.specs.Moment.{source_of, sink_of};

use crate::batch::call_batch;
use crate::one_job::{OneJob, call_one};
use crate::start_error::StartError;
use bm_batch_call::begins_batch;
use bm_filerack::LockFile;
use bm_kind_call::is_kind_word;
use bm_mirror_call::is_mirror_word;
use bm_rack::{Sink, Source};
use bm_top::Status;
use std::os::unix::fs::FileExt;
use std::rt::Files;

/// The calls that the program makes.
#[derive(Clone, Copy, Debug, PartialEq, Eq)]
pub enum Choice {
    /// Several jobs in turn, of the words `batch` and `batch-run`.
    Batch,
    /// One job: over a mirror of the word `mirror`, a transform of the word `kind`, and a command of
    /// all other words.
    One(OneJob),
}

/// The call that a first word chooses.
pub fn choice_by_word(word: &str) -> Choice
    ensures { Chooses word.now result }
{
    if begins_batch(word) {
        Choice::Batch
    } else if is_mirror_word(word) {
        Choice::One(OneJob::Mirror)
    } else if is_kind_word(word) {
        Choice::One(OneJob::Transform)
    } else {
        Choice::One(OneJob::Command)
    }
}

/// Makes the call of this choice with all words and these streams.
pub fn call_chosen<F, S: Source, K: Sink, E: Sink>(
    rt: &F,
    choice: Choice,
    words: &[String],
    input: &mut S,
    out: &mut K,
    err: &mut E,
) -> Result<Status, StartError>
where
    F: Files + AllocGlobal,
    F::File: FileExt + LockFile,
    ensures call { IfOk result (λ status. CallsChosen choice S.tells K.tells words.now
        (source_of (S.left input.old) (S.faults input.old))
        (sink_of (K.taken out.old) (K.faults out.old)) status
        (source_of (S.left input.new) (S.faults input.new))
        (sink_of (K.taken out.new) (K.faults out.new))) }
    ensures memory { IsErr result → result ≡ Err StartError.OutOfMemory }
    ensures untouched { IsErr result
        → (input.new ≡ input.old) × (out.new ≡ out.old) × (err.new ≡ err.old) }
{
    match choice {
        Choice::Batch => call_batch(rt, words, input, out, err),
        Choice::One(call) => call_one(rt, call, words, input, out, err),
    }
}
