//! The call that does all that the program does.

ghost use Rattle.std.specs.Prelude.{◌≡◌, ◌≤◌, ◌++◌, Bool, IsTrue};
ghost use Rattle.bm_base.specs.Count.{Rose};
ghost use Rattle.bm_rack.specs.Sink.{AppendsFront};
ghost use Rattle.bm_top.specs.Moment.{source_of, sink_of, devices_of, moment_of, tells_of};
ghost use Rattle.bm_top.specs.StatusWords.{line_of};
ghost use Rattle.bm_top.specs.JobRead.{TakesShape};
ghost use Rattle.bm_top.specs.Task.{TaskFits};
ghost use Rattle.bm_top.specs.TopCall.{TaskCall, JobCall, TopCall};

use crate::Status;
use crate::answer_line::write_answer;
use crate::commands::carry::run_carry;
use crate::commands::detect::run_detect;
use crate::commands::drill::run_drill;
use crate::commands::drop::run_drop;
use crate::commands::dump::run_dump;
use crate::commands::flip::run_flip;
use crate::commands::load::run_load;
use crate::commands::new::run_new;
use crate::commands::plan::run_plan;
use crate::commands::run::run_run;
use crate::commands::status::tell_status;
use crate::job_reading::read_task;
use crate::task::Task;
use crate::words::{Command, Verb, command_of};
use bm_rack::{Rack, Sink, Source};
use std::alloc::Global;

// Carries out a command whose job is read.
fn run_task<R: Rack, S: Source, K: Sink>(
    alloc: Global,
    verb: Verb,
    task: Task,
    input: &mut S,
    out: &mut K,
    rack: &mut R,
) -> Status
    requires fits { TaskFits task }
    requires takes { TakesShape verb task.shape }
    ensures { (told : Bool) → TaskCall
        (tells_of told S.tells K.tells R.tells_stands R.tells_contents) verb task
        (devices_of (source_of (S.left input.old) (S.faults input.old))
        (sink_of (K.taken out.old) (K.faults out.old)) (R.view rack.old)) result
        (devices_of (source_of (S.left input.new) (S.faults input.new))
        (sink_of (K.taken out.new) (K.faults out.new)) (R.view rack.new)) }
{
    match verb {
        Verb::New => run_new(&task, rack),
        Verb::Load => run_load(alloc, &task, input, rack),
        Verb::Plan => run_plan(&task, out),
        Verb::Run => run_run(alloc, &task, out, rack),
        Verb::Status => tell_status(&task, out, rack),
        Verb::Dump => run_dump(alloc, &task, out, rack),
        Verb::Drop => run_drop(&task, rack),
        Verb::Detect => run_detect(alloc, &task, out, rack),
        Verb::Carry => run_carry(alloc, &task, input, out, rack),
        Verb::Drill => run_drill(alloc, task, out),
    }
}

// Carries out a command that has a job.
fn run_on_job<R: Rack, J: Source, S: Source, K: Sink>(
    alloc: Global,
    verb: Verb,
    job: &mut J,
    input: &mut S,
    out: &mut K,
    rack: &mut R,
) -> Status
    ensures { JobCall
        (tells_of J.tells S.tells K.tells R.tells_stands R.tells_contents) verb
        (moment_of (source_of (J.left job.old) (J.faults job.old))
        (devices_of (source_of (S.left input.old) (S.faults input.old))
        (sink_of (K.taken out.old) (K.faults out.old)) (R.view rack.old))) result
        (moment_of (source_of (J.left job.new) (J.faults job.new))
        (devices_of (source_of (S.left input.new) (S.faults input.new))
        (sink_of (K.taken out.new) (K.faults out.new)) (R.view rack.new))) }
{
    match read_task(alloc, verb, job) {
        Ok(task) => run_task(alloc, verb, task, input, out, rack),
        Err(status) => status,
    }
}

// Carries out the command that the words spell.
fn run_command<R: Rack, J: Source, S: Source, K: Sink>(
    alloc: Global,
    words: &[String],
    job: &mut J,
    input: &mut S,
    out: &mut K,
    rack: &mut R,
) -> Status
    ensures { TopCall
        (tells_of J.tells S.tells K.tells R.tells_stands R.tells_contents) words.now
        (moment_of (source_of (J.left job.old) (J.faults job.old))
        (devices_of (source_of (S.left input.old) (S.faults input.old))
        (sink_of (K.taken out.old) (K.faults out.old)) (R.view rack.old))) result
        (moment_of (source_of (J.left job.new) (J.faults job.new))
        (devices_of (source_of (S.left input.new) (S.faults input.new))
        (sink_of (K.taken out.new) (K.faults out.new)) (R.view rack.new))) }
{
    match command_of(words) {
        Some(Command::Flip(flip)) => run_flip(alloc, &flip, input, out, rack),
        Some(Command::On(verb)) => run_on_job(alloc, verb, job, input, out, rack),
        None => Status::Usage,
    }
}

/// Carries out the command that the words spell, and writes the line of its answer to `err`.
///
/// The words are `flip n b d m width c`, or `new`, `load`, `plan`, `run`, `status`, `dump`, `drop`,
/// `detect`, `carry` or `drill` and any word that names the job. Every command but `flip` first reads
/// the job source, up to 65537 bytes of it. The refusals up to there come in this order: `Usage`;
/// `JobFault`; `JobText`, for a text of 65537 bytes and more too; `JobField`; `JobShape`, in `drill`
/// with rule 8 for an input of more than 2^26 bytes; `JobMap`, in `detect` first for a width other
/// than 8. A flip goes from `Usage` to `JobShape`. Then the plan and the buffers are made, and the disks attached or made:
/// `RackFault`, `OutOfMemory`, and `NoDisks`, `WrongDims` or `Exists`.
///
/// - `new` makes the disks of the shape. `drop` closes the job that is open, else `NoJob`.
/// - `plan` writes the steps of the job's plan, and touches no disks.
/// - `load` reads the records of the input: `DataFault`, `DataShort` or `DataLong` as they are met.
/// - `run` does the job, or goes on with it: `NotLoaded`, `OtherShape`, `OtherJob`, `BadPage`.
/// - `status` tells how far the open job is, and `dump` writes its records once it is done: as `run`,
///   and `NoJob`, `NotDone`.
/// - `detect` writes a job text of the affine permutation whose images the records of the input are:
///   `BadPage`, `NotLoaded`, `OtherShape`, `OutOfRange`, `NotAffine`, `NotPermutation`.
/// - `carry` and `flip` make the disks, load, run and dump.
/// - `drill` does the job to generated records, on disks in memory that are stopped where the job
///   text says so, and writes what came out of it. It touches no other disks.
///
/// `RackFault` and `SinkFault` come as they are met. No memory is asked for once the disks are
/// attached. A write to `err` that fails ends that line, and changes nothing else.
pub fn bmmc_top<R: Rack, J: Source, S: Source, K: Sink, E: Sink>(
    alloc: Global,
    words: &[String],
    job: &mut J,
    input: &mut S,
    out: &mut K,
    err: &mut E,
    rack: &mut R,
) -> Status
    ensures call { TopCall
        (tells_of J.tells S.tells K.tells R.tells_stands R.tells_contents) words.now
        (moment_of (source_of (J.left job.old) (J.faults job.old))
        (devices_of (source_of (S.left input.old) (S.faults input.old))
        (sink_of (K.taken out.old) (K.faults out.old)) (R.view rack.old))) result
        (moment_of (source_of (J.left job.new) (J.faults job.new))
        (devices_of (source_of (S.left input.new) (S.faults input.new))
        (sink_of (K.taken out.new) (K.faults out.new)) (R.view rack.new))) }

    // the last line
    ensures line { IsTrue E.tells → ¬ Rose (E.faults err.old) (E.faults err.new)
        → E.taken err.new ≡ E.taken err.old ++ line_of result }
    ensures front { IsTrue E.tells → AppendsFront (E.taken err.old) (E.taken err.new) (line_of result) }
    ensures faults { E.faults err.old ≤ E.faults err.new }
{
    let status = run_command(alloc, words, job, input, out, rack);
    write_answer(err, &status);
    status
}
