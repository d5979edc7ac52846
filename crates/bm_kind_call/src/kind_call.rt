//! The call that carries out a transform over chosen bits.

ghost use Rattle.std.specs.Prelude.{◌≡◌, ◌≤◌, ◌++◌, Bool, IsTrue, Some, length};
ghost use Rattle.bm_base.specs.Count.{Rose};
ghost use Rattle.bm_base.specs.Shape.{dims_of};
ghost use Rattle.bm_bufs.specs.Bufs.{FitsShape};
ghost use Rattle.bm_rack.specs.Sink.{AppendsFront};
ghost use Rattle.bm_top.specs.Moment.{Devices, Tells, source_of, sink_of, devices_of};
ghost use Rattle.bm_top.specs.Moment.{moment_of, tells_of};
ghost use Rattle.bm_top.specs.StatusWords.{line_of};
ghost use Rattle.bm_top.specs.commands.Carry.{IsMadeFrom, IsLoadedFrom};
ghost use Rattle.bm_kind_call.specs.Exits.{KindCall, shape_task};
ghost use Rattle.bm_kind_call.specs.KindTop.{KindOnJob, KindTop};
ghost use Rattle.bm_kind_call.specs.Kinds.{walsh_passes};
ghost use Rattle.bm_kind_call.specs.Texts.{FileFits};

use crate::named_run::run_named;
use crate::text_reading::read_file;
use crate::words::kind_job;
use bm_base::area_of;
use bm_bufs::Bufs;
use bm_disks::{dump_records, load_records};
use bm_kindjob::{KindFile, KindPlan, kind_plan};
use bm_rack::{Rack, Sink, Source};
use bm_top::{Status, disks_status, dump_status, load_status, new_disks, write_answer};
use std::alloc::Global;

// Does the transform to records that were just loaded, and writes what it made of them.
fn kind_loaded<R: Rack, K: Sink>(
    file: &KindFile,
    plan: &KindPlan,
    bufs: &mut Bufs,
    out: &mut K,
    rack: &mut R,
) -> Status
    requires attached { (R.view rack.old).attached ≡ Some (dims_of file.now.shape) }
    requires file { FileFits file.now }
    requires plan { plan.now.shape ≡ file.now.shape }
    requires passes { length plan.now.forms ≡ walsh_passes file.now.shape }
    requires fits { FitsShape file.now.shape bufs.old }
    ensures { (t : Tells) (d : Devices) (old : Devices) → IsLoadedFrom
        (record t { out = K.tells; stands = R.tells_stands; contents = R.tells_contents })
        (shape_task file.now.shape) old
        (record d { out = sink_of (K.taken out.old) (K.faults out.old); rack = R.view rack.old })
        → KindCall
        (record t { out = K.tells; stands = R.tells_stands; contents = R.tells_contents })
        file.now old result
        (record d { out = sink_of (K.taken out.new) (K.faults out.new); rack = R.view rack.new }) }
{
    match run_named(rack, file, plan, bufs) {
        Ok(_) => match dump_records(rack, &file.shape, area_of(plan.len()), out, bufs) {
            Ok(()) => Status::Done,
            Err(error) => dump_status(error),
        },
        Err(_) => Status::RackFault,
    }
}

// Loads the input into disks that were just made, and goes on.
fn kind_attached<R: Rack, S: Source, K: Sink>(
    file: &KindFile,
    plan: &KindPlan,
    bufs: &mut Bufs,
    input: &mut S,
    out: &mut K,
    rack: &mut R,
) -> Status
    requires attached { (R.view rack.old).attached ≡ Some (dims_of file.now.shape) }
    requires file { FileFits file.now }
    requires plan { plan.now.shape ≡ file.now.shape }
    requires passes { length plan.now.forms ≡ walsh_passes file.now.shape }
    requires fits { FitsShape file.now.shape bufs.old }
    ensures { (t : Tells) (old : Devices) → IsMadeFrom
        (record t {
          input = S.tells;
          out = K.tells;
          stands = R.tells_stands;
          contents = R.tells_contents;
        })
        (shape_task file.now.shape) old
        (devices_of (source_of (S.left input.old) (S.faults input.old))
        (sink_of (K.taken out.old) (K.faults out.old)) (R.view rack.old))
        → KindCall
        (record t {
          input = S.tells;
          out = K.tells;
          stands = R.tells_stands;
          contents = R.tells_contents;
        })
        file.now old result
        (devices_of (source_of (S.left input.new) (S.faults input.new))
        (sink_of (K.taken out.new) (K.faults out.new)) (R.view rack.new)) }
{
    match load_records(rack, &file.shape, input, bufs) {
        Ok(()) => kind_loaded(file, plan, bufs, out, rack),
        Err(error) => load_status(error),
    }
}

// The transform of a file with its plan and buffers made. It takes no more memory once its disks
// are attached.
fn kind_on_disks<R: Rack, S: Source, K: Sink>(
    file: &KindFile,
    plan: &KindPlan,
    bufs: &mut Bufs,
    input: &mut S,
    out: &mut K,
    rack: &mut R,
) -> Status
    requires file { FileFits file.now }
    requires plan { plan.now.shape ≡ file.now.shape }
    requires passes { length plan.now.forms ≡ walsh_passes file.now.shape }
    requires fits { FitsShape file.now.shape bufs.old }
    ensures { (t : Tells) (d : Devices) → KindCall
        (record t {
          input = S.tells;
          out = K.tells;
          stands = R.tells_stands;
          contents = R.tells_contents;
        })
        file.now
        (record d {
          input = source_of (S.left input.old) (S.faults input.old);
          out = sink_of (K.taken out.old) (K.faults out.old);
          rack = R.view rack.old;
        }) result
        (record d {
          input = source_of (S.left input.new) (S.faults input.new);
          out = sink_of (K.taken out.new) (K.faults out.new);
          rack = R.view rack.new;
        }) }
{
    match new_disks(rack, &file.shape.dims()) {
        Ok(()) => kind_attached(file, plan, bufs, input, out, rack),
        Err(error) => disks_status(error),
    }
}

// Makes the plan and the buffers of a file, then the disks, and carries it out.
fn run_file<R: Rack, S: Source, K: Sink>(
    alloc: Global,
    file: &KindFile,
    input: &mut S,
    out: &mut K,
    rack: &mut R,
) -> Status
    requires { FileFits file.now }
    ensures { (told : Bool) → KindCall
        (tells_of told S.tells K.tells R.tells_stands R.tells_contents) file.now
        (devices_of (source_of (S.left input.old) (S.faults input.old))
        (sink_of (K.taken out.old) (K.faults out.old)) (R.view rack.old)) result
        (devices_of (source_of (S.left input.new) (S.faults input.new))
        (sink_of (K.taken out.new) (K.faults out.new)) (R.view rack.new)) }
{
    let Ok(plan) = kind_plan(alloc, &file.shape) else {
        return Status::OutOfMemory;
    };
    let Ok(mut bufs) = Bufs::new(alloc, &file.shape) else {
        return Status::OutOfMemory;
    };
    kind_on_disks(file, &plan, &mut bufs, input, out, rack)
}

// Reads the text, and carries it out.
fn run_text<R: Rack, J: Source, S: Source, K: Sink>(
    alloc: Global,
    job: &mut J,
    input: &mut S,
    out: &mut K,
    rack: &mut R,
) -> Status
    ensures { KindOnJob
        (tells_of J.tells S.tells K.tells R.tells_stands R.tells_contents)
        (moment_of (source_of (J.left job.old) (J.faults job.old))
        (devices_of (source_of (S.left input.old) (S.faults input.old))
        (sink_of (K.taken out.old) (K.faults out.old)) (R.view rack.old))) result
        (moment_of (source_of (J.left job.new) (J.faults job.new))
        (devices_of (source_of (S.left input.new) (S.faults input.new))
        (sink_of (K.taken out.new) (K.faults out.new)) (R.view rack.new))) }
{
    match read_file(alloc, job) {
        Ok(file) => run_file(alloc, &file, input, out, rack),
        Err(status) => status,
    }
}

// Carries out what the words spell.
fn run_words<R: Rack, J: Source, S: Source, K: Sink>(
    alloc: Global,
    words: &[String],
    job: &mut J,
    input: &mut S,
    out: &mut K,
    rack: &mut R,
) -> Status
    ensures { KindTop
        (tells_of J.tells S.tells K.tells R.tells_stands R.tells_contents) words.now
        (moment_of (source_of (J.left job.old) (J.faults job.old))
        (devices_of (source_of (S.left input.old) (S.faults input.old))
        (sink_of (K.taken out.old) (K.faults out.old)) (R.view rack.old))) result
        (moment_of (source_of (J.left job.new) (J.faults job.new))
        (devices_of (source_of (S.left input.new) (S.faults input.new))
        (sink_of (K.taken out.new) (K.faults out.new)) (R.view rack.new))) }
{
    match kind_job(words) {
        Some(_) => run_text(alloc, job, input, out, rack),
        None => Status::Usage,
    }
}

/// Carries out a transform over chosen address bits, and writes the line of its answer to `err`.
///
/// The words are `kind` and any word that names the job; `Usage` for all else. The text of the job
/// has the tables `shape` and `map`, and `map` has a `kind`, which is `walsh-bits`, `sums`,
/// `differences` or `xors`, and a `set`, which lists address bits.
///
/// The job source is read, up to 65537 bytes of it: `JobFault`, `JobText`, `JobField`, `JobShape`,
/// and `JobMap` with `Width`, `Range` or `Twice`. Then the plan and the buffers are made, and the
/// disks of the shape made and attached: `Exists` where something stands. The records of the input
/// are loaded: `DataFault`, `DataShort` or `DataLong` as they are met. The transform is run, and
/// the records of its last area are written. It opens no job, so what fails is begun anew, on new
/// disks.
///
/// `RackFault` and `SinkFault` come as they are met. No memory is asked for once the disks are
/// attached. A write to `err` that fails ends that line, and changes nothing else.
pub fn kind_top<R: Rack, J: Source, S: Source, K: Sink, E: Sink>(
    alloc: Global,
    words: &[String],
    job: &mut J,
    input: &mut S,
    out: &mut K,
    err: &mut E,
    rack: &mut R,
) -> Status
    ensures call { KindTop
        (tells_of J.tells S.tells K.tells R.tells_stands R.tells_contents) words.now
        (moment_of (source_of (J.left job.old) (J.faults job.old))
        (devices_of (source_of (S.left input.old) (S.faults input.old))
        (sink_of (K.taken out.old) (K.faults out.old)) (R.view rack.old))) result
        (moment_of (source_of (J.left job.new) (J.faults job.new))
        (devices_of (source_of (S.left input.new) (S.faults input.new))
        (sink_of (K.taken out.new) (K.faults out.new)) (R.view rack.new))) }

    // the last line
    ensures line { IsTrue E.tells → ¬ Rose (E.faults err.old) (E.faults err.new)
        → E.taken err.new ≡ E.taken err.old ++ line_of result }
    ensures front { IsTrue E.tells
        → AppendsFront (E.taken err.old) (E.taken err.new) (line_of result) }
    ensures faults { E.faults err.old ≤ E.faults err.new }
{
    let status = run_words(alloc, words, job, input, out, rack);
    write_answer(err, &status);
    status
}
