//! The command `carry`: disks made, the input loaded, the job done and its records dumped.

ghost use Rattle.std.specs.Prelude.{◌≡◌, Some};
ghost use Rattle.bm_base.specs.Shape.{dims_of};
ghost use Rattle.bm_bufs.specs.Bufs.{FitsShape};
ghost use Rattle.bm_top.specs.Moment.{Devices, Tells, source_of, sink_of, devices_of};
ghost use Rattle.bm_top.specs.Task.{TaskFits, IsPlanOf};
ghost use Rattle.bm_top.specs.TopCall.{TaskCall};
ghost use Rattle.bm_top.specs.commands.Carry.{IsMadeFrom, IsLoadedFrom};
ghost use Rattle.bm_top.specs.declared.words.Verb.{Verb};

use crate::commands::dump::dump_attached;
use crate::disk_status::{load_status, run_status};
use crate::disks::{disks_status, new_disks};
use crate::planning::make_plan;
use crate::{Status, Task};
use bm_bufs::Bufs;
use bm_disks::load_records;
use bm_forms::Plan;
use bm_job::run_job;
use bm_rack::{Rack, Sink, Source};
use std::alloc::Global;

// Does the job to records that were just loaded, and writes what it made of them.
fn carry_loaded<R: Rack, K: Sink>(
    task: &Task,
    plan: &Plan,
    bufs: &mut Bufs,
    out: &mut K,
    rack: &mut R,
) -> Status
    requires attached { (R.view rack.old).attached ≡ Some (dims_of task.now.shape) }
    requires task { TaskFits task.now }
    requires plan { IsPlanOf task.now plan.now }
    requires fits { FitsShape task.now.shape bufs.old }
    ensures { (t : Tells) (d : Devices) (old : Devices) → IsLoadedFrom
        (record t { out = K.tells; stands = R.tells_stands; contents = R.tells_contents }) task.now old
        (record d { out = sink_of (K.taken out.old) (K.faults out.old); rack = R.view rack.old })
        → TaskCall
        (record t { out = K.tells; stands = R.tells_stands; contents = R.tells_contents })
        Verb.Carry task.now old result
        (record d { out = sink_of (K.taken out.new) (K.faults out.new); rack = R.view rack.new }) }
{
    match run_job(rack, &task.shape, &task.job, plan, bufs, task.every) {
        Ok(_) => dump_attached(task, out, rack, bufs),
        Err(error) => run_status(error),
    }
}

// Loads the input into disks that were just made, and carries on.
fn carry_attached<R: Rack, S: Source, K: Sink>(
    task: &Task,
    plan: &Plan,
    bufs: &mut Bufs,
    input: &mut S,
    out: &mut K,
    rack: &mut R,
) -> Status
    requires attached { (R.view rack.old).attached ≡ Some (dims_of task.now.shape) }
    requires task { TaskFits task.now }
    requires plan { IsPlanOf task.now plan.now }
    requires fits { FitsShape task.now.shape bufs.old }
    ensures { (t : Tells) (old : Devices) → IsMadeFrom
        (record t {
          input = S.tells;
          out = K.tells;
          stands = R.tells_stands;
          contents = R.tells_contents;
        })
        task.now old
        (devices_of (source_of (S.left input.old) (S.faults input.old))
        (sink_of (K.taken out.old) (K.faults out.old)) (R.view rack.old))
        → TaskCall
        (record t {
          input = S.tells;
          out = K.tells;
          stands = R.tells_stands;
          contents = R.tells_contents;
        })
        Verb.Carry task.now old result
        (devices_of (source_of (S.left input.new) (S.faults input.new))
        (sink_of (K.taken out.new) (K.faults out.new)) (R.view rack.new)) }
{
    match load_records(rack, &task.shape, input, bufs) {
        Ok(()) => carry_loaded(task, plan, bufs, out, rack),
        Err(error) => load_status(error),
    }
}

// `carry` with its plan and buffers made. It takes no more memory once its disks are attached.
fn carry_on_disks<R: Rack, S: Source, K: Sink>(
    task: &Task,
    plan: &Plan,
    bufs: &mut Bufs,
    input: &mut S,
    out: &mut K,
    rack: &mut R,
) -> Status
    requires task { TaskFits task.now }
    requires plan { IsPlanOf task.now plan.now }
    requires fits { FitsShape task.now.shape bufs.old }
    ensures { (t : Tells) (d : Devices) → TaskCall
        (record t {
          input = S.tells;
          out = K.tells;
          stands = R.tells_stands;
          contents = R.tells_contents;
        })
        Verb.Carry task.now
        (record d {
          input = source_of (S.left input.old) (S.faults input.old);
          out = sink_of (K.taken out.old) (K.faults out.old);
          rack = R.view rack.old;
        }) result
        (record d {
          input = source_of (S.left input.new) (S.faults input.new);
          out = sink_of (K.taken out.new) (K.faults out.new);
          rack = R.view rack.new;
        }) }
{
    match new_disks(rack, &task.shape.dims()) {
        Ok(()) => carry_attached(task, plan, bufs, input, out, rack),
        Err(error) => disks_status(error),
    }
}

/// Makes the disks, loads the input, runs the job and writes its records.
pub fn run_carry<R: Rack, S: Source, K: Sink>(
    alloc: Global,
    task: &Task,
    input: &mut S,
    out: &mut K,
    rack: &mut R,
) -> Status
    requires { TaskFits task.now }
    ensures { (t : Tells) (d : Devices) → TaskCall
        (record t {
          input = S.tells;
          out = K.tells;
          stands = R.tells_stands;
          contents = R.tells_contents;
        })
        Verb.Carry task.now
        (record d {
          input = source_of (S.left input.old) (S.faults input.old);
          out = sink_of (K.taken out.old) (K.faults out.old);
          rack = R.view rack.old;
        }) result
        (record d {
          input = source_of (S.left input.new) (S.faults input.new);
          out = sink_of (K.taken out.new) (K.faults out.new);
          rack = R.view rack.new;
        }) }
{
    let Ok(plan) = make_plan(alloc, task) else {
        return Status::OutOfMemory;
    };
    let Ok(mut bufs) = Bufs::new(alloc, &task.shape) else {
        return Status::OutOfMemory;
    };
    carry_on_disks(task, &plan, &mut bufs, input, out, rack)
}
