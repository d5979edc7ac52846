//! The command `run`: the job, done to the records that are loaded.

ghost use Rattle.std.specs.Prelude.{◌≡◌, ◌*◌, ◌≤◌, length, Some};
ghost use Rattle.bm_base.specs.Shape.{dims_of};
ghost use Rattle.bm_bufs.specs.Bufs.{FitsShape};
ghost use Rattle.bm_forms.specs.Plan.{StandsFor};
ghost use Rattle.bm_rack.specs.RackView.{RackView};
ghost use Rattle.bm_top.specs.Exits.{AttachedFrom};
ghost use Rattle.bm_top.specs.Moment.{Devices, Tells, sink_of};
ghost use Rattle.bm_top.specs.Task.{TaskFits, IsPlanOf};
ghost use Rattle.bm_top.specs.TopCall.{TaskCall};
ghost use Rattle.bm_top.specs.commands.Run.{bound_of};
ghost use Rattle.bm_top.specs.declared.words.Verb.{Verb};

use crate::disk_status::run_status;
use crate::disks::{attach_disks, disks_status};
use crate::planning::make_plan;
use crate::{Status, Task};
use bm_bufs::Bufs;
use bm_forms::{Plan, pass_limit};
use bm_job::run_job;
use bm_rack::{Rack, Sink};
use bm_text::write_report;
use std::alloc::Global;

// The parallel transfers that the task's job never exceeds: 2N/BD for each pass of the pass limit.
fn bound_of(task: &Task) -> u64
    requires { TaskFits task.now }
    ensures { result ≡ bound_of task.now }
{
    task.shape.pass_moves() * u64::from(pass_limit(&task.shape, &task.job))
}

// `run` on disks that are attached, which were so before.
fn run_attached<R: Rack, K: Sink>(
    task: &Task,
    plan: &Plan,
    bufs: &mut Bufs,
    out: &mut K,
    rack: &mut R,
) -> Status
    requires attached { (R.view rack.old).attached ≡ Some (dims_of task.now.shape) }
    requires task { TaskFits task.now }
    requires plan { IsPlanOf task.now plan.now }
    requires fits { FitsShape task.now.shape bufs.old }
    ensures { (t : Tells) (d : Devices) (before : RackView) → AttachedFrom before (R.view rack.old)
        → TaskCall
        (record t { out = K.tells; stands = R.tells_stands; contents = R.tells_contents })
        Verb.Run task.now
        (record d { out = sink_of (K.taken out.old) (K.faults out.old); rack = before }) result
        (record d { out = sink_of (K.taken out.new) (K.faults out.new); rack = R.view rack.new }) }
{
    match run_job(rack, &task.shape, &task.job, plan, bufs, task.every) {
        Ok(report) => match write_report(out, &report, bound_of(task)) {
            Ok(()) => Status::Done,
            Err(_) => Status::SinkFault,
        },
        Err(error) => run_status(error),
    }
}

// `run` with its plan and buffers made. It takes no more memory once its disks are attached.
fn run_on_disks<R: Rack, K: Sink>(
    task: &Task,
    plan: &Plan,
    bufs: &mut Bufs,
    out: &mut K,
    rack: &mut R,
) -> Status
    requires task { TaskFits task.now }
    requires plan { IsPlanOf task.now plan.now }
    requires fits { FitsShape task.now.shape bufs.old }
    ensures { (t : Tells) (d : Devices) → TaskCall
        (record t { out = K.tells; stands = R.tells_stands; contents = R.tells_contents })
        Verb.Run task.now
        (record d { out = sink_of (K.taken out.old) (K.faults out.old); rack = R.view rack.old }) result
        (record d { out = sink_of (K.taken out.new) (K.faults out.new); rack = R.view rack.new }) }
{
    match attach_disks(rack, &task.shape.dims()) {
        Ok(()) => run_attached(task, plan, bufs, out, rack),
        Err(error) => disks_status(error),
    }
}

/// Does the job to the records that are loaded, or goes on with it, and writes its report.
pub fn run_run<R: Rack, K: Sink>(alloc: Global, task: &Task, out: &mut K, rack: &mut R) -> Status
    requires { TaskFits task.now }
    ensures { (t : Tells) (d : Devices) → TaskCall
        (record t { out = K.tells; stands = R.tells_stands; contents = R.tells_contents })
        Verb.Run task.now
        (record d { out = sink_of (K.taken out.old) (K.faults out.old); rack = R.view rack.old }) result
        (record d { out = sink_of (K.taken out.new) (K.faults out.new); rack = R.view rack.new }) }
{
    let Ok(plan) = make_plan(alloc, task) else {
        return Status::OutOfMemory;
    };
    let Ok(mut bufs) = Bufs::new(alloc, &task.shape) else {
        return Status::OutOfMemory;
    };
    run_on_disks(task, &plan, &mut bufs, out, rack)
}
