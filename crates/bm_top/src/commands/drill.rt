//! The command `drill`: the job on generated records, over disks in memory that are stopped.

ghost use Rattle.std.specs.Prelude.{◌≡◌, ◌≤◌, ◌^◌, IfOk};
ghost use Rattle.bm_base.specs.Shape.{input_size};
ghost use Rattle.bm_top.specs.Moment.{Devices, Tells, sink_of};
ghost use Rattle.bm_top.specs.Task.{TaskFits};
ghost use Rattle.bm_top.specs.TopCall.{TaskCall};
ghost use Rattle.bm_top.specs.commands.Drill.{IsDrillOf};
ghost use Rattle.bm_top.specs.declared.words.Verb.{Verb};

use crate::planning::make_plan;
use crate::{Status, Task};
use bm_base::{DrillReport, OutOfMemory};
use bm_bufs::Bufs;
use bm_drill::{DrillSpec, drill};
use bm_memrack::MemRack;
use bm_rack::Sink;
use bm_text::write_drill;
use std::alloc::Global;

// The report of the task's drill, on a new rack in memory.
fn drill_report(alloc: Global, task: Task) -> Result<DrillReport, OutOfMemory>
    requires fits { TaskFits task }
    requires size { input_size task.shape ≤ 2 ^ 26 }
    ensures { IfOk result (λ report. IsDrillOf task report) }
{
    let Ok(plan) = make_plan(alloc, &task) else {
        return Err(OutOfMemory);
    };
    let Ok(mut bufs) = Bufs::new(alloc, &task.shape) else {
        return Err(OutOfMemory);
    };
    let spec = DrillSpec {
        shape: task.shape,
        job: task.job,
        plan,
        start: task.start,
        stops: task.stops,
        every: task.every,
    };
    let mut rack = MemRack::new(alloc, Vec::new(alloc));
    drill(&mut rack, &spec, &mut bufs)
}

/// Does the job to generated records on disks in memory, with the stops of the task, and writes
/// the report of it. The input that is generated has 2^26 bytes at most.
pub fn run_drill<K: Sink>(alloc: Global, task: Task, out: &mut K) -> Status
    requires fits { TaskFits task }
    requires size { input_size task.shape ≤ 2 ^ 26 }
    ensures { (t : Tells) (d : Devices) → TaskCall (record t { out = K.tells }) Verb.Drill task
        (record d { out = sink_of (K.taken out.old) (K.faults out.old) }) result
        (record d { out = sink_of (K.taken out.new) (K.faults out.new) }) }
{
    match drill_report(alloc, task) {
        Ok(report) => match write_drill(out, &report) {
            Ok(()) => Status::Done,
            Err(_) => Status::SinkFault,
        },
        Err(_) => Status::OutOfMemory,
    }
}
