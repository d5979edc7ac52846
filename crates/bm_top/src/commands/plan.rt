//! The command `plan`: the passes of a job, and the parallel transfers that they take.

ghost use Rattle.std.specs.Prelude.{◌≡◌};
ghost use Rattle.bm_top.specs.Moment.{Devices, Tells, sink_of};
ghost use Rattle.bm_top.specs.declared.words.Verb.{Verb};
ghost use Rattle.bm_top.specs.Task.{TaskFits};
ghost use Rattle.bm_top.specs.TopCall.{TaskCall};

use crate::{Status, Task};
use bm_rack::Sink;
use bm_text::write_plan;

/// Writes the steps of the job's plan.
pub fn run_plan<K: Sink>(task: &Task, out: &mut K) -> Status
    requires { TaskFits task.now }
    ensures { (t : Tells) (d : Devices) → TaskCall (record t { out = K.tells }) Verb.Plan task.now
        (record d { out = sink_of (K.taken out.old) (K.faults out.old) }) result
        (record d { out = sink_of (K.taken out.new) (K.faults out.new) }) }
{
    match write_plan(out, &task.shape, &task.job) {
        Ok(()) => Status::Done,
        Err(_) => Status::SinkFault,
    }
}
