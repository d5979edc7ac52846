//! The command `status`: how far the open job is.

ghost use Rattle.std.specs.Prelude.{◌≡◌, Some};
ghost use Rattle.bm_base.specs.Shape.{dims_of};
ghost use Rattle.bm_rack.specs.RackView.{RackView};
ghost use Rattle.bm_top.specs.Exits.{AttachedFrom};
ghost use Rattle.bm_top.specs.Moment.{Devices, Tells, sink_of};
ghost use Rattle.bm_top.specs.TopCall.{TaskCall};
ghost use Rattle.bm_top.specs.declared.words.Verb.{Verb};

use crate::disk_status::open_status;
use crate::disks::{attach_disks, disks_status};
use crate::{Status, Task};
use bm_disks::open_job;
use bm_rack::{Rack, Sink};
use bm_text::write_status;

// `tell_status` of disks that are attached.
fn status_attached<R: Rack, K: Sink>(task: &Task, out: &mut K, rack: &mut R) -> Status
    requires { (R.view rack.old).attached ≡ Some (dims_of task.now.shape) }
    ensures { (t : Tells) (d : Devices) (before : RackView) → AttachedFrom before (R.view rack.old)
        → TaskCall
        (record t { out = K.tells; stands = R.tells_stands; contents = R.tells_contents })
        Verb.Status task.now
        (record d { out = sink_of (K.taken out.old) (K.faults out.old); rack = before }) result
        (record d { out = sink_of (K.taken out.new) (K.faults out.new); rack = R.view rack.new }) }
{
    match open_job(rack, &task.shape, &task.job) {
        Ok(job) => match write_status(out, &task.job, job.done, job.passes) {
            Ok(()) => Status::Done,
            Err(_) => Status::SinkFault,
        },
        Err(error) => open_status(error),
    }
}

/// Writes how many passes of the open job are done.
pub fn tell_status<R: Rack, K: Sink>(task: &Task, out: &mut K, rack: &mut R) -> Status
    ensures { (t : Tells) (d : Devices) → TaskCall
        (record t { out = K.tells; stands = R.tells_stands; contents = R.tells_contents })
        Verb.Status task.now
        (record d { out = sink_of (K.taken out.old) (K.faults out.old); rack = R.view rack.old }) result
        (record d { out = sink_of (K.taken out.new) (K.faults out.new); rack = R.view rack.new }) }
{
    match attach_disks(rack, &task.shape.dims()) {
        Ok(()) => status_attached(task, out, rack),
        Err(error) => disks_status(error),
    }
}
