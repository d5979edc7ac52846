//! The command `dump`: the records of the last area, once the job is done.

ghost use Rattle.std.specs.Prelude.{◌≡◌, Some};
ghost use Rattle.bm_base.specs.Shape.{dims_of};
ghost use Rattle.bm_bufs.specs.Bufs.{FitsShape};
ghost use Rattle.bm_rack.specs.RackView.{RackView};
ghost use Rattle.bm_top.specs.Exits.{AttachedFrom};
ghost use Rattle.bm_top.specs.Moment.{Devices, Tells, sink_of};
ghost use Rattle.bm_top.specs.Status.{IsBeforeDisks};
ghost use Rattle.bm_top.specs.TopCall.{TaskCall};
ghost use Rattle.bm_top.specs.declared.words.Verb.{Verb};

use crate::disk_status::{dump_status, open_status};
use crate::disks::{attach_disks, disks_status};
use crate::{Status, Task};
use bm_base::area_of;
use bm_bufs::Bufs;
use bm_disks::{dump_records, open_job};
use bm_rack::{Rack, Sink};
use std::alloc::Global;

/// `dump` on disks that are attached. No memory is asked for.
pub fn dump_attached<R: Rack, K: Sink>(
    task: &Task,
    out: &mut K,
    rack: &mut R,
    bufs: &mut Bufs,
) -> Status
    requires attached { (R.view rack.old).attached ≡ Some (dims_of task.now.shape) }
    requires fits { FitsShape task.now.shape bufs.old }
    ensures call { (t : Tells) (d : Devices) (before : RackView) → AttachedFrom before (R.view rack.old)
        → TaskCall
        (record t { out = K.tells; stands = R.tells_stands; contents = R.tells_contents })
        Verb.Dump task.now
        (record d { out = sink_of (K.taken out.old) (K.faults out.old); rack = before }) result
        (record d { out = sink_of (K.taken out.new) (K.faults out.new); rack = R.view rack.new }) }
    ensures late { ¬ IsBeforeDisks result }
    ensures fits { FitsShape task.now.shape bufs.new }
{
    match open_job(rack, &task.shape, &task.job) {
        Ok(job) if job.done < job.passes => Status::NotDone {
            done: job.done,
            all: job.passes,
        },
        Ok(job) => match dump_records(rack, &task.shape, area_of(job.passes), out, bufs) {
            Ok(()) => Status::Done,
            Err(error) => dump_status(error),
        },
        Err(error) => open_status(error),
    }
}

// `run_dump` with the buffers made.
fn dump_on_disks<R: Rack, K: Sink>(
    task: &Task,
    out: &mut K,
    rack: &mut R,
    bufs: &mut Bufs,
) -> Status
    requires { FitsShape task.now.shape bufs.old }
    ensures { (t : Tells) (d : Devices) → TaskCall
        (record t { out = K.tells; stands = R.tells_stands; contents = R.tells_contents })
        Verb.Dump task.now
        (record d { out = sink_of (K.taken out.old) (K.faults out.old); rack = R.view rack.old }) result
        (record d { out = sink_of (K.taken out.new) (K.faults out.new); rack = R.view rack.new }) }
{
    match attach_disks(rack, &task.shape.dims()) {
        Ok(()) => dump_attached(task, out, rack, bufs),
        Err(error) => disks_status(error),
    }
}

/// Writes the records of the area of the last pass, through a buffer of one load.
pub fn run_dump<R: Rack, K: Sink>(alloc: Global, task: &Task, out: &mut K, rack: &mut R) -> Status
    ensures { (t : Tells) (d : Devices) → TaskCall
        (record t { out = K.tells; stands = R.tells_stands; contents = R.tells_contents })
        Verb.Dump task.now
        (record d { out = sink_of (K.taken out.old) (K.faults out.old); rack = R.view rack.old }) result
        (record d { out = sink_of (K.taken out.new) (K.faults out.new); rack = R.view rack.new }) }
{
    match Bufs::new(alloc, &task.shape) {
        Ok(mut bufs) => dump_on_disks(task, out, rack, &mut bufs),
        Err(_) => Status::OutOfMemory,
    }
}
