//! The command `detect`: the affine permutation that the input lists, as a job text.

ghost use Rattle.std.specs.Prelude.{◌≡◌, Some};
ghost use Rattle.bm_base.specs.Shape.{dims_of};
ghost use Rattle.bm_bufs.specs.Bufs.{FitsShape};
ghost use Rattle.bm_rack.specs.RackView.{RackView};
ghost use Rattle.bm_top.specs.Exits.{AttachedFrom};
ghost use Rattle.bm_top.specs.Moment.{Devices, Tells, sink_of};
ghost use Rattle.bm_top.specs.TopCall.{TaskCall};
ghost use Rattle.bm_top.specs.commands.Detect.{loaded_of, IsSeenFrom};
ghost use Rattle.bm_top.specs.declared.words.Verb.{Verb};

use crate::disk_status::{detect_status, open_status};
use crate::disks::{attach_disks, disks_status};
use crate::{Status, Task};
use bm_bufs::Bufs;
use bm_detect::detect;
use bm_disks::{OpenError, OpenJob, open_job};
use bm_rack::{Rack, Sink};
use bm_text::write_job;
use std::alloc::Global;

// What a look at a job tells of the records: whether they are loaded, whichever job is open.
fn loaded_of(looked: Result<OpenJob, OpenError>) -> Result<(), OpenError>
    ensures { result ≡ loaded_of looked }
{
    match looked {
        Ok(_) => Ok(()),
        Err(OpenError::NoJob) => Ok(()),
        Err(OpenError::OtherJob) => Ok(()),
        Err(error) => Err(error),
    }
}

// Detects the map of records that are loaded, and writes its job text.
fn detect_loaded<R: Rack, K: Sink>(
    task: &Task,
    out: &mut K,
    rack: &mut R,
    bufs: &mut Bufs,
) -> Status
    requires attached { (R.view rack.old).attached ≡ Some (dims_of task.now.shape) }
    requires width { task.now.shape.width ≡ 8 }
    requires fits { FitsShape task.now.shape bufs.old }
    ensures { (t : Tells) (d : Devices) (before : RackView) → IsSeenFrom
        (record t { out = K.tells; stands = R.tells_stands; contents = R.tells_contents })
        task.now before (R.view rack.old)
        → TaskCall
        (record t { out = K.tells; stands = R.tells_stands; contents = R.tells_contents })
        Verb.Detect task.now
        (record d { out = sink_of (K.taken out.old) (K.faults out.old); rack = before }) result
        (record d { out = sink_of (K.taken out.new) (K.faults out.new); rack = R.view rack.new }) }
{
    match detect(rack, &task.shape, bufs) {
        Ok(map) => match write_job(out, &task.shape, &map) {
            Ok(()) => Status::Done,
            Err(_) => Status::SinkFault,
        },
        Err(error) => detect_status(error),
    }
}

// `run_detect` of disks that are attached. No memory is asked for.
fn detect_attached<R: Rack, K: Sink>(
    task: &Task,
    out: &mut K,
    rack: &mut R,
    bufs: &mut Bufs,
) -> Status
    requires attached { (R.view rack.old).attached ≡ Some (dims_of task.now.shape) }
    requires width { task.now.shape.width ≡ 8 }
    requires fits { FitsShape task.now.shape bufs.old }
    ensures { (t : Tells) (d : Devices) (before : RackView) → AttachedFrom before (R.view rack.old)
        → TaskCall
        (record t { out = K.tells; stands = R.tells_stands; contents = R.tells_contents })
        Verb.Detect task.now
        (record d { out = sink_of (K.taken out.old) (K.faults out.old); rack = before }) result
        (record d { out = sink_of (K.taken out.new) (K.faults out.new); rack = R.view rack.new }) }
{
    match loaded_of(open_job(rack, &task.shape, &task.job)) {
        Ok(()) => detect_loaded(task, out, rack, bufs),
        Err(error) => open_status(error),
    }
}

// `run_detect` with the buffers made.
fn detect_on_disks<R: Rack, K: Sink>(
    task: &Task,
    out: &mut K,
    rack: &mut R,
    bufs: &mut Bufs,
) -> Status
    requires width { task.now.shape.width ≡ 8 }
    requires fits { FitsShape task.now.shape bufs.old }
    ensures { (t : Tells) (d : Devices) → TaskCall
        (record t { out = K.tells; stands = R.tells_stands; contents = R.tells_contents })
        Verb.Detect task.now
        (record d { out = sink_of (K.taken out.old) (K.faults out.old); rack = R.view rack.old }) result
        (record d { out = sink_of (K.taken out.new) (K.faults out.new); rack = R.view rack.new }) }
{
    match attach_disks(rack, &task.shape.dims()) {
        Ok(()) => detect_attached(task, out, rack, bufs),
        Err(error) => disks_status(error),
    }
}

/// Writes a job text of the affine permutation whose images the records of the input are. Of the
/// task it uses the shape alone, whose records have 8 bytes.
pub fn run_detect<R: Rack, K: Sink>(alloc: Global, task: &Task, out: &mut K, rack: &mut R) -> Status
    requires { task.now.shape.width ≡ 8 }
    ensures { (t : Tells) (d : Devices) → TaskCall
        (record t { out = K.tells; stands = R.tells_stands; contents = R.tells_contents })
        Verb.Detect task.now
        (record d { out = sink_of (K.taken out.old) (K.faults out.old); rack = R.view rack.old }) result
        (record d { out = sink_of (K.taken out.new) (K.faults out.new); rack = R.view rack.new }) }
{
    match Bufs::new(alloc, &task.shape) {
        Ok(mut bufs) => detect_on_disks(task, out, rack, &mut bufs),
        Err(_) => Status::OutOfMemory,
    }
}
