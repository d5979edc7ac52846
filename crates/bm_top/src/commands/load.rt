//! The command `load`: the records of the input, into the area of the input.

ghost use Rattle.std.specs.Prelude.{◌≡◌, Some};
ghost use Rattle.bm_base.specs.Shape.{dims_of};
ghost use Rattle.bm_bufs.specs.Bufs.{FitsShape};
ghost use Rattle.bm_rack.specs.RackView.{RackView};
ghost use Rattle.bm_top.specs.Exits.{AttachedFrom};
ghost use Rattle.bm_top.specs.Moment.{Devices, Tells, source_of};
ghost use Rattle.bm_top.specs.TopCall.{TaskCall};
ghost use Rattle.bm_top.specs.declared.words.Verb.{Verb};

use crate::disk_status::load_status;
use crate::disks::{attach_disks, disks_status};
use crate::{Status, Task};
use bm_bufs::Bufs;
use bm_disks::load_records;
use bm_rack::{Rack, Source};
use std::alloc::Global;

/// `load` on disks that are attached. No memory is asked for.
pub fn load_attached<R: Rack, S: Source>(
    task: &Task,
    input: &mut S,
    rack: &mut R,
    bufs: &mut Bufs,
) -> Status
    requires attached { (R.view rack.old).attached ≡ Some (dims_of task.now.shape) }
    requires fits { FitsShape task.now.shape bufs.old }
    ensures call { (t : Tells) (d : Devices) (before : RackView) → AttachedFrom before (R.view rack.old)
        → TaskCall
        (record t { input = S.tells; stands = R.tells_stands; contents = R.tells_contents })
        Verb.Load task.now
        (record d { input = source_of (S.left input.old) (S.faults input.old); rack = before }) result
        (record d { input = source_of (S.left input.new) (S.faults input.new); rack = R.view rack.new }) }
    ensures fits { FitsShape task.now.shape bufs.new }
{
    match load_records(rack, &task.shape, input, bufs) {
        Ok(()) => Status::Done,
        Err(error) => load_status(error),
    }
}

// `run_load` with the buffers made.
fn load_on_disks<R: Rack, S: Source>(
    task: &Task,
    input: &mut S,
    rack: &mut R,
    bufs: &mut Bufs,
) -> Status
    requires { FitsShape task.now.shape bufs.old }
    ensures { (t : Tells) (d : Devices) → TaskCall
        (record t { input = S.tells; stands = R.tells_stands; contents = R.tells_contents })
        Verb.Load task.now
        (record d { input = source_of (S.left input.old) (S.faults input.old); rack = R.view rack.old }) result
        (record d { input = source_of (S.left input.new) (S.faults input.new); rack = R.view rack.new }) }
{
    match attach_disks(rack, &task.shape.dims()) {
        Ok(()) => load_attached(task, input, rack, bufs),
        Err(error) => disks_status(error),
    }
}

/// Reads the records of the input into the disks, through a buffer of one load.
pub fn run_load<R: Rack, S: Source>(
    alloc: Global,
    task: &Task,
    input: &mut S,
    rack: &mut R,
) -> Status
    ensures { (t : Tells) (d : Devices) → TaskCall
        (record t { input = S.tells; stands = R.tells_stands; contents = R.tells_contents })
        Verb.Load task.now
        (record d { input = source_of (S.left input.old) (S.faults input.old); rack = R.view rack.old }) result
        (record d { input = source_of (S.left input.new) (S.faults input.new); rack = R.view rack.new }) }
{
    match Bufs::new(alloc, &task.shape) {
        Ok(mut bufs) => load_on_disks(task, input, rack, &mut bufs),
        Err(_) => Status::OutOfMemory,
    }
}
