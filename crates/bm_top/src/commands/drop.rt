//! The command `drop`: the open job is closed.

ghost use Rattle.std.specs.Prelude.{◌≡◌, Some};
ghost use Rattle.bm_base.specs.Shape.{dims_of};
ghost use Rattle.bm_rack.specs.RackView.{RackView};
ghost use Rattle.bm_top.specs.Exits.{AttachedFrom};
ghost use Rattle.bm_top.specs.Moment.{Devices, Tells};
ghost use Rattle.bm_top.specs.TopCall.{TaskCall};
ghost use Rattle.bm_top.specs.declared.words.Verb.{Verb};

use crate::disk_status::drop_status;
use crate::disks::{attach_disks, disks_status};
use crate::{Status, Task};
use bm_disks::drop_job;
use bm_rack::Rack;

// `run_drop` of disks that are attached.
fn drop_attached<R: Rack>(task: &Task, rack: &mut R) -> Status
    requires { (R.view rack.old).attached ≡ Some (dims_of task.now.shape) }
    ensures { (t : Tells) (d : Devices) (before : RackView) → AttachedFrom before (R.view rack.old)
        → TaskCall (record t { stands = R.tells_stands; contents = R.tells_contents })
        Verb.Drop task.now
        (record d { rack = before }) result
        (record d { rack = R.view rack.new }) }
{
    match drop_job(rack) {
        Ok(()) => Status::Done,
        Err(error) => drop_status(error),
    }
}

/// Closes the job that is open, whichever it is.
pub fn run_drop<R: Rack>(task: &Task, rack: &mut R) -> Status
    ensures { (t : Tells) (d : Devices) → TaskCall
        (record t { stands = R.tells_stands; contents = R.tells_contents })
        Verb.Drop task.now
        (record d { rack = R.view rack.old }) result
        (record d { rack = R.view rack.new }) }
{
    match attach_disks(rack, &task.shape.dims()) {
        Ok(()) => drop_attached(task, rack),
        Err(error) => disks_status(error),
    }
}
