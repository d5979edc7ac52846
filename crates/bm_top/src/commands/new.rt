//! The command `new`: the disks of a shape.

ghost use Rattle.std.specs.Prelude.{◌≡◌};
ghost use Rattle.bm_top.specs.Moment.{Devices, Tells};
ghost use Rattle.bm_top.specs.declared.words.Verb.{Verb};
ghost use Rattle.bm_top.specs.TopCall.{TaskCall};

use crate::disks::{create_disks, disks_status};
use crate::{Status, Task};
use bm_rack::Rack;

/// Makes the disks of the task's shape, where nothing stands.
pub fn run_new<R: Rack>(task: &Task, rack: &mut R) -> Status
    ensures { (t : Tells) (d : Devices) → TaskCall
        (record t { stands = R.tells_stands; contents = R.tells_contents }) Verb.New task.now
        (record d { rack = R.view rack.old }) result (record d { rack = R.view rack.new }) }
{
    match create_disks(rack, &task.shape.dims()) {
        Ok(()) => Status::Done,
        Err(error) => disks_status(error),
    }
}
