//! Pass gates: how many passes are done.

ghost use Rattle.std.specs.Prelude.{◌≡◌, ◌+◌, ◌*◌, ◌<◌, IsTrue, IsOk, IsErr, OnOk};
ghost use Rattle.bm_base.specs.Contents.{page_at};
ghost use Rattle.bm_base.specs.Gate.{IsOpenGate};
ghost use Rattle.bm_rack.specs.RackView.{IsAttached, IsClean};
ghost use Rattle.bm_rack.specs.Frames.{RackCall, MakesPageCalls};
ghost use Rattle.bm_rack.specs.Calls.{IsPage};
ghost use Rattle.bm_control.specs.Moments.{PassIsDone};
ghost use Rattle.bm_control.specs.Pages as page;
ghost use Rattle.bm_control.specs.Sound.{IsSound};

use crate::durable::write_page_durably;
use crate::gates::gate_page;
use crate::pages::pass_gate;
use bm_base::Failed;
use bm_rack::Rack;

/// Opens the gate of pass k + 1, all of whose records are where they are to be. k is below 256.
///
/// The records are made durable before the gate is written. A rack that is sound stays sound at
/// each exit.
pub fn open_gate<R: Rack>(rack: &mut R, k: u16) -> Result<(), Failed>
    requires ready { IsAttached (R.view rack.old).attached }
    requires number { k < 256 }
    ensures sound { IsTrue R.tells_stands → IsTrue R.tells_contents
        → IsSound (R.view rack.old) → PassIsDone (R.view rack.old).contents k
        → IsSound (R.view rack.new) }
    ensures clean { OnOk result (IsClean (R.view rack.new)) }
    ensures opened { IsTrue R.tells_contents
        → OnOk result (IsOpenGate (page_at (R.view rack.new).contents (page.pass_gate k))) }
    ensures call { RackCall (IsPage (page.pass_gate k)) (IsErr result) (R.view rack.old) (R.view rack.new) }
    ensures counts { MakesPageCalls (IsOk result) 1 2 (R.view rack.old) (R.view rack.new) }
{
    rack.sync()?;
    write_page_durably(rack, pass_gate(k), &gate_page())
}
