//! The job gate: whether a job is open.

ghost use Rattle.std.specs.Prelude.{◌≡◌, IsTrue, IsOk, IsErr, OnOk};
ghost use Rattle.bm_base.specs.Contents.{page_at};
ghost use Rattle.bm_base.specs.Gate.{IsOpenGate, IsClosedGate};
ghost use Rattle.bm_rack.specs.RackView.{IsAttached, IsClean};
ghost use Rattle.bm_rack.specs.Frames.{RackCall, MakesPageCalls};
ghost use Rattle.bm_rack.specs.Calls.{IsPage};
ghost use Rattle.bm_control.specs.Sound.{IsSound};
ghost use Rattle.bm_control.specs.Pages.{job_gate, HasOpenJob, IsZeroPage};

use crate::durable::write_page_durably;
use crate::pages::JOB_GATE;
use bm_base::{Failed, PAGE_BYTES};
use bm_rack::Rack;

/// Closes the job gate: writes 512 zeros on it.
///
/// A rack that is sound, with nothing dirty and the job gate open, stays sound at each exit. A gate
/// that is closed already must not be closed again: a page that is written has images of any bytes,
/// an open gate among them.
pub fn close_job<R: Rack>(rack: &mut R) -> Result<(), Failed>
    requires { IsAttached (R.view rack.old).attached }
    ensures sound { IsTrue R.tells_stands → IsTrue R.tells_contents
        → IsSound (R.view rack.old) → IsClean (R.view rack.old)
        → HasOpenJob (R.view rack.old).contents
        → IsSound (R.view rack.new) }
    ensures clean { OnOk result (IsClean (R.view rack.new)) }
    ensures closed { IsTrue R.tells_contents
        → OnOk result (IsZeroPage (page_at (R.view rack.new).contents job_gate)) }
    ensures call { RackCall (IsPage job_gate) (IsErr result) (R.view rack.old) (R.view rack.new) }
    ensures counts { MakesPageCalls (IsOk result) 1 1 (R.view rack.old) (R.view rack.new) }
{
    write_page_durably(rack, JOB_GATE, &[0; PAGE_BYTES])
}
