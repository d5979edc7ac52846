//! Dropping a job.

ghost use Rattle.std.specs.Prelude.{◌≡◌, ◌+◌, IsTrue, IsOk, IsErrOf, OnOk};
ghost use Rattle.bm_base.specs.declared.dims.Dims.{Dims};
ghost use Rattle.bm_base.specs.Contents.{page_at};
ghost use Rattle.bm_rack.specs.RackView.{IsAttached, IsClean};
ghost use Rattle.bm_rack.specs.Calls.{IsPage};
ghost use Rattle.bm_rack.specs.Image.{SameInput};
ghost use Rattle.bm_rack.specs.Frames.{RackCall, MakesPageCalls};
ghost use Rattle.bm_control.specs.Pages.{job_gate};
ghost use Rattle.bm_control.specs.Sound.{IsSound};
ghost use Rattle.bm_disks.specs.Dropping.{DropAnswer};

use crate::gate_closing::is_job_open;
use bm_base::Failed;
use bm_control::close_job;
use bm_rack::Rack;

/// Why no job was dropped.
#[derive(Clone, Copy, Debug, PartialEq, Eq)]
pub enum DropError {
    /// The rack failed.
    Failed,
    /// No job is open.
    NoJob,
}

impl From<Failed> for DropError {
    ghost use Rattle.bm_disks.specs.declared.dropping.DropError.TheVariants as kind;

    ghost from_gives = { λ _ made. made ≡ kind.Failed };

    fn from(_error: Failed) -> DropError {
        DropError::Failed
    }
}

/// Closes the job that is open, whichever it is. No body is looked at, and not the load gate.
///
/// It syncs, reads the job gate, and closes it where it is open. `NoJob` exactly where it is
/// closed. All units but that page stay as they are. A rack that is sound stays sound at each exit.
pub fn drop_job<R: Rack>(rack: &mut R) -> Result<(), DropError>
    requires { IsAttached (R.view rack.old).attached }
    ensures answer { IsTrue R.tells_contents
        → DropAnswer (page_at (R.view rack.old).contents job_gate)
        (page_at (R.view rack.new).contents job_gate) result }
    ensures kept { result ≡ Err DropError.NoJob
        → (R.view rack.new).contents ≡ (R.view rack.old).contents }
    ensures clean { OnOk result (IsClean (R.view rack.new)) }
    ensures sound { IsTrue R.tells_stands → IsTrue R.tells_contents
        → IsSound (R.view rack.old) → IsSound (R.view rack.new) }
    ensures input { (dims : Dims) → SameInput dims (R.view rack.old) (R.view rack.new) }
    ensures call { RackCall (IsPage job_gate) (IsErrOf result DropError.Failed)
        (R.view rack.old) (R.view rack.new) }
    ensures counts { MakesPageCalls (IsOk result) 2 2 (R.view rack.old) (R.view rack.new) }
{
    rack.sync()?;
    if !is_job_open(rack)? {
        return Err(DropError::NoJob);
    }
    close_job(rack)?;
    Ok(())
}
