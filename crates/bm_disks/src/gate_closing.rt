//! Gates that are closed where they are open.

ghost use Rattle.std.specs.Prelude.{◌≡◌, ◌↔◌, ◌+◌, ◌<◌, ℕ, IsTrue, IsOk, IsErr, OnOk, IfOk};
ghost use Rattle.bm_base.specs.Contents.{page_at};
ghost use Rattle.bm_base.specs.Gate.{IsOpenGate, IsClosedGate};
ghost use Rattle.bm_rack.specs.RackView.{IsAttached, IsClean};
ghost use Rattle.bm_rack.specs.Calls.{IsPage};
ghost use Rattle.bm_rack.specs.Frames.{RackCall, SameState, RaisesCounts, Keeps, HasCause, MakesPageCalls};
ghost use Rattle.bm_control.specs.Closing.{IsShut};
ghost use Rattle.bm_control.specs.Pages.{load_gate, job_gate};
ghost use Rattle.bm_control.specs.Sound.{IsSound};
ghost use Rattle.bm_disks.specs.Loading.{IsGatePage, IsLoadShut, IsClosing};

use bm_base::{Failed, PAGE_BYTES};
use bm_control::pages::{JOB_GATE, LOAD_GATE};
use bm_control::{close_job, close_load, is_gate};
use bm_rack::Rack;

// Whether a gate is open. The page is below 516.
fn is_open<R: Rack>(rack: &mut R, gate: u16) -> Result<bool, Failed>
    requires attached { IsAttached (R.view rack.old).attached }
    requires page { gate < 516 }
    ensures answer { IsTrue R.tells_contents → IfOk result (λ is_open. IsTrue is_open
        ↔ IsOpenGate (page_at (R.view rack.old).contents gate)) }
    ensures state { SameState (R.view rack.old) (R.view rack.new) }
    ensures counts { RaisesCounts 0 1 0 (R.view rack.old) (R.view rack.new) }
    ensures keeps { Keeps (R.view rack.old) (R.view rack.new) }
    ensures cause { HasCause (IsErr result) (R.view rack.old) (R.view rack.new) }
{
    let mut page = [0; PAGE_BYTES];
    rack.read_page(gate, &mut page)?;
    Ok(is_gate(&page))
}

/// Whether a job is open: its gate is.
pub fn is_job_open<R: Rack>(rack: &mut R) -> Result<bool, Failed>
    requires { IsAttached (R.view rack.old).attached }
    ensures answer { IsTrue R.tells_contents → IfOk result (λ is_open. IsTrue is_open
        ↔ IsOpenGate (page_at (R.view rack.old).contents job_gate)) }
    ensures state { SameState (R.view rack.old) (R.view rack.new) }
    ensures counts { RaisesCounts 0 1 0 (R.view rack.old) (R.view rack.new) }
    ensures keeps { Keeps (R.view rack.old) (R.view rack.new) }
    ensures cause { HasCause (IsErr result) (R.view rack.old) (R.view rack.new) }
{
    is_open(rack, JOB_GATE)
}

// Closes the job gate where it is open, and else leaves it.
fn shut_job<R: Rack>(rack: &mut R) -> Result<(), Failed>
    requires { IsAttached (R.view rack.old).attached }
    ensures shut { IsTrue R.tells_contents
        → OnOk result (IsShut (page_at (R.view rack.old).contents job_gate)
        (page_at (R.view rack.new).contents job_gate)) }
    ensures sound { IsTrue R.tells_stands → IsTrue R.tells_contents
        → IsSound (R.view rack.old) → IsClean (R.view rack.old) → IsSound (R.view rack.new) }
    ensures clean { IsClean (R.view rack.old) → OnOk result (IsClean (R.view rack.new)) }
    ensures call { RackCall (IsPage job_gate) (IsErr result) (R.view rack.old) (R.view rack.new) }
    ensures counts { MakesPageCalls ⊥ 2 1 (R.view rack.old) (R.view rack.new) }
    ensures exact { IsTrue R.tells_contents → IsOk result → (calls : ℕ)
        → IsClosing (page_at (R.view rack.old).contents job_gate) calls
        → RaisesCounts 0 (1 + calls) calls (R.view rack.old) (R.view rack.new) }
{
    if is_open(rack, JOB_GATE)? {
        close_job(rack)
    } else {
        Ok(())
    }
}

// Closes the load gate where it is open, and else leaves it. No job is open.
fn shut_load<R: Rack>(rack: &mut R) -> Result<(), Failed>
    requires { IsAttached (R.view rack.old).attached }
    ensures shut { IsTrue R.tells_contents
        → OnOk result (IsClosedGate (page_at (R.view rack.new).contents load_gate)) }
    ensures sound { IsTrue R.tells_stands → IsTrue R.tells_contents
        → IsSound (R.view rack.old) → IsClean (R.view rack.old)
        → IsClosedGate (page_at (R.view rack.old).contents job_gate) → IsSound (R.view rack.new) }
    ensures stays { IsTrue R.tells_contents
        → IsLoadShut (R.view rack.old) → IsLoadShut (R.view rack.new) }
    ensures clean { IsClean (R.view rack.old) → OnOk result (IsClean (R.view rack.new)) }
    ensures call { RackCall (IsPage load_gate) (IsErr result) (R.view rack.old) (R.view rack.new) }
    ensures counts { MakesPageCalls ⊥ 2 1 (R.view rack.old) (R.view rack.new) }
    ensures exact { IsTrue R.tells_contents → IsOk result → (calls : ℕ)
        → IsClosing (page_at (R.view rack.old).contents load_gate) calls
        → RaisesCounts 0 (1 + calls) calls (R.view rack.old) (R.view rack.new) }
{
    if is_open(rack, LOAD_GATE)? {
        close_load(rack)
    } else {
        Ok(())
    }
}

/// Makes durable what was written, and closes the job gate and then the load gate, each where it is
/// open.
///
/// Nothing is written on a gate that is closed: a page that is written has images of any bytes, an
/// open gate among them. A rack that is sound stays sound at each exit, and a load gate that no
/// stop opens stays so.
pub fn shut_gates<R: Rack>(rack: &mut R) -> Result<(), Failed>
    requires { IsAttached (R.view rack.old).attached }
    ensures job_gate { IsTrue R.tells_contents
        → OnOk result (IsShut (page_at (R.view rack.old).contents job_gate)
        (page_at (R.view rack.new).contents job_gate)) }
    ensures load_gate { IsTrue R.tells_contents
        → OnOk result (IsClosedGate (page_at (R.view rack.new).contents load_gate)) }
    ensures sound { IsTrue R.tells_stands → IsTrue R.tells_contents
        → IsSound (R.view rack.old) → IsSound (R.view rack.new) }
    ensures stays { IsTrue R.tells_contents
        → IsLoadShut (R.view rack.old) → IsLoadShut (R.view rack.new) }
    ensures clean { OnOk result (IsClean (R.view rack.new)) }
    ensures call { RackCall IsGatePage (IsErr result) (R.view rack.old) (R.view rack.new) }
    ensures counts { MakesPageCalls ⊥ 4 3 (R.view rack.old) (R.view rack.new) }
    ensures exact { IsTrue R.tells_contents → IsOk result → (one three : ℕ)
        → IsClosing (page_at (R.view rack.old).contents load_gate) one
        → IsClosing (page_at (R.view rack.old).contents job_gate) three
        → RaisesCounts 0 (2 + (one + three)) (1 + (one + three))
        (R.view rack.old) (R.view rack.new) }
{
    rack.sync()?;
    shut_job(rack)?;
    shut_load(rack)
}
