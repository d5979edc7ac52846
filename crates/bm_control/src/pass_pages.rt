//! Reading the pages of the passes.

ghost use Rattle.std.specs.Prelude.{◌≡◌, ◌<◌, ◌≤◌, ◌+◌, ◌*◌, ℕ, IsTrue, IsOk, IfOk, IsErrOf};
ghost use Rattle.bm_base.specs.Contents.{Contents};
ghost use Rattle.bm_rack.specs.RackView.{IsAttached};
ghost use Rattle.bm_rack.specs.Frames.{SameState, Keeps, HasCause, MakesPageCalls};
ghost use Rattle.bm_control.specs.State.{PassAnswer, PassesAnswer};

use crate::gates::is_gate;
use crate::pages::{pass_body, pass_gate};
use crate::pass_body::decode_pass;
use crate::state::{ControlError, page_of};
use bm_base::Shape;
use bm_rack::Rack;

// Reads the body and the gate of pass k + 1, where `done` of the passes before it are done. The
// answer is how many are done with it.
fn read_pass_pages<R: Rack>(
    rack: &mut R,
    shape: &Shape,
    k: u16,
    done: u16,
) -> Result<u16, ControlError>
    requires ready { IsAttached (R.view rack.old).attached }
    requires number { k < 254 }
    requires done { done ≤ k }
    ensures answer { IsTrue R.tells_contents → (v : Contents) → (R.view rack.old).contents ≡ v
        → PassAnswer shape.now v k done result }
    ensures done { IfOk result (λ next. next ≤ k + 1) }
    ensures state { SameState (R.view rack.old) (R.view rack.new) }
    ensures counts { MakesPageCalls (IsOk result) 2 0 (R.view rack.old) (R.view rack.new) }
    ensures keeps { Keeps (R.view rack.old) (R.view rack.new) }
    ensures cause { HasCause (IsErrOf result ControlError.Failed)
        (R.view rack.old) (R.view rack.new) }
{
    let body = page_of(rack, pass_body(k))?;
    let Some(_) = decode_pass(shape, k, &body) else {
        return Err(ControlError::BadPage { page: pass_body(k) });
    };
    let gate = page_of(rack, pass_gate(k))?;
    if !is_gate(&gate) {
        return Ok(done);
    }
    if done < k {
        return Err(ControlError::BadPage { page: pass_gate(k) });
    }
    Ok(k + 1)
}

/// Reads the bodies and gates of the passes in order. The answer is how many passes are done.
pub fn read_passes<R: Rack>(rack: &mut R, shape: &Shape, passes: u16) -> Result<u16, ControlError>
    requires ready { IsAttached (R.view rack.old).attached }
    requires passes { passes ≤ 254 }
    ensures answer { IsTrue R.tells_contents → (v : Contents) → (R.view rack.old).contents ≡ v
        → PassesAnswer shape.now v passes result }
    ensures done { IfOk result (λ done. done ≤ passes) }
    ensures state { SameState (R.view rack.old) (R.view rack.new) }
    ensures counts { MakesPageCalls (IsOk result) (2 * passes) 0 (R.view rack.old) (R.view rack.new) }
    ensures keeps { Keeps (R.view rack.old) (R.view rack.new) }
    ensures cause { HasCause (IsErrOf result ControlError.Failed)
        (R.view rack.old) (R.view rack.new) }
{
    let mut done = 0;
    for k in 0..passes {
        done = read_pass_pages(rack, shape, k, done)?;
    }
    Ok(done)
}
