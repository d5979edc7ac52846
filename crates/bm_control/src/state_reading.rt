//! Reading the control file.

ghost use Rattle.std.specs.Prelude.{◌≡◌, ◌<◌, ◌≤◌, ◌+◌, ◌*◌, ℕ, IsTrue, IsOk, IfOk, IsErrOf};
ghost use Rattle.bm_base.specs.Contents.{Contents, page_at};
ghost use Rattle.bm_forms.specs.PassForm.{IsOfShape};
ghost use Rattle.bm_rack.specs.RackView.{IsAttached};
ghost use Rattle.bm_rack.specs.Frames.{SameState, Keeps, HasCause, RaisesCounts, MakesPageCalls};
ghost use Rattle.bm_base.specs.Shape.{loads_of};
ghost use Rattle.bm_control.specs.Bodies.{IsPassBody};
ghost use Rattle.bm_control.specs.PageCalls.{ReadsPages};
ghost use Rattle.bm_control.specs.Pages as page;
ghost use Rattle.bm_control.specs.Sound.{IsSound};
ghost use Rattle.bm_control.specs.State.{StateAnswer, StateFits, JobAnswer, PartFits};
ghost use Rattle.bm_control.specs.State.{ProgressAnswer, PassBodyAnswer};
ghost use Rattle.bm_control.specs.StateCalls.{StateCalls, StatePages, JobCalls, JobPages};
ghost use Rattle.bm_control.specs.StateCalls.{SlotCalls, SlotReads};

use crate::gates::is_gate;
use crate::job_body::decode_job;
use crate::load_body::decode_load;
use crate::pages::{JOB_BODY, JOB_GATE, LOAD_BODY, LOAD_GATE, pass_body};
use crate::pass_body::decode_pass;
use crate::pass_pages::read_passes;
use crate::slots::read_slots;
use crate::state::{ControlError, SlateState, page_of};
use bm_base::Shape;
use bm_forms::PassForm;
use bm_rack::Rack;

/// Reads what the control file tells, and changes nothing but counts.
///
/// It reads the load gate, where it is open the load body and the job gate, where that is open the
/// job body and the pages of each pass in order, and where the job has slots the gate of each,
/// followed by its body where it is open. The first page that is wrong is the answer. On a sound
/// rack no page is.
pub fn read_state<R: Rack>(rack: &mut R) -> Result<SlateState, ControlError>
    requires { IsAttached (R.view rack.old).attached }
    ensures answer { IsTrue R.tells_contents → StateAnswer (R.view rack.old).contents result }
    ensures fits { IfOk result StateFits }
    ensures good { IsTrue R.tells_stands → IsTrue R.tells_contents → IsSound (R.view rack.old)
        → (page : ℕ) → ¬ IsErrOf result (ControlError.BadPage page) }
    ensures state { SameState (R.view rack.old) (R.view rack.new) }
    ensures counts { StateCalls result (R.view rack.old) (R.view rack.new) }
    ensures pages { IsTrue R.tells_contents
        → StatePages (R.view rack.old).contents (R.view rack.old) (R.view rack.new) }
    ensures slots { IsTrue R.tells_contents
        → IfOk result (λ state. SlotCalls (R.view rack.old).contents 4 state
        (R.view rack.old) (R.view rack.new)) }
    ensures keeps { Keeps (R.view rack.old) (R.view rack.new) }
    ensures cause { HasCause (IsErrOf result ControlError.Failed)
        (R.view rack.old) (R.view rack.new) }
{
    let load_gate = page_of(rack, LOAD_GATE)?;
    if !is_gate(&load_gate) {
        return Ok(SlateState::Closed);
    }
    let load_body = page_of(rack, LOAD_BODY)?;
    let Some(shape) = decode_load(&load_body) else {
        return Err(ControlError::BadPage { page: LOAD_BODY });
    };
    let job_gate = page_of(rack, JOB_GATE)?;
    if !is_gate(&job_gate) {
        return Ok(SlateState::Loaded { shape });
    }
    read_job_state(rack, &shape)
}

// Reads the pages of an open job.
fn read_job_state<R: Rack>(rack: &mut R, shape: &Shape) -> Result<SlateState, ControlError>
    requires { IsAttached (R.view rack.old).attached }
    ensures answer { IsTrue R.tells_contents → (v : Contents) → (R.view rack.old).contents ≡ v
        → JobAnswer shape.now v result }
    ensures fits { IfOk result StateFits }
    ensures state { SameState (R.view rack.old) (R.view rack.new) }
    ensures counts { JobCalls result (R.view rack.old) (R.view rack.new) }
    ensures pages { IsTrue R.tells_contents → (v : Contents) → (R.view rack.old).contents ≡ v
        → JobPages shape.now v (R.view rack.old) (R.view rack.new) }
    ensures slots { IsTrue R.tells_contents → (v : Contents) → (R.view rack.old).contents ≡ v
        → IfOk result (λ state. SlotCalls v 1 state (R.view rack.old) (R.view rack.new)) }
    ensures keeps { Keeps (R.view rack.old) (R.view rack.new) }
    ensures cause { HasCause (IsErrOf result ControlError.Failed)
        (R.view rack.old) (R.view rack.new) }
{
    let body = page_of(rack, JOB_BODY)?;
    let Some(found) = decode_job(shape, &body) else {
        return Err(ControlError::BadPage { page: JOB_BODY });
    };
    let (job, passes, every) = found;
    let (done, part, slot) = read_progress(rack, shape, passes, every)?;
    Ok(SlateState::Working {
        shape: *shape,
        job,
        passes,
        done,
        every,
        part,
        slot,
    })
}

// Reads the pages of a job's passes and slots. The answer is the number of passes done, the number
// of loads that are counted of the next one, and the slot that counts them.
fn read_progress<R: Rack>(
    rack: &mut R,
    shape: &Shape,
    passes: u16,
    every: u64,
) -> Result<(u16, u64, u8), ControlError>
    requires ready { IsAttached (R.view rack.old).attached }
    requires passes { passes ≤ 254 }
    requires every { every ≤ loads_of shape.now }
    ensures answer { IsTrue R.tells_contents → (v : Contents) → (R.view rack.old).contents ≡ v
        → ProgressAnswer shape.now v passes every result }
    ensures done { IfOk result (λ r. r.0 ≤ passes) }
    ensures fits { IfOk result (λ r. PartFits shape.now passes r.0 every r.1 r.2) }
    ensures state { SameState (R.view rack.old) (R.view rack.new) }
    ensures counts { ReadsPages 0 (4 + 2 * passes) (R.view rack.old) (R.view rack.new) }
    ensures least { IfOk result (λ r.
        ReadsPages (2 * passes) (4 + 2 * passes) (R.view rack.old) (R.view rack.new)) }
    ensures whole { every ≡ loads_of shape.now
        → MakesPageCalls (IsOk result) (2 * passes) 0 (R.view rack.old) (R.view rack.new) }
    ensures gates { IsTrue R.tells_contents → (v : Contents) → (R.view rack.old).contents ≡ v
        → every < loads_of shape.now → (one two : ℕ) → SlotReads v 0 one → SlotReads v 1 two
        → MakesPageCalls (IsOk result) (2 * passes + (one + two)) 0
        (R.view rack.old) (R.view rack.new) }
    ensures keeps { Keeps (R.view rack.old) (R.view rack.new) }
    ensures cause { HasCause (IsErrOf result ControlError.Failed)
        (R.view rack.old) (R.view rack.new) }
{
    let done = read_passes(rack, shape, passes)?;
    let (part, slot) = read_slots(rack, shape, passes, done, every)?;
    Ok((done, part, slot))
}

/// Reads the body of pass k + 1, and changes nothing but counts. k is below 256.
///
/// `BadPage` where it is no pass's body for this shape.
pub fn read_pass<R: Rack>(rack: &mut R, shape: &Shape, k: u16) -> Result<PassForm, ControlError>
    requires ready { IsAttached (R.view rack.old).attached }
    requires number { k < 256 }
    ensures answer { IsTrue R.tells_contents
        → PassBodyAnswer shape.now k (page_at (R.view rack.old).contents (page.pass_body k)) result }
    ensures of_shape { IfOk result (λ pass. IsOfShape shape.now pass) }
    ensures state { SameState (R.view rack.old) (R.view rack.new) }
    ensures counts { RaisesCounts 0 1 0 (R.view rack.old) (R.view rack.new) }
    ensures keeps { Keeps (R.view rack.old) (R.view rack.new) }
    ensures cause { HasCause (IsErrOf result ControlError.Failed)
        (R.view rack.old) (R.view rack.new) }
{
    let body = page_of(rack, pass_body(k))?;
    match decode_pass(shape, k, &body) {
        Some(pass) => Ok(pass),
        None => Err(ControlError::BadPage { page: pass_body(k) }),
    }
}
