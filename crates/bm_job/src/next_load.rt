//! A load of the pass under way.

ghost use Rattle.std.specs.Prelude.{◌≡◌, ◌≢◌, ◌+◌, ◌*◌, ◌<◌, ◌≤◌, ℕ, IsTrue, IsOk, IsErr, OnOk};
ghost use Rattle.std.specs.Prelude.{IfOk, IfErr, IsErrOf, Some, None};
ghost use Rattle.bm_base.specs.Area.{area_after};
ghost use Rattle.bm_base.specs.Shape.{dims_of, load_stripes};
ghost use Rattle.bm_bufs.specs.Bufs.{FitsShape};
ghost use Rattle.bm_forms.specs.PassForm.{IsOfShape};
ghost use Rattle.bm_rack.specs.Frames.{SameState, Keeps, HasCause, RaisesCounts, MovesRows};
ghost use Rattle.bm_rack.specs.Frames.{RackCall};
ghost use Rattle.bm_stripe.specs.Units.{IsAreaUnit};
ghost use Rattle.bm_control.specs.Sound.{IsSound};
ghost use Rattle.bm_job.specs.Follows.{Follows, IsHeld, IsNext, AreMoved};
ghost use Rattle.bm_rack.specs.Frames.{MakesCalls};
ghost use Rattle.bm_job.specs.Turns.{IsNextOf, IsTurnRefusal, HasRead, IsBadBody, IsTurnUnit};
ghost use Rattle.bm_job.specs.Turns.{form_pages, durable_pages, durable_syncs};

use crate::answers::RunError;
use crate::durable_step::make_durable;
use crate::machine::Machine;
use bm_base::{Failed, area_of};
use bm_bufs::Bufs;
use bm_control::read_pass;
use bm_forms::PassForm;
use bm_pass::load_step;
use bm_rack::Rack;

// The form of the pass under way, read from its body where the machine has not read it yet.
fn take_form<R: Rack>(machine: &Machine, rack: &mut R) -> Result<PassForm, RunError>
    requires attached { (R.view rack.old).attached ≡ Some (dims_of machine.now.shape) }
    requires left { machine.now.done < machine.now.passes }
    ensures of_shape { IfOk result (λ form. IsOfShape machine.now.shape form) }
    ensures next { IsTrue R.tells_contents → Follows machine.now (R.view rack.old)
        → IfOk result (λ form. IsNext machine.now.shape machine.now.done (R.view rack.new).contents form) }
    ensures read { IsTrue R.tells_contents → machine.now.form ≡ None
        → IfOk result (λ form. IsNext machine.now.shape machine.now.done (R.view rack.old).contents form) }
    ensures bad { IsTrue R.tells_contents → (page : ℕ) → IsErrOf result (RunError.BadPage page)
        → IsBadBody machine.now (R.view rack.old).contents page }
    ensures refusal { IfErr result (λ e. IsTurnRefusal e) }
    ensures state { SameState (R.view rack.old) (R.view rack.new) }
    ensures counts { RaisesCounts 0 (form_pages machine.now.form) 0 (R.view rack.old) (R.view rack.new) }
    ensures keeps { Keeps (R.view rack.old) (R.view rack.new) }
    ensures cause { HasCause (IsErrOf result RunError.Failed) (R.view rack.old) (R.view rack.new) }
{
    match machine.form {
        Some(form) => Ok(form),
        None => Ok(read_pass(rack, &machine.shape, machine.done)?),
    }
}

// Moves the next load of the pass under way, whose form this is.
fn move_load<R: Rack>(
    machine: &Machine,
    form: &PassForm,
    rack: &mut R,
    bufs: &mut Bufs,
) -> Result<(), Failed>
    requires attached { (R.view rack.old).attached ≡ Some (dims_of machine.now.shape) }
    requires left { machine.now.done < machine.now.passes }
    requires of_shape { IsOfShape machine.now.shape form.now }
    requires fits { FitsShape machine.now.shape bufs.old }
    ensures held { IsTrue R.tells_stands → IsTrue R.tells_contents → Follows machine.now (R.view rack.old)
        → IsNext machine.now.shape machine.now.done (R.view rack.old).contents form.now
        → IsHeld machine.now.shape machine.now.job machine.now.passes machine.now.done machine.now.every
        machine.now.part machine.now.slot (R.view rack.new) }
    ensures moved { IsTrue R.tells_contents → Follows machine.now (R.view rack.old)
        → IsNext machine.now.shape machine.now.done (R.view rack.old).contents form.now
        → OnOk result (AreMoved machine.now.shape machine.now.done (machine.now.load + 1) (R.view rack.new).contents) }
    ensures next { IsNext machine.now.shape machine.now.done (R.view rack.old).contents form.now
        → IsNext machine.now.shape machine.now.done (R.view rack.new).contents form.now }
    ensures call { RackCall (IsAreaUnit machine.now.shape (area_after (machine.now.done + 1))) (IsErr result)
        (R.view rack.old) (R.view rack.new) }
    ensures moves { MovesRows (2 * load_stripes machine.now.shape) (IsOk result)
        (R.view rack.old) (R.view rack.new) }
    ensures fits { FitsShape machine.now.shape bufs.new }
{
    let from = area_of(machine.done);
    let to = area_of(machine.done + 1);
    load_step(rack, &machine.shape, form, from, to, machine.load, bufs)
}

/// The machine after one load more. A pass is left.
pub fn advance<R: Rack>(
    machine: &Machine,
    rack: &mut R,
    bufs: &mut Bufs,
) -> Result<Machine, RunError>
    requires alive { IsTrue machine.now.alive }
    requires attached { (R.view rack.old).attached ≡ Some (dims_of machine.now.shape) }
    requires left { machine.now.done < machine.now.passes }
    requires fits { FitsShape machine.now.shape bufs.old }
    ensures next { IfOk result (λ next. IsNextOf machine.now next) }
    ensures read { IsTrue R.tells_contents → machine.now.form ≡ None
        → IfOk result (λ next. HasRead machine.now next (R.view rack.old).contents) }
    ensures follows { IsTrue R.tells_stands → IsTrue R.tells_contents
        → Follows machine.now (R.view rack.old) → IfOk result (λ next. Follows next (R.view rack.new)) }
    ensures sound { IsTrue R.tells_stands → IsTrue R.tells_contents
        → Follows machine.now (R.view rack.old) → IsSound (R.view rack.new) }
    ensures bad { IsTrue R.tells_contents → (page : ℕ) → IsErrOf result (RunError.BadPage page)
        → IsBadBody machine.now (R.view rack.old).contents page }
    ensures refusal { IfErr result (λ e. IsTurnRefusal e) }
    ensures call { RackCall (IsTurnUnit machine.now) (IsErrOf result RunError.Failed)
        (R.view rack.old) (R.view rack.new) }
    ensures counts { MakesCalls (IsOk result) (2 * load_stripes machine.now.shape)
        (form_pages machine.now.form + durable_pages machine.now) (durable_syncs machine.now)
        (R.view rack.old) (R.view rack.new) }
    ensures fits { FitsShape machine.now.shape bufs.new }
{
    let form = take_form(machine, rack)?;
    move_load(machine, &form, rack, bufs)?;
    make_durable(machine, &form, rack)
}
