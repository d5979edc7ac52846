//! Progress that is made durable after a load.

ghost use Rattle.std.specs.Prelude.{◌≡◌, ◌≢◌, ◌+◌, ◌%◌, ◌<◌, ◌≤◌, ℕ, IsTrue, IfOk, IsErrOf};
ghost use Rattle.std.specs.Prelude.{IsOkUnless, Some, None};
ghost use Rattle.bm_base.specs.Shape.{dims_of, loads_of};
ghost use Rattle.bm_forms.specs.PassForm.{IsOfShape};
ghost use Rattle.bm_rack.specs.RackView.{RackView};
ghost use Rattle.bm_rack.specs.Frames.{RackCall, MakesPageCalls};
ghost use Rattle.bm_rack.specs.Calls.{IsPage};
ghost use Rattle.bm_control.specs.PageCalls.{IsSlotPage};
ghost use Rattle.bm_control.specs.Sound.{IsSound};
ghost use Rattle.bm_job.specs.Follows.{Follows, Holds, IsNext};
ghost use Rattle.bm_job.specs.Turns.{KeepsForm, IsNextOf, IsLastLoad, IsMarked, IsTurnUnit};
ghost use Rattle.bm_job.specs.Turns.{free_slot, durable_pages, durable_syncs};
ghost use Rattle.bm_control.specs.Pages.{pass_gate};

use crate::answers::RunError;
use crate::machine::Machine;
use bm_base::NO_SLOT;
use bm_control::{mark_part, open_gate};
use bm_forms::PassForm;
use bm_rack::Rack;

// The slot that progress is written to where this one is counted.
fn free_of(slot: u8) -> u8
    ensures slot { result ≡ free_slot slot }
    ensures range { result < 2 }
{
    if slot == 0 { 1 } else { 0 }
}

// Opens the gate of the pass under way, all of whose loads are moved.
fn finish_pass<R: Rack>(machine: &Machine, rack: &mut R) -> Result<Machine, RunError>
    requires attached { (R.view rack.old).attached ≡ Some (dims_of machine.now.shape) }
    requires left { machine.now.done < machine.now.passes }
    requires last { IsLastLoad machine.now }
    requires alive { IsTrue machine.now.alive }
    ensures next { IfOk result (λ next. IsNextOf machine.now next) }
    ensures form { IfOk result (λ next. next.form ≡ None) }
    ensures follows { IsTrue R.tells_stands → IsTrue R.tells_contents
        → Holds machine.now (machine.now.load + 1) (R.view rack.old)
        → IfOk result (λ next. Follows next (R.view rack.new)) }
    ensures sound { IsTrue R.tells_stands → IsTrue R.tells_contents
        → Holds machine.now (machine.now.load + 1) (R.view rack.old) → IsSound (R.view rack.new) }
    ensures failed { IsOkUnless result RunError.Failed }
    ensures call { RackCall (IsPage (pass_gate machine.now.done)) (IsErrOf result RunError.Failed)
        (R.view rack.old) (R.view rack.new) }
    ensures counts { MakesPageCalls ⊥ 1 2 (R.view rack.old) (R.view rack.new) }
{
    open_gate(rack, machine.done)?;
    Ok(Machine {
        shape: machine.shape,
        job: machine.job,
        passes: machine.passes,
        done: machine.done + 1,
        every: machine.every,
        part: 0,
        slot: NO_SLOT,
        load: 0,
        form: None,
        alive: true,
    })
}

// Counts the loads that are moved, one more than the machine has.
fn mark_loads<R: Rack>(
    machine: &Machine,
    form: &PassForm,
    rack: &mut R,
) -> Result<Machine, RunError>
    requires attached { (R.view rack.old).attached ≡ Some (dims_of machine.now.shape) }
    requires left { machine.now.done < machine.now.passes }
    requires marked { IsMarked machine.now }
    requires of_shape { IsOfShape machine.now.shape form.now }
    requires alive { IsTrue machine.now.alive }
    ensures next { IfOk result (λ next. IsNextOf machine.now next) }
    ensures form { IfOk result (λ next. KeepsForm form.now next.form) }
    ensures follows { IsTrue R.tells_stands → IsTrue R.tells_contents
        → Holds machine.now (machine.now.load + 1) (R.view rack.old)
        → IsNext machine.now.shape machine.now.done (R.view rack.old).contents form.now
        → IfOk result (λ next. Follows next (R.view rack.new)) }
    ensures sound { IsTrue R.tells_stands → IsTrue R.tells_contents
        → Holds machine.now (machine.now.load + 1) (R.view rack.old) → IsSound (R.view rack.new) }
    ensures failed { IsOkUnless result RunError.Failed }
    ensures call { RackCall (IsSlotPage (free_slot machine.now.slot)) (IsErrOf result RunError.Failed)
        (R.view rack.old) (R.view rack.new) }
    ensures counts { MakesPageCalls ⊥ 4 3 (R.view rack.old) (R.view rack.new) }
{
    let load = machine.load + 1;
    let slot = free_of(machine.slot);
    mark_part(rack, &machine.shape, slot, machine.done + 1, load)?;
    Ok(Machine {
        shape: machine.shape,
        job: machine.job,
        passes: machine.passes,
        done: machine.done,
        every: machine.every,
        part: load,
        slot,
        load,
        form: Some(*form),
        alive: true,
    })
}

// The machine after a load that ends no pass and is not counted.
fn after_load(machine: &Machine, form: &PassForm) -> Machine
    requires within { machine.now.load + 1 < loads_of machine.now.shape }
    requires unmarked { (machine.now.load + 1) % machine.now.every ≢ 0 }
    requires left { machine.now.done < machine.now.passes }
    requires of_shape { IsOfShape machine.now.shape form.now }
    requires alive { IsTrue machine.now.alive }
    ensures next { IsNextOf machine.now result }
    ensures form { KeepsForm form.now result.form }
    ensures follows { (v : RackView) → Holds machine.now (machine.now.load + 1) v
        → IsNext machine.now.shape machine.now.done v.contents form.now → Follows result v }
{
    Machine {
        shape: machine.shape,
        job: machine.job,
        passes: machine.passes,
        done: machine.done,
        every: machine.every,
        part: machine.part,
        slot: machine.slot,
        load: machine.load + 1,
        form: Some(*form),
        alive: true,
    }
}

/// The machine after a load that was moved: it opens the pass's gate after the last one, and counts
/// the loads where that is due.
pub fn make_durable<R: Rack>(
    machine: &Machine,
    form: &PassForm,
    rack: &mut R,
) -> Result<Machine, RunError>
    requires attached { (R.view rack.old).attached ≡ Some (dims_of machine.now.shape) }
    requires left { machine.now.done < machine.now.passes }
    requires of_shape { IsOfShape machine.now.shape form.now }
    requires alive { IsTrue machine.now.alive }
    ensures next { IfOk result (λ next. IsNextOf machine.now next) }
    ensures form { IfOk result (λ next. KeepsForm form.now next.form) }
    ensures follows { IsTrue R.tells_stands → IsTrue R.tells_contents
        → Holds machine.now (machine.now.load + 1) (R.view rack.old)
        → IsNext machine.now.shape machine.now.done (R.view rack.old).contents form.now
        → IfOk result (λ next. Follows next (R.view rack.new)) }
    ensures sound { IsTrue R.tells_stands → IsTrue R.tells_contents
        → Holds machine.now (machine.now.load + 1) (R.view rack.old) → IsSound (R.view rack.new) }
    ensures failed { IsOkUnless result RunError.Failed }
    ensures call { RackCall (IsTurnUnit machine.now) (IsErrOf result RunError.Failed)
        (R.view rack.old) (R.view rack.new) }
    ensures counts { MakesPageCalls ⊥ (durable_pages machine.now) (durable_syncs machine.now)
        (R.view rack.old) (R.view rack.new) }
{
    let load = machine.load + 1;
    if load == machine.shape.loads() {
        return finish_pass(machine, rack);
    }
    if load % machine.every != 0 {
        return Ok(after_load(machine, form));
    }
    mark_loads(machine, form, rack)
}
