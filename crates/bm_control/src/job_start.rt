//! Opening a job.

ghost use Rattle.std.specs.Prelude.{◌≡◌, ◌⊎◌, ◌+◌, ◌*◌, ◌<◌, ◌≤◌, ℕ, IsTrue, IsOk, IsErr, OnOk};
ghost use Rattle.std.specs.Prelude.{length};
ghost use Rattle.bm_base.specs.Contents.{page_at};
ghost use Rattle.bm_base.specs.Gate.{IsOpenGate, IsClosedGate};
ghost use Rattle.bm_rack.specs.RackView.{IsAttached, IsClean};
ghost use Rattle.bm_rack.specs.Image.{InEveryImage};
ghost use Rattle.bm_rack.specs.Frames.{RackCall, MakesPageCalls};
ghost use Rattle.bm_rack.specs.Calls.{IsPage};
ghost use Rattle.bm_forms.specs.PassForm.{IsOfShape};
ghost use Rattle.bm_forms.specs.Plan.{StandsFor};
ghost use Rattle.bm_base.specs.Shape.{loads_of};
ghost use Rattle.bm_control.specs.Bodies.{JobBodyFits, IsPassBody};
ghost use Rattle.bm_control.specs.Moments.{JobIsWritten, PassesAreWritten};
ghost use Rattle.bm_control.specs.Pages.{HasOpenLoad, HasOpenJob, HasClosedJob, HasLoadBody};
ghost use Rattle.bm_control.specs.Pages.{HasJobBody};
ghost use Rattle.bm_control.specs.Pages as page;
ghost use Rattle.bm_control.specs.PageCalls.{IsPassPage, IsSlotGate, IsJobPage};
ghost use Rattle.bm_control.specs.PageCalls.{IsStartPage};
ghost use Rattle.bm_control.specs.Sound.{IsSound};

use crate::durable::write_page_durably;
use crate::gates::gate_page;
use crate::job_body::encode_job;
use crate::pages::{JOB_BODY, JOB_GATE, pass_body, pass_gate, slot_gate};
use crate::pass_body::encode_pass;
use bm_base::{Failed, PAGE_BYTES, Shape};
use bm_forms::{Job, PassForm, Plan};
use bm_rack::Rack;

/// Opens a job on a rack whose load gate is open and whose job gate is closed in every image, for
/// the records that are loaded.
///
/// The plan is one of the shape, with 1 to Q passes. `every` is the number of loads of a pass after
/// which progress is made durable, 1 to N/M. All pages of the job are made durable before its gate
/// is written. A rack that is sound stays sound at each exit, where the plan stands for the job.
pub fn start_job<R: Rack>(
    rack: &mut R,
    shape: &Shape,
    job: &Job,
    plan: &Plan,
    every: u64,
) -> Result<(), Failed>
    requires ready { IsAttached (R.view rack.old).attached }
    requires shape { plan.now.shape ≡ shape.now }
    requires fits { JobBodyFits shape.now job.now (length plan.now.forms) every }
    ensures sound { IsTrue R.tells_stands → IsTrue R.tells_contents
        → StandsFor plan.now shape.now job.now
        → IsSound (R.view rack.old)
        → InEveryImage HasOpenLoad (R.view rack.old)
        → InEveryImage HasClosedJob (R.view rack.old)
        → HasLoadBody shape.now (R.view rack.old).contents
        → IsSound (R.view rack.new) }
    // A job that is open in some image is this one.
    ensures stored { IsTrue R.tells_stands → IsTrue R.tells_contents
        → InEveryImage HasClosedJob (R.view rack.old)
        → InEveryImage (λ v. HasOpenJob v
        → HasJobBody shape.now v job.now (length plan.now.forms) every) (R.view rack.new) }
    ensures clean { OnOk result (IsClean (R.view rack.new)) }
    ensures opened { IsTrue R.tells_contents
        → OnOk result (HasOpenJob (R.view rack.new).contents) }
    ensures written { IsTrue R.tells_contents
        → OnOk result
        (JobIsWritten shape.now job.now plan.now.forms every (R.view rack.new).contents) }
    ensures call { RackCall (IsStartPage (length plan.now.forms) (every < loads_of shape.now))
        (IsErr result) (R.view rack.old) (R.view rack.new) }
    ensures whole_passes { every ≡ loads_of shape.now
        → MakesPageCalls (IsOk result) (2 + 2 * length plan.now.forms) 2
        (R.view rack.old) (R.view rack.new) }
    ensures parts { every < loads_of shape.now
        → MakesPageCalls (IsOk result) (4 + 2 * length plan.now.forms) 2
        (R.view rack.old) (R.view rack.new) }
{
    write_job(rack, shape, job, plan, every)?;
    rack.sync()?;
    write_page_durably(rack, JOB_GATE, &gate_page())
}

// Writes all pages of the job but its gate.
fn write_job<R: Rack>(
    rack: &mut R,
    shape: &Shape,
    job: &Job,
    plan: &Plan,
    every: u64,
) -> Result<(), Failed>
    requires ready { IsAttached (R.view rack.old).attached }
    requires shape { plan.now.shape ≡ shape.now }
    requires fits { JobBodyFits shape.now job.now (length plan.now.forms) every }
    ensures written { IsTrue R.tells_contents → IsOk result
        → JobIsWritten shape.now job.now plan.now.forms every (R.view rack.new).contents }
    ensures call { RackCall (IsJobPage (length plan.now.forms) (every < loads_of shape.now))
        (IsErr result) (R.view rack.old) (R.view rack.new) }
    ensures whole_passes { every ≡ loads_of shape.now
        → MakesPageCalls (IsOk result) (1 + 2 * length plan.now.forms) 0
        (R.view rack.old) (R.view rack.new) }
    ensures parts { every < loads_of shape.now
        → MakesPageCalls (IsOk result) (3 + 2 * length plan.now.forms) 0
        (R.view rack.old) (R.view rack.new) }
{
    let body = encode_job(shape, job, plan.len(), every);
    rack.write_page(JOB_BODY, &body)?;
    write_passes(rack, shape, plan)?;
    if every == shape.loads() {
        return Ok(());
    }
    close_slots(rack)
}

// Writes the body of each pass, and closes its gate by zeros.
fn write_passes<R: Rack>(rack: &mut R, shape: &Shape, plan: &Plan) -> Result<(), Failed>
    requires ready { IsAttached (R.view rack.old).attached }
    requires shape { plan.now.shape ≡ shape.now }
    requires few { length plan.now.forms ≤ 254 }
    ensures written { IsTrue R.tells_contents → IsOk result
        → PassesAreWritten shape.now plan.now.forms (length plan.now.forms)
        (R.view rack.new).contents }
    ensures call { RackCall (IsPassPage (length plan.now.forms)) (IsErr result)
        (R.view rack.old) (R.view rack.new) }
    ensures counts { MakesPageCalls (IsOk result) (2 * length plan.now.forms) 0
        (R.view rack.old) (R.view rack.new) }
{
    for k in 0..plan.len() {
        write_pass(rack, shape, plan.at(k), k)?;
    }
    Ok(())
}

// Writes the body of pass k + 1, and closes its gate by zeros.
fn write_pass<R: Rack>(rack: &mut R, shape: &Shape, pass: &PassForm, k: u16) -> Result<(), Failed>
    requires ready { IsAttached (R.view rack.old).attached }
    requires shape { IsOfShape shape.now pass.now }
    requires number { k < 254 }
    ensures body { IsTrue R.tells_contents → IsOk result
        → IsPassBody shape.now k (page_at (R.view rack.new).contents (page.pass_body k)) pass.now }
    ensures gate { IsTrue R.tells_contents → IsOk result
        → page.IsZeroPage (page_at (R.view rack.new).contents (page.pass_gate k)) }
    ensures call { RackCall (λ u. IsPage (page.pass_body k) u ⊎ IsPage (page.pass_gate k) u) (IsErr result)
        (R.view rack.old) (R.view rack.new) }
    ensures counts { MakesPageCalls (IsOk result) 2 0 (R.view rack.old) (R.view rack.new) }
{
    let body = encode_pass(shape, pass, k);
    rack.write_page(pass_body(k), &body)?;
    rack.write_page(pass_gate(k), &[0; PAGE_BYTES])
}

// Closes the gates of both slots by zeros.
fn close_slots<R: Rack>(rack: &mut R) -> Result<(), Failed>
    requires { IsAttached (R.view rack.old).attached }
    ensures first { IsTrue R.tells_contents → IsOk result
        → page.IsZeroPage (page_at (R.view rack.new).contents (page.slot_gate 0)) }
    ensures second { IsTrue R.tells_contents → IsOk result
        → page.IsZeroPage (page_at (R.view rack.new).contents (page.slot_gate 1)) }
    ensures call { RackCall IsSlotGate (IsErr result) (R.view rack.old) (R.view rack.new) }
    ensures counts { MakesPageCalls (IsOk result) 2 0 (R.view rack.old) (R.view rack.new) }
{
    rack.write_page(slot_gate(0), &[0; PAGE_BYTES])?;
    rack.write_page(slot_gate(1), &[0; PAGE_BYTES])
}
