//! Beginning a job, or going on with one that is open.

ghost use Rattle.std.specs.Prelude.{◌≡◌, ◌≢◌, ◌+◌, ◌*◌, ◌<◌, ◌≤◌, ℕ, IsTrue, IsErr, OnOk, IfOk};
ghost use Rattle.std.specs.Prelude.{IfErr, IsErrOf, IsOkUnless, Some, length};
ghost use Rattle.bm_base.specs.declared.dims.Dims.{Dims};
ghost use Rattle.bm_base.specs.Contents.{Contents};
ghost use Rattle.bm_base.specs.Shape.{dims_of, loads_of};
ghost use Rattle.bm_rack.specs.RackView.{IsAttached, IsClean};
ghost use Rattle.bm_rack.specs.Frames.{RackCall, DirtiesOnly, MakesPageCalls};
ghost use Rattle.bm_rack.specs.Image.{IsImage, SameInput, InEveryImage};
ghost use Rattle.bm_forms.specs.Plan.{StandsFor};
ghost use Rattle.bm_control.specs.Bodies.{JobBodyFits};
ghost use Rattle.bm_control.specs.Pages.{HasOpenJob, HasClosedJob, HasJobBody};
ghost use Rattle.bm_control.specs.PageCalls.{IsStartPage};
ghost use Rattle.bm_control.specs.Progress.{IsGone};
ghost use Rattle.bm_control.specs.Sound.{IsSound};
ghost use Rattle.bm_control.specs.State.{StateFits};
ghost use Rattle.bm_job.specs.Follows.{Follows, loads_moved};
ghost use Rattle.bm_job.specs.Begins.{SettledAnswer, SettledCounts, SettledPages, BeginAnswer};
ghost use Rattle.bm_job.specs.Begins.{ResumeAnswer, IsFresh, IsStart, IsLoadedAlone, HasBodies};
ghost use Rattle.bm_job.specs.Begins.{OpensOnly, BeginCalls};

use crate::answers::RunError;
use crate::machine::Machine;
use bm_base::{NO_SLOT, Shape};
use bm_control::{SlateState, read_state, same_job, same_shape, start_job};
use bm_forms::{Job, Plan};
use bm_rack::Rack;

impl Machine {
    /// Goes on with the job that is open on the rack, or opens it where none is.
    ///
    /// The rack is attached with the shape's dims. The plan stands for the job, with 1 to Q passes, and
    /// `every` is the number of loads of a pass after which progress is made durable, 1 to N/M. Where
    /// the job is open its stored passes and number of loads are used, and not the plan's.
    ///
    /// The refusals in the order of the tests: `Failed` by the sync; `Failed` or `BadPage` by what the
    /// control file tells; `NotLoaded` where no records are loaded; `OtherShape` where those loaded
    /// have another shape; `OtherJob` where another job is open; `Failed` where the job is opened. All
    /// but `Failed` leave the contents. A rack that is sound stays sound at each exit.
    pub fn begin<R: Rack>(
        rack: &mut R,
        shape: &Shape,
        job: &Job,
        plan: &Plan,
        every: u64,
    ) -> Result<Machine, RunError>
        requires attached { (R.view rack.old).attached ≡ Some (dims_of shape.now) }
        requires stands { StandsFor plan.now shape.now job.now }
        requires fits { JobBodyFits shape.now job.now (length plan.now.forms) every }

        ensures answer { IsTrue R.tells_contents
            → BeginAnswer shape.now job.now (length plan.now.forms) every (R.view rack.old).contents result }
        ensures fresh { IfOk result (λ m. IsFresh shape.now job.now m) }
        ensures gone { IsTrue R.tells_contents
            → IfOk result (λ m. IsGone (R.view rack.old).contents (loads_moved m)) }
        ensures follows { IsTrue R.tells_stands → IsTrue R.tells_contents → IsSound (R.view rack.old)
            → IfOk result (λ m. Follows m (R.view rack.new)) }
        ensures bodies { IsTrue R.tells_contents → IfOk result (λ m. HasBodies m (R.view rack.new).contents) }
        ensures clean { OnOk result (IsClean (R.view rack.new)) }
        ensures sound { IsTrue R.tells_stands → IsTrue R.tells_contents → IsSound (R.view rack.old)
            → IsSound (R.view rack.new) }
        ensures good { IsTrue R.tells_stands → IsTrue R.tells_contents → IsSound (R.view rack.old)
            → (page : ℕ) → ¬ IsErrOf result (RunError.BadPage page) }
        ensures kept { IfErr result (λ e. e ≢ RunError.Failed
            → (R.view rack.new).contents ≡ (R.view rack.old).contents) }
        // Where a job is open, no exit changes anything or leaves it dirty.
        ensures unchanged { IsTrue R.tells_contents → HasOpenJob (R.view rack.old).contents
            → DirtiesOnly (λ u. ⊥) (R.view rack.old) (R.view rack.new) }
        ensures images { IsTrue R.tells_stands → IsTrue R.tells_contents
            → OpensOnly shape.now job.now (length plan.now.forms) every (R.view rack.old) (R.view rack.new) }
        ensures call { RackCall (IsStartPage (length plan.now.forms) (every < loads_of shape.now))
            (IsErrOf result RunError.Failed) (R.view rack.old) (R.view rack.new) }
        ensures input { SameInput (dims_of shape.now) (R.view rack.old) (R.view rack.new) }
        ensures counts { IfOk result (λ m. MakesPageCalls ⊥ (8 + 2 * m.passes) 3 (R.view rack.old) (R.view rack.new)) }
        // On every rack, told or not.
        ensures most { MakesPageCalls ⊥ 516 3 (R.view rack.old) (R.view rack.new) }
        ensures pages { IsTrue R.tells_contents
            → BeginCalls (R.view rack.old).contents (length plan.now.forms) (R.view rack.old) (R.view rack.new) }
        ensures moves { (R.view rack.new).moves ≡ (R.view rack.old).moves }
    {
        let state = settle_and_read(rack)?;
        match machine_of(shape, job, &state)? {
            Some(machine) => Ok(machine),
            None => start(rack, shape, job, plan, every),
        }
    }
}

// Makes durable what was written, and reads what the control file tells.
fn settle_and_read<R: Rack>(rack: &mut R) -> Result<SlateState, RunError>
    requires { IsAttached (R.view rack.old).attached }
    ensures answer { IsTrue R.tells_contents → SettledAnswer (R.view rack.old).contents result }
    ensures fits { IfOk result StateFits }
    ensures clean { OnOk result (IsClean (R.view rack.new)) }
    ensures contents { (R.view rack.new).contents ≡ (R.view rack.old).contents }
    ensures images { (dims : Dims) (image : Contents) → IsImage dims (R.view rack.new) image
        → IsImage dims (R.view rack.old) image }
    ensures sound { IsSound (R.view rack.old) → IsSound (R.view rack.new) }
    ensures call { RackCall (λ u. ⊥) (IsErrOf result RunError.Failed) (R.view rack.old) (R.view rack.new) }
    ensures counts { IfOk result (λ state. SettledCounts state (R.view rack.old) (R.view rack.new)) }
    ensures most { MakesPageCalls ⊥ 516 1 (R.view rack.old) (R.view rack.new) }
    ensures pages { IsTrue R.tells_contents
        → SettledPages (R.view rack.old).contents (R.view rack.old) (R.view rack.new) }
    ensures moves { (R.view rack.new).moves ≡ (R.view rack.old).moves }
{
    rack.sync()?;
    Ok(read_state(rack)?)
}

// The machine of an open job, or nothing where it is to be opened, or why it can be neither.
fn machine_of(shape: &Shape, job: &Job, state: &SlateState) -> Result<Option<Machine>, RunError>
    requires { StateFits state.now }
    ensures { ResumeAnswer shape.now job.now state.now result }
{
    match *state {
        SlateState::Closed => Err(RunError::NotLoaded),
        SlateState::Loaded { shape: loaded } => {
            if same_shape(&loaded, shape) {
                Ok(None)
            } else {
                Err(RunError::OtherShape)
            }
        }
        SlateState::Working {
            shape: loaded,
            job: open_job,
            passes,
            done,
            every,
            part,
            slot,
        } => {
            if !same_shape(&loaded, shape) {
                return Err(RunError::OtherShape);
            }
            if !same_job(&open_job, job) {
                return Err(RunError::OtherJob);
            }
            Ok(Some(Machine {
                shape: loaded,
                job: open_job,
                passes,
                done,
                every,
                part,
                slot,
                load: part,
                form: None,
                alive: true,
            }))
        }
    }
}

// Opens the job, and answers the machine at its start.
fn start<R: Rack>(
    rack: &mut R,
    shape: &Shape,
    job: &Job,
    plan: &Plan,
    every: u64,
) -> Result<Machine, RunError>
    requires attached { (R.view rack.old).attached ≡ Some (dims_of shape.now) }
    requires stands { StandsFor plan.now shape.now job.now }
    requires fits { JobBodyFits shape.now job.now (length plan.now.forms) every }
    ensures fresh { IfOk result (λ m. IsFresh shape.now job.now m) }
    ensures start { IfOk result (λ m. IsStart (length plan.now.forms) every m) }
    ensures follows { IsTrue R.tells_stands → IsTrue R.tells_contents
        → IsSound (R.view rack.old) → IsClean (R.view rack.old) → IsLoadedAlone shape.now (R.view rack.old).contents
        → IfOk result (λ m. Follows m (R.view rack.new)) }
    ensures bodies { IsTrue R.tells_contents → IfOk result (λ m. HasBodies m (R.view rack.new).contents) }
    ensures sound { IsTrue R.tells_stands → IsTrue R.tells_contents
        → IsSound (R.view rack.old) → IsClean (R.view rack.old) → IsLoadedAlone shape.now (R.view rack.old).contents
        → IsSound (R.view rack.new) }
    ensures images { IsTrue R.tells_stands → IsTrue R.tells_contents → IsClean (R.view rack.old)
        → HasClosedJob (R.view rack.old).contents
        → InEveryImage (λ v. HasOpenJob v → HasJobBody shape.now v job.now (length plan.now.forms) every) (R.view rack.new) }
    ensures clean { OnOk result (IsClean (R.view rack.new)) }
    ensures failed { IsOkUnless result RunError.Failed }
    ensures call { RackCall (IsStartPage (length plan.now.forms) (every < loads_of shape.now))
        (IsErrOf result RunError.Failed) (R.view rack.old) (R.view rack.new) }
    ensures counts { MakesPageCalls ⊥ (4 + 2 * length plan.now.forms) 2 (R.view rack.old) (R.view rack.new) }
    ensures few { length plan.now.forms ≤ 254 }
{
    start_job(rack, shape, job, plan, every)?;
    Ok(Machine {
        shape: *shape,
        job: *job,
        passes: plan.len(),
        done: 0,
        every,
        part: 0,
        slot: NO_SLOT,
        load: 0,
        form: None,
        alive: true,
    })
}
