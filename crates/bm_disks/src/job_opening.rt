//! Looking at the job that is open.

ghost use Rattle.std.specs.Prelude.{◌≡◌, ◌+◌, ◌*◌, ℕ, Some, IsTrue, IsOk, IsErrOf, OnOk, IfOk};
ghost use Rattle.bm_base.specs.Count.{Rose};
ghost use Rattle.bm_base.specs.Shape.{dims_of};
ghost use Rattle.bm_rack.specs.RackView.{IsClean};
ghost use Rattle.bm_rack.specs.Frames.{RackCall, MakesPageCalls};
ghost use Rattle.bm_control.specs.Sound.{IsSound};
ghost use Rattle.bm_control.specs.State.{StateFits};
ghost use Rattle.bm_disks.specs.JobOpening.{open_error, OpenAnswer, OpenFits, IsOpenCase, LastAreaMeans, ReadAnswer};

use bm_base::{Failed, Shape};
use bm_control::{ControlError, SlateState, read_state, same_job, same_shape};
use bm_forms::Job;
use bm_rack::Rack;

/// How far the open job is.
#[derive(Clone, Copy, Debug, PartialEq, Eq)]
pub struct OpenJob {
    /// How many passes it has.
    pub passes: u16,
    /// How many of them are done.
    pub done: u16,
    /// After how many loads of a pass its progress is made durable.
    pub every: u64,
    /// How many loads of the next pass are counted.
    pub part: u64,
}

/// Why the job is not open.
#[derive(Clone, Copy, Debug, PartialEq, Eq)]
pub enum OpenError {
    /// The rack failed.
    Failed,
    /// This page of the control file is wrong.
    BadPage {
        /// The page's number.
        page: u16,
    },
    /// No records are loaded.
    NotLoaded,
    /// The records that are loaded have another shape.
    OtherShape,
    /// No job is open.
    NoJob,
    /// Another job is open.
    OtherJob,
}

impl From<Failed> for OpenError {
    ghost use Rattle.bm_disks.specs.declared.job_opening.OpenError.TheVariants as kind;

    ghost from_gives = { λ _ made. made ≡ kind.Failed };

    fn from(_error: Failed) -> OpenError {
        OpenError::Failed
    }
}

impl From<ControlError> for OpenError {
    ghost use Rattle.bm_disks.specs.JobOpening.{open_error};

    ghost from_gives = { λ e made. made ≡ open_error e };

    fn from(error: ControlError) -> OpenError {
        match error {
            ControlError::Failed => OpenError::Failed,
            ControlError::BadPage { page } => OpenError::BadPage { page },
        }
    }
}

// Whether a state that was read has this job open.
fn opened(shape: &Shape, job: &Job, state: &SlateState) -> Result<OpenJob, OpenError>
    requires { StateFits state.now }
    ensures answer { ReadAnswer shape.now job.now state.now result }
    ensures fits { IfOk result (λ o. OpenFits shape.now job.now o) }
{
    match *state {
        SlateState::Closed => Err(OpenError::NotLoaded),
        SlateState::Loaded { shape: loaded } => {
            if same_shape(&loaded, shape) {
                Err(OpenError::NoJob)
            } else {
                Err(OpenError::OtherShape)
            }
        }
        SlateState::Working {
            shape: loaded,
            job: open_job,
            passes,
            done,
            every,
            part,
            ..
        } => {
            if !same_shape(&loaded, shape) {
                return Err(OpenError::OtherShape);
            }
            if !same_job(&open_job, job) {
                return Err(OpenError::OtherJob);
            }
            Ok(OpenJob {
                passes,
                done,
                every,
                part,
            })
        }
    }
}

/// Looks at the job that is open, which is to be this one of this shape.
///
/// The rack is attached with the shape's dims. It syncs and reads the control file, and changes
/// nothing but counts. The refusals in the order of the tests: `Failed` by the sync; `Failed` or
/// `BadPage` by what the control file tells; `NotLoaded` where no records are loaded; `OtherShape`
/// where those loaded have another shape; `NoJob` where no job is open; `OtherJob` where another
/// is. On a sound rack no page is wrong.
pub fn open_job<R: Rack>(rack: &mut R, shape: &Shape, job: &Job) -> Result<OpenJob, OpenError>
    requires attached { (R.view rack.old).attached ≡ Some (dims_of shape.now) }
    ensures answer { IsTrue R.tells_contents
        → OpenAnswer shape.now job.now (R.view rack.old).contents result }
    ensures fits { IfOk result (λ o. OpenFits shape.now job.now o) }
    ensures means { IsTrue R.tells_stands → IsTrue R.tells_contents → IsSound (R.view rack.old)
        → IfOk result (λ o. LastAreaMeans shape.now job.now (R.view rack.old).contents o) }
    ensures good { IsTrue R.tells_stands → IsTrue R.tells_contents → IsSound (R.view rack.old)
        → (page : ℕ) → ¬ IsErrOf result (OpenError.BadPage page) }
    // a job that is open is found where no call failed
    ensures complete { IsTrue R.tells_stands → IsTrue R.tells_contents → IsSound (R.view rack.old)
        → IsOpenCase shape.now job.now (R.view rack.old).contents
        → ¬ Rose (R.view rack.old).faults (R.view rack.new).faults → IsOk result }

    ensures contents { (R.view rack.new).contents ≡ (R.view rack.old).contents }
    ensures clean { OnOk result (IsClean (R.view rack.new)) }
    ensures sound { IsSound (R.view rack.old) → IsSound (R.view rack.new) }
    ensures call { RackCall (λ u. ⊥) (IsErrOf result OpenError.Failed)
        (R.view rack.old) (R.view rack.new) }
    ensures counts { MakesPageCalls ⊥ 516 1 (R.view rack.old) (R.view rack.new) }
    ensures pages { IfOk result (λ o.
        MakesPageCalls ⊥ (8 + 2 * o.passes) 1 (R.view rack.old) (R.view rack.new)) }
{
    rack.sync()?;
    let state = read_state(rack)?;
    opened(shape, job, &state)
}
