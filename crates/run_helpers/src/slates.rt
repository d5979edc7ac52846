//! Control files in memory, made call by call.

ghost use Rattle.std.specs.Prelude.{◌≡◌, ◌<◌, IsTrue};
ghost use Rattle.bm_forms.specs.declared.job.Job.TheVariants.{Permute};
ghost use Rattle.bm_control.specs.Bodies.{JobBodyFits};
ghost use Rattle.bm_rack.specs.RackView.{IsAttached};

use bm_base::Shape;
use bm_control::{ControlError, SlateState, close_job, mark_part, open_gate, open_load, start_job};
use bm_forms::{Job, Plan, pass_limit};
use bm_gf2::Affine;
use bm_rack::Rack;
use bm_rank::kernel_least;

/// A call that writes the control file, or none.
#[derive(Clone, Copy, Debug, PartialEq, Eq)]
pub enum Step {
    Nothing,
    OpenLoad,
    StartJob { every: u64 },
    OpenGate { k: u16 },
    MarkPart { slot: u8, pass: u16, loads: u64 },
    CloseJob,
}

/// What `read_state` says, without the shape, the job and its number of passes.
#[derive(Clone, Copy, Debug, PartialEq, Eq)]
pub enum Said {
    Closed,
    Loaded,
    Working {
        done: u16,
        every: u64,
        part: u64,
        slot: u8,
    },
    Bad {
        page: u16,
    },
}

impl Said {
    /// The whole answer, for a job of this shape, map and number of passes.
    pub fn of(self, shape: &Shape, map: &Affine, passes: u16) -> Result<SlateState, ControlError> {
        match self {
            Said::Closed => Ok(SlateState::Closed),
            Said::Loaded => Ok(SlateState::Loaded { shape: *shape }),
            Said::Working {
                done,
                every,
                part,
                slot,
            } => Ok(SlateState::Working {
                shape: *shape,
                job: Job::Permute(*map),
                passes,
                done,
                every,
                part,
                slot,
            }),
            Said::Bad { page } => Err(ControlError::BadPage { page }),
        }
    }
}

/// Whether the body of a job by the map may name these numbers.
pub fn is_job(shape: &Shape, map: &Affine, passes: u16, every: u64) -> bool
    ensures { IsTrue result → JobBodyFits shape.now (Permute map.now) passes every }
{
    if map.a.n != shape.n() || kernel_least(&map.a).is_some() {
        return false;
    }
    let most = pass_limit(shape, &Job::Permute(*map));
    passes >= 1 && passes <= most && every >= 1 && every <= shape.loads()
}

// Starts a job by the map, where its numbers are in range and no call fails.
fn has_started<R: Rack>(rack: &mut R, shape: &Shape, map: &Affine, plan: &Plan, every: u64) -> bool
    requires ready { IsAttached (R.view rack.old).attached }
    requires plan { plan.now.shape ≡ shape.now }
    ensures { IsAttached (R.view rack.new).attached }
{
    if !is_job(shape, map, plan.len(), every) {
        return false;
    }
    start_job(rack, shape, &Job::Permute(*map), plan, every).is_ok()
}

// Marks a part of a pass, where its numbers are in range and no call fails.
fn has_marked<R: Rack>(rack: &mut R, shape: &Shape, slot: u8, pass: u16, loads: u64) -> bool
    requires ready { IsAttached (R.view rack.old).attached }
    ensures { IsAttached (R.view rack.new).attached }
{
    if slot > 1 || pass == 0 || pass > 254 || loads == 0 || loads >= shape.loads() {
        return false;
    }
    mark_part(rack, shape, slot, pass, loads).is_ok()
}

/// Makes the call, where its numbers are in range and no device call fails.
pub fn has_made<R: Rack>(rack: &mut R, shape: &Shape, map: &Affine, plan: &Plan, step: Step) -> bool
    requires ready { IsAttached (R.view rack.old).attached }
    requires plan { plan.now.shape ≡ shape.now }
    ensures { IsAttached (R.view rack.new).attached }
{
    match step {
        Step::Nothing => true,
        Step::OpenLoad => open_load(rack, shape).is_ok(),
        Step::StartJob { every } => has_started(rack, shape, map, plan, every),
        Step::OpenGate { k } => k < 256 && open_gate(rack, k).is_ok(),
        Step::MarkPart { slot, pass, loads } => has_marked(rack, shape, slot, pass, loads),
        Step::CloseJob => close_job(rack).is_ok(),
    }
}

/// Makes the calls in order, where their numbers are in range and no device call fails.
pub fn have_made<R: Rack>(
    rack: &mut R,
    shape: &Shape,
    map: &Affine,
    plan: &Plan,
    steps: [Step; 6],
) -> bool
    requires ready { IsAttached (R.view rack.old).attached }
    requires plan { plan.now.shape ≡ shape.now }
    ensures { IsAttached (R.view rack.new).attached }
{
    for step in steps {
        if !has_made(rack, shape, map, plan, step) {
            return false;
        }
    }
    true
}
