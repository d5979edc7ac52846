//! The job that a job source holds.

ghost use Rattle.std.specs.Prelude.{◌≡◌, ◌≢◌, ◌≤◌, [], length, IsTrue, IsOk, IfOk, IfErr, IsErrOf};
ghost use Rattle.std.specs.Prelude.{◌↔◌, ◌^◌, IfSome, IfNone};
ghost use Rattle.bm_base.specs.Shape.{input_size};
ghost use Rattle.bm_jobfile.specs.JobFile.{IsJobFile};
ghost use Rattle.bm_top.specs.Status.{IsBeforeTask};
ghost use Rattle.bm_jobfile.specs.declared.job_file.JobFile.{JobFile};
ghost use Rattle.bm_top.specs.JobRead.{JobCause, JobRead, TakesShape, RefusesShape};
ghost use Rattle.bm_top.specs.Moment.{source_of};
ghost use Rattle.bm_top.specs.Task.{IsTaskOf, HoldsTask, TaskFits};

use crate::source_text::job_text;
use crate::{Status, Task, Verb};
use bm_base::Shape;
use bm_jobfile::{JobError, read_job};
use bm_named::MapFault;
use bm_rack::Source;
use std::alloc::Global;

// The most bytes of the input that a drill makes.
const MOST_DRILL_BYTES: u64 = 1 << 26;

// The rule of a shape that is the drill's own.
const DRILL_RULE: u8 = 8;

// Whether the records of a shape are few enough for a drill.
fn is_small(shape: &Shape) -> bool
    ensures { IsTrue result ↔ (input_size shape.now ≤ 2 ^ 26) }
{
    match shape.records().checked_mul(u64::from(shape.width())) {
        Some(bytes) => bytes <= MOST_DRILL_BYTES,
        None => false,
    }
}

// The answer of a command that does not take this shape, or nothing where it does.
fn shape_refusal(verb: Verb, shape: &Shape) -> Option<Status>
    ensures refused { IfSome result (λ status. RefusesShape verb shape.now status) }
    ensures refuses { IfSome result (λ status. IsBeforeTask status × (status ≢ Status.JobFault)) }
    ensures takes { IfNone result (TakesShape verb shape.now) }
{
    match verb {
        Verb::Detect => {
            if shape.width() == 8 {
                None
            } else {
                Some(Status::JobMap {
                    fault: MapFault::Width,
                })
            }
        }
        Verb::Drill => {
            if is_small(shape) {
                None
            } else {
                Some(Status::JobShape { rule: DRILL_RULE })
            }
        }
        Verb::New
        | Verb::Load
        | Verb::Plan
        | Verb::Run
        | Verb::Status
        | Verb::Dump
        | Verb::Drop
        | Verb::Carry => None,
    }
}

// The task of a job text, or why it is refused. The command's own test of the shape comes before
// the faults of the map.
fn task_of(alloc: Global, verb: Verb, text: &[u8]) -> Result<Task, Status>
    ensures task { IfOk result (λ task. (file : JobFile) × IsJobFile text.now file × IsTaskOf file task) }
    ensures fits { IfOk result (λ task. TaskFits task) }
    ensures takes { IfOk result (λ task. TakesShape verb task.shape) }
    ensures refusal { IfErr result (λ status. IsBeforeTask status) }
    ensures cause { IfErr result (λ status. JobCause verb text.now status) }
    ensures no_fault { ¬ IsErrOf result Status.JobFault }
{
    match read_job(alloc, text) {
        Ok(file) => match shape_refusal(verb, &file.shape) {
            Some(status) => Err(status),
            None => Ok(Task {
                shape: file.shape,
                job: file.job,
                every: file.every,
                start: file.start,
                stops: file.stops,
            }),
        },
        Err(JobError::Text) => Err(Status::JobText),
        Err(JobError::Field { which }) => Err(Status::JobField { which }),
        Err(JobError::Shape { rule }) => Err(Status::JobShape { rule }),
        Err(JobError::Map { shape, fault }) => match shape_refusal(verb, &shape) {
            Some(status) => Err(status),
            None => Err(Status::JobMap { fault }),
        },
        Err(JobError::OutOfMemory) => Err(Status::OutOfMemory),
    }
}

/// Reads the task that a source holds for the command, or says why it is refused. No more than
/// 65537 bytes are read.
pub fn read_task<J: Source>(alloc: Global, verb: Verb, job: &mut J) -> Result<Task, Status>
    ensures task { IfOk result (λ task. HoldsTask J.tells
        (source_of (J.left job.old) (J.faults job.old)) task) }
    ensures fits { IfOk result (λ task. TaskFits task) }
    ensures takes { IfOk result (λ task. TakesShape verb task.shape) }
    ensures refusal { IfErr result (λ status. IsBeforeTask status) }
    ensures refused { IfErr result (λ status. JobRead verb J.tells
        (source_of (J.left job.old) (J.faults job.old)) status
        (source_of (J.left job.new) (J.faults job.new))) }
    ensures ended { IsTrue J.tells → IsOk result
        → (J.left job.new ≡ []) × (length (J.left job.old) ≤ 65536) }
    ensures faults { J.faults job.old ≤ J.faults job.new }
{
    match job_text(alloc, job) {
        Ok(text) => task_of(alloc, verb, &text),
        Err(status) => Err(status),
    }
}
