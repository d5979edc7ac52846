//! The file that a job source holds.

ghost use Rattle.std.specs.Prelude.{◌≡◌, ◌≤◌, ℕ, [], length, IsTrue, IsOk, IfOk, IfErr, IsErrOf};
ghost use Rattle.bm_named.specs.declared.map_fault.MapFault.{MapFault};
ghost use Rattle.bm_kindjob.specs.KindFile.{IsKindFile};
ghost use Rattle.bm_top.specs.Moment.{source_of};
ghost use Rattle.bm_top.specs.Status.{IsBeforeTask};
ghost use Rattle.bm_kind_call.specs.Texts.{FileFits, HoldsFile, IsSetFault, TextCause, TextRead};

use bm_jobfile::JobError;
use bm_kindjob::{KindFile, read_kind};
use bm_rack::Source;
use bm_top::{Status, job_text};
use std::alloc::Global;

// The file of a text, or why it is refused.
fn file_of(alloc: Global, text: &[u8]) -> Result<KindFile, Status>
    ensures file { IfOk result (λ file. IsKindFile text.now file) }
    ensures refusal { IfErr result (λ status. IsBeforeTask status) }
    ensures cause { IfErr result (λ status. TextCause text.now status) }
    ensures map { (fault : MapFault) → IsErrOf result (Status.JobMap fault) → IsSetFault fault }
    ensures no_fault { ¬ IsErrOf result Status.JobFault }
{
    match read_kind(alloc, text) {
        Ok(file) => Ok(file),
        Err(JobError::Text) => Err(Status::JobText),
        Err(JobError::Field { which }) => Err(Status::JobField { which }),
        Err(JobError::Shape { rule }) => Err(Status::JobShape { rule }),
        Err(JobError::Map { shape: _, fault }) => Err(Status::JobMap { fault }),
        Err(JobError::OutOfMemory) => Err(Status::OutOfMemory),
    }
}

/// Reads the file that a source holds, or says why it is refused. No more than 65537 bytes are read.
pub fn read_file<J: Source>(alloc: Global, job: &mut J) -> Result<KindFile, Status>
    ensures file { IfOk result (λ file. HoldsFile J.tells
        (source_of (J.left job.old) (J.faults job.old)) file) }
    ensures fits { IfOk result (λ file. FileFits file) }
    ensures refusal { IfErr result (λ status. IsBeforeTask status) }
    ensures refused { IfErr result (λ status. TextRead J.tells
        (source_of (J.left job.old) (J.faults job.old)) status
        (source_of (J.left job.new) (J.faults job.new))) }
    ensures ended { IsTrue J.tells → IsOk result
        → (J.left job.new ≡ []) × (length (J.left job.old) ≤ 65536) }
    ensures faults { J.faults job.old ≤ J.faults job.new }
{
    match job_text(alloc, job) {
        Ok(text) => file_of(alloc, &text),
        Err(status) => Err(status),
    }
}
