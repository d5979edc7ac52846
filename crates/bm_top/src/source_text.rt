//! The text of a job source.

ghost use Rattle.std.specs.Prelude.{◌≡◌, ◌≤◌, [], length, take, IsTrue, IfOk, IfErr, IsOk};
ghost use Rattle.bm_top.specs.JobRead.{JobRead};
ghost use Rattle.bm_top.specs.Moment.{source_of};
ghost use Rattle.bm_top.specs.Status.{IsBeforeDocument, IsBeforeTask};
ghost use Rattle.bm_top.specs.declared.words.Verb.{Verb};

use crate::Status;
use bm_base::TEXT_ROOM;
use bm_disks::{FillError, fill};
use bm_rack::Source;
use std::alloc::Global;

// Room for a job text and a byte more.
fn make_room(alloc: Global) -> Result<Vec<u8>, Status>
    ensures room { IfOk result (λ text. length text.items ≡ 65537) }
    ensures memory { IfErr result (λ status. status ≡ Status.OutOfMemory) }
{
    match vec![in alloc; 0u8; TEXT_ROOM] {
        Ok(text) => Ok(text),
        Err(_) => Err(Status::OutOfMemory),
    }
}

// Reads the whole text of a job source into this room, and says how many bytes it has.
fn read_text<J: Source>(job: &mut J, text: &mut [u8]) -> Result<usize, Status>
    requires { length text.old ≡ 65537 }
    ensures text { IsTrue J.tells → IfOk result (λ got. take got text.new ≡ J.left job.old) }
    ensures short { IfOk result (λ got. got ≤ 65536) }
    ensures ended { IsTrue J.tells → IsOk result → J.left job.new ≡ [] }
    ensures early { IfErr result (λ status. IsBeforeDocument status) }
    ensures refusal { IfErr result (λ status. IsBeforeTask status) }
    ensures refused { IfErr result (λ status. (verb : Verb) → JobRead verb J.tells
        (source_of (J.left job.old) (J.faults job.old)) status
        (source_of (J.left job.new) (J.faults job.new))) }
    ensures faults { J.faults job.old ≤ J.faults job.new }
{
    match fill(job, text) {
        Ok(()) => Err(Status::JobText),
        Err(FillError::Fault) => Err(Status::JobFault),
        Err(FillError::Short { got }) => Ok(got),
    }
}

/// The whole text of a job source, or why it is refused: its source failed, it is too long, or there
/// is no memory for it. No more than `TEXT_ROOM` bytes are read.
pub fn job_text<J: Source>(alloc: Global, job: &mut J) -> Result<Vec<u8>, Status>
    ensures text { IsTrue J.tells → IfOk result (λ text. text.items ≡ J.left job.old) }
    ensures short { IfOk result (λ text. length text.items ≤ 65536) }
    ensures ended { IsTrue J.tells → IsOk result → J.left job.new ≡ [] }
    ensures early { IfErr result (λ status. IsBeforeDocument status) }
    ensures refusal { IfErr result (λ status. IsBeforeTask status) }
    ensures refused { IfErr result (λ status. (verb : Verb) → JobRead verb J.tells
        (source_of (J.left job.old) (J.faults job.old)) status
        (source_of (J.left job.new) (J.faults job.new))) }
    ensures faults { J.faults job.old ≤ J.faults job.new }
{
    match make_room(alloc) {
        Ok(mut text) => match read_text(job, &mut text) {
            Ok(got) => {
                text.truncate(got);
                Ok(text)
            }
            Err(status) => Err(status),
        },
        Err(status) => Err(status),
    }
}
