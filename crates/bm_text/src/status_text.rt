//! How far a job has come.

ghost use Rattle.std.specs.Prelude.{◌≡◌, ◌≤◌, ◌++◌, IsTrue, IsOk, IsErr, length};
ghost use Rattle.bm_base.specs.Count.{Rose};
ghost use Rattle.bm_rack.specs.Sink.{AppendsFront};
ghost use Rattle.bm_text.specs.StatusText.{kind_line, status_text};

use crate::number::push_number;
use arrayvec::ArrayString;
use bm_base::Failed;
use bm_forms::Job;
use bm_rack::{Sink, write_all_of};

/// Writes a job's kind and how many of its passes are done. It takes no memory.
///
/// Where it fails, a front of the text was written.
pub fn write_status<K: Sink>(sink: &mut K, job: &Job, done: u16, all: u16) -> Result<(), Failed>
    ensures all { IsTrue K.tells → IsOk result
        → K.taken sink.new ≡ K.taken sink.old ++ status_text job.now done all }
    ensures front { IsTrue K.tells
        → AppendsFront (K.taken sink.old) (K.taken sink.new) (status_text job.now done all) }
    ensures faults { K.faults sink.old ≤ K.faults sink.new }
    ensures cause { IsErr result → Rose (K.faults sink.old) (K.faults sink.new) }
{
    let text = status_lines(job, done, all);
    write_all_of(sink, text.as_str().as_bytes())
}

/// The line of a job's kind.
pub fn kind_line(job: &Job) -> &'static str
    ensures line { result.now ≡ kind_line job.now }
    ensures short { length result.now ≤ 12 }
{
    match job {
        Job::Permute(_) => "job permute\n",
        Job::Walsh => "job walsh\n",
    }
}

// The lines of a status.
fn status_lines(job: &Job, done: u16, all: u16) -> ArrayString<64>
    ensures { result.bytes ≡ status_text job.now done all }
{
    let mut text = ArrayString::new();
    text.push_str(kind_line(job));
    push_number(&mut text, "gates ", done);
    push_number(&mut text, " of ", all);
    text.push('\n');
    text
}
