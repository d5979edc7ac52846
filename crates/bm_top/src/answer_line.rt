//! The line of an answer.

ghost use Rattle.std.specs.Prelude.{◌≡◌, ◌≤◌, ◌++◌, IsTrue};
ghost use Rattle.bm_base.specs.Count.{Rose};
ghost use Rattle.bm_rack.specs.Sink.{AppendsFront};
ghost use Rattle.bm_top.specs.StatusWords.{line_of};

use crate::Status;
use crate::status_words::status_words;
use bm_rack::Sink;
use bm_text::write_line;

/// Writes the line of an answer. A write that fails ends it, and changes nothing else.
pub fn write_answer<E: Sink>(err: &mut E, status: &Status)
    ensures line { IsTrue E.tells → ¬ Rose (E.faults err.old) (E.faults err.new)
        → E.taken err.new ≡ E.taken err.old ++ line_of status.now }
    ensures front { IsTrue E.tells → AppendsFront (E.taken err.old) (E.taken err.new) (line_of status.now) }
    ensures faults { E.faults err.old ≤ E.faults err.new }
{
    let _ = write_line(err, status_words(status).as_str().as_bytes());
}
