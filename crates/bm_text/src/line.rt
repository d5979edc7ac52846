//! The line that ends a command.

ghost use Rattle.std.specs.Prelude.{◌≡◌, ◌≤◌, ◌++◌, IsTrue, IsOk, IsErr};
ghost use Rattle.bm_base.specs.Count.{Rose};
ghost use Rattle.bm_rack.specs.Sink.{AppendsFront};
ghost use Rattle.bm_text.specs.Line.{headed, line};

use bm_base::Failed;
use bm_rack::{Sink, write_all_of};

/// Writes one line: the program's name, the words and a line feed. It takes no memory.
///
/// Where it fails, a front of the line was written.
pub fn write_line<K: Sink>(sink: &mut K, words: &[u8]) -> Result<(), Failed>
    ensures all { IsTrue K.tells → IsOk result
        → K.taken sink.new ≡ K.taken sink.old ++ line words.now }
    ensures front { IsTrue K.tells
        → AppendsFront (K.taken sink.old) (K.taken sink.new) (line words.now) }
    ensures faults { K.faults sink.old ≤ K.faults sink.new }
    ensures cause { IsErr result → Rose (K.faults sink.old) (K.faults sink.new) }
{
    write_headed(sink, b"bmmc: ", words)
}

/// Writes a head, the words and a line feed. Where it fails, a front of these was written.
pub fn write_headed<K: Sink>(sink: &mut K, head: &[u8], words: &[u8]) -> Result<(), Failed>
    ensures all { IsTrue K.tells → IsOk result
        → K.taken sink.new ≡ K.taken sink.old ++ headed head.now words.now }
    ensures front { IsTrue K.tells
        → AppendsFront (K.taken sink.old) (K.taken sink.new) (headed head.now words.now) }
    ensures faults { K.faults sink.old ≤ K.faults sink.new }
    ensures cause { IsErr result → Rose (K.faults sink.old) (K.faults sink.new) }
{
    write_all_of(sink, head)?;
    write_all_of(sink, words)?;
    write_all_of(sink, b"\n")
}
