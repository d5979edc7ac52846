//! The report of a drill.

ghost use Rattle.std.specs.Prelude.{◌≡◌, ◌≤◌, ◌++◌, IsTrue, IsOk, IsErr};
ghost use Rattle.hex.specs.Hex.{encode_lower};
ghost use Rattle.bm_base.specs.Count.{Rose};
ghost use Rattle.bm_rack.specs.Sink.{AppendsFront};
ghost use Rattle.bm_text.specs.DrillText.{count_lines, drill_text};

use crate::line::write_headed;
use crate::number::push_number;
use arrayvec::ArrayString;
use bm_base::{DrillReport, Failed};
use bm_rack::Sink;

/// Writes the report of a drill, the digest in hexadecimal. It takes no memory.
///
/// Where it fails, a front of the text was written.
pub fn write_drill<K: Sink>(sink: &mut K, report: &DrillReport) -> Result<(), Failed>
    ensures all { IsTrue K.tells → IsOk result
        → K.taken sink.new ≡ K.taken sink.old ++ drill_text report.now }
    ensures front { IsTrue K.tells
        → AppendsFront (K.taken sink.old) (K.taken sink.new) (drill_text report.now) }
    ensures faults { K.faults sink.old ≤ K.faults sink.new }
    ensures cause { IsErr result → Rose (K.faults sink.old) (K.faults sink.new) }
{
    let counts = count_lines(report);
    write_headed(
        sink,
        counts.as_str().as_bytes(),
        &hexadecimal(&report.digest),
    )
}

// The lines of the counts, and the word before the digest.
fn count_lines(report: &DrillReport) -> ArrayString<128>
    ensures { result.bytes ≡ count_lines report.now }
{
    let mut text = ArrayString::new();
    push_number(&mut text, "passes ", report.passes);
    push_number(&mut text, "\nrestarts ", report.restarts);
    push_number(&mut text, "\nmoves ", report.moves);
    push_number(&mut text, "\nbound ", report.bound);
    text.push_str("\nsha256 ");
    text
}

// The digits of a digest, two a byte.
fn hexadecimal(digest: &[u8; 32]) -> [u8; 64]
    ensures { result ≡ encode_lower digest.now }
{
    let mut digits = [0; 64];
    hex::encode_to_slice(digest.as_slice(), &mut digits).unwrap();
    digits
}
