//! The report of a run.

ghost use Rattle.std.specs.Prelude.{◌≡◌, ◌≤◌, ◌++◌, IsTrue, IsOk, IsErr};
ghost use Rattle.arrayvec.specs.ArrayString.{array_string_len};
ghost use Rattle.bm_base.specs.Count.{Rose};
ghost use Rattle.bm_rack.specs.Sink.{AppendsFront};
ghost use Rattle.bm_text.specs.ReportText.{report_text};

use crate::number::push_number;
use arrayvec::ArrayString;
use bm_base::{Failed, RunReport};
use bm_rack::{Sink, write_all_of};

/// Writes the report of a session, with the most parallel transfers that its job takes. It takes no
/// memory.
///
/// Where it fails, a front of the text was written.
pub fn write_report<K: Sink>(sink: &mut K, report: &RunReport, bound: u64) -> Result<(), Failed>
    ensures all { IsTrue K.tells → IsOk result
        → K.taken sink.new ≡ K.taken sink.old ++ report_text report.now bound }
    ensures front { IsTrue K.tells
        → AppendsFront (K.taken sink.old) (K.taken sink.new) (report_text report.now bound) }
    ensures faults { K.faults sink.old ≤ K.faults sink.new }
    ensures cause { IsErr result → Rose (K.faults sink.old) (K.faults sink.new) }
{
    let text = report_lines(report, bound);
    write_all_of(sink, text.as_str().as_bytes())
}

// The lines of a report.
fn report_lines(report: &RunReport, bound: u64) -> ArrayString<128>
    ensures { result.bytes ≡ report_text report.now bound }
{
    let mut text = ArrayString::new();
    push_number(&mut text, "passes ", report.passes);
    push_number(&mut text, "\nbefore ", report.done_before);
    push_number(&mut text, "\nmoves ", report.moves);
    push_number(&mut text, "\nbound ", bound);
    text.push('\n');
    text
}
