//! The job text of a map that was found.

ghost use Rattle.std.specs.Prelude.{◌≡◌, ◌+◌, ◌*◌, ◌≤◌, ◌++◌, IsTrue, IsOk, IsErr};
ghost use Rattle.arrayvec.specs.ArrayString.{array_string_len};
ghost use Rattle.bm_base.specs.Count.{Rose};
ghost use Rattle.bm_rack.specs.Sink.{AppendsFront};
ghost use Rattle.bm_text.specs.JobText.{job_head, first_rows, row_list, job_text};

use crate::number::push_number;
use arrayvec::ArrayString;
use bm_base::{Failed, Shape};
use bm_gf2::{Affine, Matrix};
use bm_rack::{Sink, write_all_of};

// Room for the lines of a job text with 52 rows.
const LINES_ROOM: usize = 2048;

/// Writes a job text that gives the shape and the map, by its rows and its constant. It takes no
/// memory.
///
/// Where it fails, a front of the text was written.
pub fn write_job<K: Sink>(sink: &mut K, shape: &Shape, map: &Affine) -> Result<(), Failed>
    ensures all { IsTrue K.tells → IsOk result
        → K.taken sink.new ≡ K.taken sink.old ++ job_text shape.now map.now }
    ensures front { IsTrue K.tells
        → AppendsFront (K.taken sink.old) (K.taken sink.new) (job_text shape.now map.now) }
    ensures faults { K.faults sink.old ≤ K.faults sink.new }
    ensures cause { IsErr result → Rose (K.faults sink.old) (K.faults sink.new) }
{
    let text = job_lines(shape, map);
    write_all_of(sink, text.as_str().as_bytes())
}

// The lines of a job text.
fn job_lines(shape: &Shape, map: &Affine) -> ArrayString<LINES_ROOM>
    ensures { result.bytes ≡ job_text shape.now map.now }
{
    let mut text = job_head(shape);
    push_rows(&mut text, &map.a);
    push_number(&mut text, "]\ncomplement = ", map.c);
    text.push('\n');
    text
}

// The table of the shape, and what stands before the rows of the map.
fn job_head(shape: &Shape) -> ArrayString<LINES_ROOM>
    ensures bytes { result.bytes ≡ job_head shape.now }
    ensures short { array_string_len result ≤ 128 }
{
    let mut text = ArrayString::new();
    push_number(&mut text, "[shape]\nn = ", shape.n());
    push_number(&mut text, "\nb = ", shape.b());
    push_number(&mut text, "\nd = ", shape.d());
    push_number(&mut text, "\nm = ", shape.m());
    push_number(&mut text, "\nwidth = ", shape.width());
    text.push_str("\n\n[map]\nkind = \"rows\"\nrows = [");
    text
}

// Puts the rows of a matrix at the end, with a comma and a space between each two.
fn push_rows(text: &mut ArrayString<LINES_ROOM>, a: &Matrix)
    requires room { array_string_len text.old ≤ 128 }
    ensures bytes { text.new.bytes ≡ text.old.bytes ++ row_list (first_rows a.now a.now.n) }
    ensures short { array_string_len text.new ≤ array_string_len text.old + 22 * a.now.n }
{
    push_number(text, "", a.row(0));
    for i in 1..a.n {
        push_number(text, ", ", a.row(i));
    }
}
