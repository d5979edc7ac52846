//! Part bodies: how far the pass under way is.

ghost use Rattle.std.specs.Prelude.{◌≡◌, ◌↔◌, ℕ, Some, IsTrue};
ghost use Rattle.bm_control.specs.Bodies.{part_page, PartBodyFits, IsPartBody};

use crate::page_reader::{same_page, u16_at, u64_at};
use crate::page_writer::PageWriter;
use bm_base::{MOST_CHECKPOINT_PASSES, PAGE_BYTES, Shape};

// The part body's version.
const VERSION: u16 = 2;

/// The part body of so many loads of this pass, counted from 1. The pass is at most 254, and the
/// loads are below N/M.
pub fn encode_part(shape: &Shape, pass: u16, loads: u64) -> [u8; PAGE_BYTES]
    requires { PartBodyFits shape.now pass loads }
    ensures { result ≡ part_page pass loads }
{
    let mut page = PageWriter::new();
    page.put(b"BMMCPART");
    page.put_u16(VERSION);
    page.put_u16(pass);
    page.put(&[0; 4]);
    page.put_u64(loads);
    page.finish()
}

/// The pass and number of loads whose part body the page is, or nothing where it is no part body
/// for this shape.
pub fn decode_part(shape: &Shape, page: &[u8; PAGE_BYTES]) -> Option<(u16, u64)>
    ensures { (pass loads : ℕ)
        → (result ≡ Some (pass, loads)) ↔ IsPartBody shape.now page.now pass loads }
{
    let pass = u16_at(page, 10);
    let loads = u64_at(page, 16);
    if !are_in_range(shape, pass, loads) {
        return None;
    }
    if same_page(&encode_part(shape, pass, loads), page) {
        Some((pass, loads))
    } else {
        None
    }
}

// Whether a part body may have these numbers.
fn are_in_range(shape: &Shape, pass: u16, loads: u64) -> bool
    ensures { IsTrue result ↔ PartBodyFits shape.now pass loads }
{
    pass >= 1 && pass <= MOST_CHECKPOINT_PASSES && loads >= 1 && loads < shape.loads()
}
