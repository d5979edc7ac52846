//! Pass bodies: what each pass does.

ghost use Rattle.std.specs.Prelude.{◌≡◌, ◌<◌, ◌≤◌, Some, IfSome, MatchOption, IsSomeAnd, IsTrue};
ghost use Rattle.std.specs.Prelude.{◌↔◌, ◌≢◌, ℕ};
ghost use Rattle.bm_forms.specs.declared.pass_form.PassForm.{PassForm};
ghost use Rattle.bm_forms.specs.PassForm.{IsOfShape};
ghost use Rattle.bm_control.specs.Bodies.{pass_page, IsPassBody};

use crate::map_body::{end_body, put_map, read_map, start_body};
use crate::page_reader::same_page;
use bm_base::{MOST_PASSES, PAGE_BYTES, Shape};
use bm_forms::{MldForm, PassForm};

// The pass body's version.
const VERSION: u16 = 1;

/// The body of pass k + 1, for k below 256.
pub fn encode_pass(shape: &Shape, pass: &PassForm, k: u16) -> [u8; PAGE_BYTES]
    requires shape { IsOfShape shape.now pass.now }
    requires number { k < 256 }
    ensures { result ≡ pass_page shape.now pass.now k }
{
    let mut page = start_body(b"BMMCPASS", VERSION, pass.low, shape.n(), k + 1);
    put_map(&mut page, pass.map.affine());
    end_body(page, 0)
}

/// The pass whose body as pass k + 1 the page is, or nothing where it is no pass's for this shape.
/// A k of 256 or more is no pass's.
pub fn decode_pass(shape: &Shape, k: u16, page: &[u8; PAGE_BYTES]) -> Option<PassForm>
    ensures { MatchOption result
        ((pass : PassForm) → ¬ IsPassBody shape.now k page.now pass)
        (λ pass. IsPassBody shape.now k page.now pass) }
{
    if k >= MOST_PASSES {
        return None;
    }
    let pass = read_pass_form(shape, page)?;
    if same_page(&encode_pass(shape, &pass, k), page) {
        Some(pass)
    } else {
        None
    }
}

// Whether passes of the shape may have butterflies on so many bits.
fn may_be_low(shape: &Shape, low: u8) -> bool
    ensures { IsTrue result ↔ ((low ≤ shape.now.m) × (shape.now.width ≢ 8 → low ≡ 0)) }
{
    low <= shape.m() && (low == 0 || shape.width() == 8)
}

// A pass of the shape, as it stands in the page.
fn read_pass_form(shape: &Shape, page: &[u8; PAGE_BYTES]) -> Option<PassForm>
    ensures shape { IfSome result (λ pass. IsOfShape shape.now pass) }
    ensures read { (pass : PassForm) (k : ℕ) → IsPassBody shape.now k page.now pass
        → IsSomeAnd result (λ found. (found.low ≡ pass.low) × (found.map.map ≡ pass.map.map)) }
{
    let low = page[10];
    if !may_be_low(shape, low) {
        return None;
    }
    let map = read_map(page, shape.n())?;
    match MldForm::of(shape, &map) {
        Ok(map) => Some(PassForm { low, map }),
        Err(_) => None,
    }
}
