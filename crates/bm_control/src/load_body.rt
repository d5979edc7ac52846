//! The load body: the shape of the records that are loaded.

ghost use Rattle.std.specs.Prelude.{◌≡◌, ◌↔◌, Some};
ghost use Rattle.bm_base.specs.declared.shape.Shape.{Shape};
ghost use Rattle.bm_control.specs.Bodies.{load_page};

use crate::page_reader::{same_page, u16_at};
use crate::page_writer::PageWriter;
use bm_base::{PAGE_BYTES, Shape};

// The load body's version.
const VERSION: u16 = 1;

/// The load body of a shape.
pub fn encode_load(shape: &Shape) -> [u8; PAGE_BYTES]
    ensures { result ≡ load_page shape.now }
{
    let mut page = PageWriter::new();
    page.put(b"BMMCLOAD");
    page.put_u16(VERSION);
    page.put(&[shape.n(), shape.b(), shape.d(), shape.m()]);
    page.put_u16(shape.width());
    page.finish()
}

/// The shape whose load body the page is, or nothing where it is no shape's.
pub fn decode_load(page: &[u8; PAGE_BYTES]) -> Option<Shape>
    ensures { (shape : Shape) → (result ≡ Some shape) ↔ (page.now ≡ load_page shape) }
{
    let width = u16_at(page, 14);
    let Ok(shape) = Shape::new(page[10], page[11], page[12], page[13], width) else {
        return None;
    };
    if same_page(&encode_load(&shape), page) {
        Some(shape)
    } else {
        None
    }
}
