//! Gates: commit pages, which are open or closed.

ghost use Rattle.std.specs.Prelude.{◌≡◌, ◌↔◌, IsTrue};
ghost use Rattle.bm_base.specs.Gate.{open_gate, IsOpenGate};

use crate::page_writer::PageWriter;
use bm_base::PAGE_BYTES;

/// The page of an open gate: the text `BMMCOPEN`, and zeros.
#[tactic(auto, unfolding(bm_base::specs::Gate::open_gate, crate::specs::Bodies::padded))]
pub fn gate_page() -> [u8; PAGE_BYTES]
    ensures { result ≡ open_gate }
{
    let mut page = PageWriter::new();
    page.put(b"BMMCOPEN");
    page.finish()
}

/// Whether the page is an open gate. Every other page is a closed one.
pub fn is_gate(page: &[u8; PAGE_BYTES]) -> bool
    ensures { IsTrue result ↔ IsOpenGate page.now }
{
    *page == gate_page()
}
