//! A page that is filled from its front.

ghost use Rattle.std.specs.Prelude.{◌≡◌, ◌+◌, ◌≤◌, [], ◌++◌, length};
ghost use Rattle.bm_control.specs.Bodies.{padded, u16_bytes, u64_bytes};

use bm_base::PAGE_BYTES;
use std::marker::Model;

/// The bytes of a page so far; the rest of it are zeros. Contracts see these bytes.
#[derive(Drop)]
pub struct PageWriter {
    bytes: [u8; PAGE_BYTES],
    len: usize,
}

impl Model for PageWriter {
    ghost use Rattle.std.specs.Prelude.{ℕ, List, take};
    ghost use Rattle.bm_control.specs.PageFront.{IsFront};

    ghost Value = { List ℕ };

    ghost view = { λ w. take w.len w.bytes };

    ghost invariant = { λ w. IsFront w.len w.bytes };
}

impl PageWriter {
    /// A page of zeros, with nothing written.
    pub fn new() -> PageWriter
        ensures { result ≡ [] }
    {
        PageWriter {
            bytes: [0; PAGE_BYTES],
            len: 0,
        }
    }

    /// Writes these bytes next. They fit the page.
    pub fn put(&mut self, bytes: &[u8])
        requires { length self.old + length bytes.now ≤ 512 }
        ensures bytes { self.new ≡ self.old ++ bytes.now }
        ensures length { length self.new ≡ length self.old + length bytes.now }
    {
        let end = self.len + bytes.len();
        self.bytes[self.len..end].copy_from_slice(bytes);
        self.len = end;
    }

    /// Writes a number of 2 bytes next.
    #[tactic(auto, unfolding(crate::specs::Bodies::u16_bytes))]
    pub fn put_u16(&mut self, number: u16)
        requires { length self.old + 2 ≤ 512 }
        ensures bytes { self.new ≡ self.old ++ u16_bytes number }
        ensures length { length self.new ≡ length self.old + 2 }
    {
        self.put(&number.to_le_bytes());
    }

    /// Writes a number of 8 bytes next.
    #[tactic(auto, unfolding(crate::specs::Bodies::u64_bytes))]
    pub fn put_u64(&mut self, number: u64)
        requires { length self.old + 8 ≤ 512 }
        ensures bytes { self.new ≡ self.old ++ u64_bytes number }
        ensures length { length self.new ≡ length self.old + 8 }
    {
        self.put(&number.to_le_bytes());
    }

    /// Goes on at this place of the page, with zeros before it.
    pub fn skip_to(&mut self, place: usize)
        requires before { length self.old ≤ place }
        requires within { place ≤ 512 }
        ensures bytes { self.new ≡ padded place self.old }
        ensures length { length self.new ≡ place }
    {
        self.len = place;
    }

    /// The page, with zeros after what was written.
    pub fn finish(self) -> [u8; PAGE_BYTES]
        ensures { result ≡ padded 512 self }
    {
        self.bytes
    }
}
