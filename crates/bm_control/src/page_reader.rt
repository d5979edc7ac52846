//! Numbers in a page.

ghost use Rattle.std.specs.Prelude.{◌≡◌, ◌≤◌, ◌↔◌, drop, IsTrue};
ghost use Rattle.bm_control.specs.Bodies.{u16_in, u64_in};

use bm_base::PAGE_BYTES;
use byteorder::{ByteOrder, LittleEndian};

/// The number in the 2 bytes from this place on.
pub fn u16_at(page: &[u8; PAGE_BYTES], place: usize) -> u16
    requires { place ≤ 510 }
    ensures { result ≡ u16_in (drop place page.now) }
{
    LittleEndian::read_u16(&page[place..])
}

/// The number in the 8 bytes from this place on.
pub fn u64_at(page: &[u8; PAGE_BYTES], place: usize) -> u64
    requires { place ≤ 504 }
    ensures { result ≡ u64_in (drop place page.now) }
{
    LittleEndian::read_u64(&page[place..])
}

/// Whether both pages have the same bytes.
pub fn same_page(one: &[u8; PAGE_BYTES], other: &[u8; PAGE_BYTES]) -> bool
    ensures { IsTrue result ↔ (one.now ≡ other.now) }
{
    *one == *other
}
