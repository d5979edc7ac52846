//! Numbers in records of 8 bytes.

ghost use Rattle.std.specs.Prelude.{◌≡◌, ◌+◌, ◌*◌, ◌%◌, ◌^◌, ◌≤◌, length};
ghost use Rattle.std.specs.Fork.{slice_chunk};
ghost use Rattle.bm_base.specs.Butterfly.{number_in};

use crate::limits::NUMBER_BYTES;
use byteorder::{ByteOrder, LittleEndian};

/// The number in record i.
pub fn number_at(bytes: &[u8], i: usize) -> u64
    requires { (i + 1) * 8 ≤ length bytes.now }
    ensures number { result ≡ number_in (slice_chunk bytes.now 8 i) }

    // It is the number modulo 2^64 too, in which kernels count.
    ensures word { result ≡ number_in (slice_chunk bytes.now 8 i) % 2 ^ 64 }
{
    let at = i * NUMBER_BYTES;
    LittleEndian::read_u64(&bytes[at..at + NUMBER_BYTES])
}
