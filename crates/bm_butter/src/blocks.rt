//! Kernels on low bits of the places, block after block that the caches hold.

ghost use Rattle.std.specs.Prelude.{◌≡◌, ℕ, ◌+◌, ◌*◌, ◌/◌, ◌%◌, ◌^◌, ◌<◌, ◌≤◌, ◌⊎◌, length};
ghost use Rattle.bm_base.specs.Records.{SameRecords};
ghost use Rattle.bm_butter.specs.OnBits.{kernel_digits};
ghost use Rattle.bm_butter.specs.Records.{record_in_order};

use crate::in_place::sweep_in_order;
use crate::kernels::Kernel;
use bm_base::NUMBER_BYTES;

// The bits of the places in the largest block, of 512 KiB, and in the smallest one that is worth a
// loop of its own.
const MOST_BLOCK_BITS: u8 = 16;

const LEAST_BLOCK_BITS: u8 = 8;

/// How many of so many low bits are best done on blocks.
pub fn block_bits(low: u8) -> u8
    ensures within { result ≤ low }
    ensures few { result < 61 }
{
    if low < LEAST_BLOCK_BITS {
        0
    } else {
        low.min(MOST_BLOCK_BITS)
    }
}

// A kernel on the bits below `bits` in one block of 2^bits records.
fn transform_block<K: Kernel>(kernel: &K, buf: &mut [u8], bits: u8, block: usize)
    requires bits { bits < 61 }
    requires fits { (block * 2 ^ bits + 2 ^ bits) * 8 ≤ length buf.old }
    ensures done { (t : ℕ) → t < 2 ^ bits → record_in_order buf.new (block * 2 ^ bits + t)
        ≡ kernel_digits (K.meaning kernel.now) bits
        (λ k. record_in_order buf.old (block * 2 ^ bits + k)) t }
    ensures others { (x : ℕ) → (x < block * 2 ^ bits) ⊎ (block * 2 ^ bits + 2 ^ bits ≤ x)
        → record_in_order buf.new x ≡ record_in_order buf.old x }
    ensures size { length buf.new ≡ length buf.old }
{
    let bytes = (1 << bits) * NUMBER_BYTES;
    let start = block * bytes;
    sweep_in_order(kernel, &mut buf[start..start + bytes], 0, bits);
}

/// A kernel on the bits of the places below `bits`: all of them in one block of 2^bits records, and
/// then in the next.
pub fn transform_blocks<K: Kernel>(kernel: &K, buf: &mut [u8], bits: u8)
    requires bits { bits < 61 }
    requires whole { length buf.old % (8 * 2 ^ bits) ≡ 0 }
    ensures size { length buf.new ≡ length buf.old }
    ensures records { SameRecords (length buf.old / 8) (record_in_order buf.new)
        (kernel_digits (K.meaning kernel.now) bits (record_in_order buf.old)) }
{
    if bits == 0 {
        return;
    }
    let count = buf.len() / NUMBER_BYTES;
    for block in 0..count >> bits {
        transform_block(kernel, buf, bits, block);
    }
}
