//! Kernels on records in order of address.

ghost use Rattle.std.specs.Prelude.{◌≡◌, ℕ, ◌+◌, ◌*◌, ◌/◌, ◌%◌, ◌^◌, ◌<◌, ◌≤◌, List, length};
ghost use Rattle.bm_base.specs.Records.{SameRecords};
ghost use Rattle.bm_base.specs.Butterfly.{butterflies};
ghost use Rattle.bm_butter.specs.OnBits.{kernel_on, kernel_digits};
ghost use Rattle.bm_butter.specs.Records.{record_in_order};

use crate::blocks::{block_bits, transform_blocks};
use crate::kernels::{Kernel, Signs};
use crate::on_bit::{Halves, mix_bit};
use crate::on_two_bits::{Corners, mix_two};
use bm_base::NUMBER_BYTES;

// A kernel on one bit of the addresses.
fn one_in_order<K: Kernel>(kernel: &K, buf: &mut [u8], i: u8)
    requires whole { length buf.old % (8 * 2 ^ (i + 1)) ≡ 0 }
    requires some { 0 < length buf.old }
    ensures size { length buf.new ≡ length buf.old }
    ensures records { SameRecords (length buf.old / 8) (record_in_order buf.new)
        (kernel_on (K.meaning kernel.now) i (record_in_order buf.old)) }
{
    let count = buf.len() / NUMBER_BYTES;
    mix_bit(kernel, buf, &Halves::of(i, 0), 0, count >> (i + 1));
}

// A kernel on bits i and i + 1 of the addresses.
fn two_in_order<K: Kernel>(kernel: &K, buf: &mut [u8], i: u8)
    requires whole { length buf.old % (8 * 2 ^ (i + 2)) ≡ 0 }
    requires some { 0 < length buf.old }
    ensures size { length buf.new ≡ length buf.old }
    ensures records { SameRecords (length buf.old / 8) (record_in_order buf.new)
        (kernel_on (K.meaning kernel.now) (i + 1)
        (kernel_on (K.meaning kernel.now) i (record_in_order buf.old))) }
{
    let count = buf.len() / NUMBER_BYTES;
    let corners = Corners::of(Halves::of(i, 0), Halves::of(i + 1, 0));
    mix_two(kernel, buf, &corners, count >> (i + 2));
}

/// A kernel on address bits `from` to `low - 1`, two bits a sweep over the buffer: what was done up
/// to bit `from` is then done up to bit `low`.
pub fn sweep_in_order<K: Kernel>(kernel: &K, buf: &mut [u8], from: u8, low: u8)
    requires order { from ≤ low }
    requires whole { length buf.old % (8 * 2 ^ low) ≡ 0 }
    requires some { 0 < length buf.old }
    ensures size { length buf.new ≡ length buf.old }
    ensures records { (xs : ℕ → List ℕ)
        → SameRecords (length buf.old / 8) (record_in_order buf.old)
        (kernel_digits (K.meaning kernel.now) from xs)
        → SameRecords (length buf.old / 8) (record_in_order buf.new)
        (kernel_digits (K.meaning kernel.now) low xs) }
{
    for two in 0..(low - from) / 2 {
        two_in_order(kernel, buf, from + 2 * two);
    }
    let left_over = (low - from) % 2;
    if left_over == 1 {
        one_in_order(kernel, buf, low - 1);
    }
}

/// The butterflies on address bits 0 to low - 1, in ascending order, of the records in a buffer.
///
/// A record is a little-endian u64. The butterfly on a bit takes each pair (u, v) at the addresses
/// without and with the bit to (u + v, u - v) modulo 2^64. Over all bits they are the fast
/// Walsh-Hadamard transform (Shanks).
///
/// The low bits go block by block, where the caches hold what they need, and each two of the others
/// in a sweep over the buffer.
pub fn butterflies(buf: &mut [u8], low: u8)
    requires whole { length buf.old % (8 * 2 ^ low) ≡ 0 }
    ensures size { length buf.new ≡ length buf.old }
    ensures records { SameRecords (length buf.old / 8) (record_in_order buf.new)
        (butterflies low (record_in_order buf.old)) }
{
    if buf.is_empty() {
        return;
    }
    let on_blocks = block_bits(low);
    transform_blocks(&Signs, buf, on_blocks);
    sweep_in_order(&Signs, buf, on_blocks, low);
}
