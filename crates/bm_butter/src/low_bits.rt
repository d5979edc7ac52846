//! Kernels on the lowest bits of the numbers, of records at the places of an affine map.

ghost use Rattle.std.specs.Prelude.{◌≡◌, ℕ, ◌+◌, ◌*◌, ◌^◌, ◌<◌, ◌≤◌, List, length};
ghost use Rattle.bm_base.specs.Records.{SameRecords};
ghost use Rattle.bm_base.specs.Butterfly.{butterflies};
ghost use Rattle.bm_gf2.specs.Matrix.{IsNonsingular};
ghost use Rattle.bm_butter.specs.OnBits.{kernel_digits};
ghost use Rattle.bm_butter.specs.Records.{record_at_place};

use crate::at_places::{one_at, two_at};
use crate::blocks::{block_bits, transform_blocks};
use crate::kernels::{Kernel, Signs};
use bm_bufs::run_bits;
use bm_gf2::Matrix;

// A kernel on number bits `from` to `low - 1`, two bits a sweep over the buffer: what was done up
// to bit `from` is then done up to bit `low`.
fn sweep_at<K: Kernel>(kernel: &K, buf: &mut [u8], a: &Matrix, plus: u64, from: u8, low: u8)
    requires nonsingular { IsNonsingular a.now }
    requires plus { plus < 2 ^ a.now.n }
    requires whole { length buf.old ≡ 8 * 2 ^ a.now.n }
    requires order { from ≤ low }
    requires low { low ≤ a.now.n }
    ensures size { length buf.new ≡ length buf.old }
    ensures records { (xs : ℕ → List ℕ)
        → SameRecords (2 ^ a.now.n) (record_at_place a.now plus buf.old)
        (kernel_digits (K.meaning kernel.now) from xs)
        → SameRecords (2 ^ a.now.n) (record_at_place a.now plus buf.new)
        (kernel_digits (K.meaning kernel.now) low xs) }
{
    for two in 0..(low - from) / 2 {
        let i = from + 2 * two;
        two_at(kernel, buf, a, plus, i, i + 1);
    }
    let left_over = (low - from) % 2;
    if left_over == 1 {
        one_at(kernel, buf, a, plus, low - 1);
    }
}

/// A kernel on number bits 0 to low - 1, in ascending order, of records of which number x stands at
/// the place `a x XOR plus`.
///
/// The places stay as they are: afterwards number x stands there again. Low bits that are bits of
/// the places go block by block, where the caches hold what they need.
pub fn lowest_at<K: Kernel>(kernel: &K, buf: &mut [u8], a: &Matrix, plus: u64, low: u8)
    requires nonsingular { IsNonsingular a.now }
    requires plus { plus < 2 ^ a.now.n }
    requires whole { length buf.old ≡ 8 * 2 ^ a.now.n }
    requires low { low ≤ a.now.n }
    ensures size { length buf.new ≡ length buf.old }
    ensures records { SameRecords (2 ^ a.now.n) (record_at_place a.now plus buf.new)
        (kernel_digits (K.meaning kernel.now) low (record_at_place a.now plus buf.old)) }
{
    let on_blocks = block_bits(low.min(run_bits(a, plus, 0, 0)));
    transform_blocks(kernel, buf, on_blocks);
    sweep_at(kernel, buf, a, plus, on_blocks, low);
}

/// The butterflies on number bits 0 to low - 1, in ascending order, of records of which number i
/// stands at the place `a i XOR plus`.
///
/// The places stay as they are: afterwards number i stands there again. Low bits that are bits of
/// the places go block by block, where the caches hold what they need.
pub fn butterflies_at(buf: &mut [u8], a: &Matrix, plus: u64, low: u8)
    requires nonsingular { IsNonsingular a.now }
    requires plus { plus < 2 ^ a.now.n }
    requires whole { length buf.old ≡ 8 * 2 ^ a.now.n }
    requires low { low ≤ a.now.n }
    ensures size { length buf.new ≡ length buf.old }
    ensures records { SameRecords (2 ^ a.now.n) (record_at_place a.now plus buf.new)
        (butterflies low (record_at_place a.now plus buf.old)) }
{
    lowest_at(&Signs, buf, a, plus, low);
}
