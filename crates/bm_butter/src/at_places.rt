//! Kernels on one bit and on two of the numbers, of records at the places of an affine map.

ghost use Rattle.std.specs.Prelude.{◌≡◌, ℕ, ◌+◌, ◌*◌, ◌^◌, ◌<◌, length};
ghost use Rattle.bm_base.specs.Records.{SameRecords};
ghost use Rattle.bm_gf2.specs.Matrix.{IsNonsingular};
ghost use Rattle.bm_butter.specs.OnBits.{kernel_on};
ghost use Rattle.bm_butter.specs.Records.{record_at_place};
ghost use Rattle.bm_butter.specs.LoneBit.{IsLoneBit};

use crate::kernels::Kernel;
use crate::lone::lone_bit;
use crate::on_bit::{Halves, mix_bit};
use crate::on_two_bits::{Corners, mix_two};
use crate::pair::pair;
use crate::quad::quad;
use crate::without::without_column;
use bm_gf2::{Matrix, Stepper};

// A kernel on one bit of the numbers, number by number.
fn one_by_numbers<K: Kernel>(kernel: &K, buf: &mut [u8], a: &Matrix, plus: u64, i: u8)
    requires nonsingular { IsNonsingular a.now }
    requires plus { plus < 2 ^ a.now.n }
    requires whole { length buf.old ≡ 8 * 2 ^ a.now.n }
    requires bit { i < a.now.n }
    ensures size { length buf.new ≡ length buf.old }
    ensures records { SameRecords (2 ^ a.now.n) (record_at_place a.now plus buf.new)
        (kernel_on (K.meaning kernel.now) i (record_at_place a.now plus buf.old)) }
{
    let apart = a.cols[usize::from(i)];
    let mut stepper = Stepper::start(a, plus, 0);
    for number in 0..1u64 << a.n {
        if (number >> i) & 1 == 0 {
            let place = stepper.here();
            pair(kernel, buf, place as usize, (place ^ apart) as usize);
        }
        stepper.step();
    }
}

// The same where the bit is one bit of the places: bit h, or its complement where `plus` has it.
fn one_at_bit<K: Kernel>(kernel: &K, buf: &mut [u8], a: &Matrix, plus: u64, i: u8, h: u8)
    requires plus { plus < 2 ^ a.now.n }
    requires whole { length buf.old ≡ 8 * 2 ^ a.now.n }
    requires bit { i < a.now.n }
    requires lone { IsLoneBit a.now i h }
    ensures size { length buf.new ≡ length buf.old }
    ensures records { SameRecords (2 ^ a.now.n) (record_at_place a.now plus buf.new)
        (kernel_on (K.meaning kernel.now) i (record_at_place a.now plus buf.old)) }
{
    mix_bit(kernel, buf, &Halves::of(h, plus), 0, 1 << (a.n - h - 1));
}

/// A kernel on one bit of the numbers, of records of which number x stands at the place
/// `a x XOR plus`.
pub fn one_at<K: Kernel>(kernel: &K, buf: &mut [u8], a: &Matrix, plus: u64, i: u8)
    requires nonsingular { IsNonsingular a.now }
    requires plus { plus < 2 ^ a.now.n }
    requires whole { length buf.old ≡ 8 * 2 ^ a.now.n }
    requires bit { i < a.now.n }
    ensures size { length buf.new ≡ length buf.old }
    ensures records { SameRecords (2 ^ a.now.n) (record_at_place a.now plus buf.new)
        (kernel_on (K.meaning kernel.now) i (record_at_place a.now plus buf.old)) }
{
    match lone_bit(a, i) {
        Some(h) => one_at_bit(kernel, buf, a, plus, i, h),
        None => one_by_numbers(kernel, buf, a, plus, i),
    }
}

// A kernel on bits i and j of the numbers, group by group: the numbers without both bits are those
// of the map without the two columns.
fn two_by_numbers<K: Kernel>(kernel: &K, buf: &mut [u8], a: &Matrix, plus: u64, i: u8, j: u8)
    requires nonsingular { IsNonsingular a.now }
    requires plus { plus < 2 ^ a.now.n }
    requires whole { length buf.old ≡ 8 * 2 ^ a.now.n }
    requires order { i < j }
    requires bits { j < a.now.n }
    ensures size { length buf.new ≡ length buf.old }
    ensures records { SameRecords (2 ^ a.now.n) (record_at_place a.now plus buf.new)
        (kernel_on (K.meaning kernel.now) j
        (kernel_on (K.meaning kernel.now) i (record_at_place a.now plus buf.old))) }
{
    let first = a.cols[usize::from(i)];
    let second = a.cols[usize::from(j)];
    let others = without_column(&without_column(a, j), i);
    let mut stepper = Stepper::start(&others, plus, 0);
    for group in 0..1u64 << (a.n - 2) {
        let place = stepper.here();
        quad(
            kernel,
            buf,
            place as usize,
            (place ^ first) as usize,
            (place ^ second) as usize,
            (place ^ first ^ second) as usize,
        );
        stepper.step();
    }
}

// The same where both bits are bits of the places: bits h and k, or their complements where `plus`
// has them.
fn two_at_bits<K: Kernel>(
    kernel: &K,
    buf: &mut [u8],
    a: &Matrix,
    plus: u64,
    i: u8,
    j: u8,
    h: u8,
    k: u8,
)
    requires plus { plus < 2 ^ a.now.n }
    requires whole { length buf.old ≡ 8 * 2 ^ a.now.n }
    requires order { i < j }
    requires bits { j < a.now.n }
    requires inner { IsLoneBit a.now i h }
    requires outer { IsLoneBit a.now j k }
    ensures size { length buf.new ≡ length buf.old }
    ensures records { SameRecords (2 ^ a.now.n) (record_at_place a.now plus buf.new)
        (kernel_on (K.meaning kernel.now) j
        (kernel_on (K.meaning kernel.now) i (record_at_place a.now plus buf.old))) }
{
    let corners = Corners::of(Halves::of(h, plus), Halves::of(k, plus));
    mix_two(kernel, buf, &corners, 1 << (a.n - 1 - corners.high));
}

/// A kernel on bits i and j of the numbers, i < j, in one pass over records of which number x
/// stands at the place `a x XOR plus`.
pub fn two_at<K: Kernel>(kernel: &K, buf: &mut [u8], a: &Matrix, plus: u64, i: u8, j: u8)
    requires nonsingular { IsNonsingular a.now }
    requires plus { plus < 2 ^ a.now.n }
    requires whole { length buf.old ≡ 8 * 2 ^ a.now.n }
    requires order { i < j }
    requires bits { j < a.now.n }
    ensures size { length buf.new ≡ length buf.old }
    ensures records { SameRecords (2 ^ a.now.n) (record_at_place a.now plus buf.new)
        (kernel_on (K.meaning kernel.now) j
        (kernel_on (K.meaning kernel.now) i (record_at_place a.now plus buf.old))) }
{
    match (lone_bit(a, i), lone_bit(a, j)) {
        (Some(h), Some(k)) => two_at_bits(kernel, buf, a, plus, i, j, h, k),
        _ => two_by_numbers(kernel, buf, a, plus, i, j),
    }
}
