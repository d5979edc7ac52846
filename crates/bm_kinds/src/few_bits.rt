//! A kernel on a few bits of the numbers at once, of records at the places of an affine map.

ghost use Rattle.std.specs.Prelude.{◌≡◌, ℕ, ◌+◌, ◌*◌, ◌^◌, ◌<◌, ◌≤◌, length, slice_index};
ghost use Rattle.bm_base.specs.Records.{SameRecords};
ghost use Rattle.bm_gf2.specs.Matrix.{IsNonsingular, image};
ghost use Rattle.bm_gf2.specs.Vector.{xor_sum};
ghost use Rattle.bm_butter.specs.Records.{record_at_place};
ghost use Rattle.bm_butter.specs.OnBits.{kernel_over, set_of, AreBits};
ghost use Rattle.bm_kinds.specs.Groups.{member};

use crate::group::{Group, transform_group, zeros};
use bm_butter::{Kernel, one_at, two_at};
use bm_gf2::{Matrix, Stepper};

// The set of the bits.
fn set_of_bits<const T: usize>(bits: &[u8; T]) -> u64
    requires { (j : ℕ) → j < T → slice_index bits.now j < 64 }
    ensures { result ≡ set_of (slice_index bits.now) T }
{
    let mut set = 0;
    for j in 0..T {
        set |= 1 << bits[j];
    }
    set
}

// The number whose bits of the list are the digits of t, and which has no others.
fn member_of<const T: usize>(bits: &[u8; T], t: usize) -> u64
    requires few { T ≤ 3 }
    requires bits { (j : ℕ) → j < T → slice_index bits.now j < 64 }
    ensures { result ≡ member (slice_index bits.now) T t }
{
    let mut number = 0;
    for j in 0..T {
        if (t >> j) & 1 == 1 {
            number ^= 1 << bits[j];
        }
    }
    number
}

// What is XORed into the place of a number without the bits to give the places of its group.
fn offsets_of<const T: usize>(a: &Matrix, bits: &[u8; T]) -> Group
    requires few { T ≤ 3 }
    requires bits { AreBits a.now.n T (slice_index bits.now) }
    ensures { (t : ℕ) → t < 2 ^ T
        → slice_index result t ≡ image a.now (member (slice_index bits.now) T t) }
{
    let mut offsets = zeros();
    for t in 0..1usize << T {
        offsets[t] = a.apply(member_of(bits, t));
    }
    offsets
}

// The kernel on each of T bits of the numbers, group by group: the numbers without the bits are
// those of a walk over all.
fn by_numbers<K: Kernel, const T: usize>(
    kernel: &K,
    buf: &mut [u8],
    a: &Matrix,
    plus: u64,
    bits: [u8; T],
)
    requires some { 1 ≤ T }
    requires few { T ≤ 3 }
    requires nonsingular { IsNonsingular a.now }
    requires plus { plus < 2 ^ a.now.n }
    requires whole { length buf.old ≡ 8 * 2 ^ a.now.n }
    requires bits { AreBits a.now.n T (slice_index bits) }
    ensures size { length buf.new ≡ length buf.old }
    ensures records { SameRecords (2 ^ a.now.n) (record_at_place a.now plus buf.new)
        (kernel_over (K.meaning kernel.now) a.now.n (set_of (slice_index bits.entry) T)
        (record_at_place a.now plus buf.old)) }
{
    let set = set_of_bits(&bits);
    let offsets = offsets_of(a, &bits);
    let mut stepper = Stepper::start(a, plus, 0);
    for number in 0..1u64 << a.n {
        if number & set == 0 {
            transform_group::<K, T>(kernel, buf, stepper.here(), &offsets);
        }
        stepper.step();
    }
}

/// The kernel on each of T bits of the numbers, in ascending order, of records of which number i
/// stands at the place `a i XOR plus`, in one pass over them.
///
/// T is at most 3. The bits may be listed in any order. The places stay as they are: afterwards
/// number i stands there again.
pub fn radix<K: Kernel, const T: usize>(
    kernel: &K,
    buf: &mut [u8],
    a: &Matrix,
    plus: u64,
    bits: [u8; T],
)
    requires few { T ≤ 3 }
    requires nonsingular { IsNonsingular a.now }
    requires plus { plus < 2 ^ a.now.n }
    requires whole { length buf.old ≡ 8 * 2 ^ a.now.n }
    requires bits { AreBits a.now.n T (slice_index bits) }
    ensures size { length buf.new ≡ length buf.old }
    ensures records { SameRecords (2 ^ a.now.n) (record_at_place a.now plus buf.new)
        (kernel_over (K.meaning kernel.now) a.now.n (set_of (slice_index bits.entry) T)
        (record_at_place a.now plus buf.old)) }
{
    if T == 0 {
        return;
    }
    if T == 1 {
        one_at(kernel, buf, a, plus, bits[0]);
        return;
    }
    if T == 2 {
        two_at(
            kernel,
            buf,
            a,
            plus,
            bits[0].min(bits[1]),
            bits[0].max(bits[1]),
        );
        return;
    }
    by_numbers(kernel, buf, a, plus, bits);
}
