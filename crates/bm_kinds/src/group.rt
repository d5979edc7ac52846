//! A group of numbers that a few bits tell apart, taken through the kernel on each of those bits.

ghost use Rattle.std.specs.Prelude.{◌≡◌, ◌≢◌, ℕ, ◌+◌, ◌*◌, ◌^◌, ◌<◌, ◌≤◌};
ghost use Rattle.std.specs.Prelude.{length, slice_index, bit_xor};
ghost use Rattle.bm_base.specs.Butterfly.{record_of};
ghost use Rattle.bm_butter.specs.Records.{record_in_order};
ghost use Rattle.bm_butter.specs.OnBits.{word, kernel_on, kernel_digits};
ghost use Rattle.bm_kinds.specs.Groups.{corner, AreInside, HaveOwnPlaces};

use bm_base::number_at;
use bm_butter::{Kernel, set_number};

// The numbers of the largest group, which has three bits.
const GROUP: usize = 8;

/// The numbers of a group, or what is XORed into the place of its first one to give those of all.
pub type Group = [u64; GROUP];

/// A group of zeros.
pub fn zeros() -> Group
    ensures { length result ≡ 8 }
{
    [0; GROUP]
}

// The numbers of a group of 2^T.
fn gather<const T: usize>(buf: &[u8], here: u64, offsets: &Group) -> Group
    requires few { T ≤ 3 }
    requires inside { AreInside (2 ^ T) (corner here (slice_index offsets.now)) (length buf.now) }
    ensures numbers { (t : ℕ) → t < 2 ^ T → slice_index result t
        ≡ word (record_in_order buf.now (corner here (slice_index offsets.now) t)) }
{
    let mut numbers = zeros();
    for t in 0..1usize << T {
        numbers[t] = number_at(buf, (here ^ offsets[t]) as usize);
    }
    numbers
}

// What becomes of number t by the kernel on digit j.
fn number_on<K: Kernel>(kernel: &K, from: &Group, t: usize, j: usize) -> u64
    requires number { t < 8 }
    requires digit { j < 3 }
    ensures { record_of result ≡ kernel_on (K.meaning kernel.now) j
        (λ k. record_of (slice_index from.now k)) t }
{
    let here = from[t];
    let there = from[t ^ (1 << j)];
    if (t >> j) & 1 == 0 {
        kernel.pair(here, there).0
    } else {
        kernel.pair(there, here).1
    }
}

// The kernel on digit j of a group of 2^T.
fn on_digit<K: Kernel, const T: usize>(kernel: &K, from: &Group, j: usize) -> Group
    requires few { T ≤ 3 }
    requires digit { j < T }
    ensures { (t : ℕ) → t < 2 ^ T → record_of (slice_index result t)
        ≡ kernel_on (K.meaning kernel.now) j (λ k. record_of (slice_index from.now k)) t }
{
    let mut numbers = zeros();
    for t in 0..1usize << T {
        numbers[t] = number_on(kernel, from, t, j);
    }
    numbers
}

// The kernel on all digits of a group of 2^T.
fn on_digits<K: Kernel, const T: usize>(kernel: &K, from: &Group) -> Group
    requires few { T ≤ 3 }
    ensures { (t : ℕ) → t < 2 ^ T → record_of (slice_index result t)
        ≡ kernel_digits (K.meaning kernel.now) T (λ k. record_of (slice_index from.now k)) t }
{
    let mut numbers = *from;
    for j in 0..T {
        numbers = on_digit::<K, T>(kernel, &numbers, j);
    }
    numbers
}

// Writes the numbers of a group of 2^T.
fn scatter<const T: usize>(buf: &mut [u8], here: u64, offsets: &Group, numbers: &Group)
    requires few { T ≤ 3 }
    requires inside { AreInside (2 ^ T) (corner here (slice_index offsets.now)) (length buf.old) }
    requires apart { HaveOwnPlaces (2 ^ T) (corner here (slice_index offsets.now)) }
    ensures written { (t : ℕ) → t < 2 ^ T
        → record_in_order buf.new (corner here (slice_index offsets.now) t)
        ≡ record_of (slice_index numbers.now t) }
    ensures others { (x : ℕ)
        → ((t : ℕ) → t < 2 ^ T → x ≢ corner here (slice_index offsets.now) t)
        → record_in_order buf.new x ≡ record_in_order buf.old x }
    ensures size { length buf.new ≡ length buf.old }
{
    for t in 0..1usize << T {
        set_number(buf, (here ^ offsets[t]) as usize, numbers[t]);
    }
}

/// Takes the records of a group of 2^T through the kernel on each of the group's bits. Record t of
/// the group stands at `here XOR offsets[t]`.
pub fn transform_group<K: Kernel, const T: usize>(
    kernel: &K,
    buf: &mut [u8],
    here: u64,
    offsets: &Group,
)
    requires some { 1 ≤ T }
    requires few { T ≤ 3 }
    requires inside { AreInside (2 ^ T) (corner here (slice_index offsets.now)) (length buf.old) }
    requires apart { HaveOwnPlaces (2 ^ T) (corner here (slice_index offsets.now)) }
    ensures done { (t : ℕ) → t < 2 ^ T
        → record_in_order buf.new (corner here (slice_index offsets.now) t)
        ≡ kernel_digits (K.meaning kernel.now) T
        (λ k. record_in_order buf.old (corner here (slice_index offsets.now) k)) t }
    ensures others { (x : ℕ)
        → ((t : ℕ) → t < 2 ^ T → x ≢ corner here (slice_index offsets.now) t)
        → record_in_order buf.new x ≡ record_in_order buf.old x }
    ensures size { length buf.new ≡ length buf.old }
{
    let before = gather::<T>(buf, here, offsets);
    let after = on_digits::<K, T>(kernel, &before);
    scatter::<T>(buf, here, offsets, &after);
}
