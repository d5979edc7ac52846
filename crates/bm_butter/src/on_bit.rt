//! A kernel on one bit of the places in a buffer.

ghost use Rattle.std.specs.Prelude.{◌≡◌, ℕ, ◌+◌, ◌*◌, ◌^◌, ◌<◌, ◌≤◌, ◌⊎◌, length};
ghost use Rattle.std.specs.Int.{bit_at};
ghost use Rattle.bm_butter.specs.Records.{record_in_order};
ghost use Rattle.bm_butter.specs.Pairs.{IsPaired, AreHalves};

use crate::kernels::Kernel;
use crate::pair::pair;

/// Where the records of a pair stand: u stands `at_u` and v `at_v` places after a place without the
/// bit.
#[derive(Clone, Copy, Debug)]
pub struct Halves {
    pub bit: u8,
    pub at_u: usize,
    pub at_v: usize,
    pub ghost few: { bit < 61 },
    pub ghost halves: { AreHalves bit at_u at_v },
}

impl Halves {
    /// The halves for a bit of places that `plus` is XORed into: u stands where the bit is that of
    /// `plus`.
    #[tactic(auto, using(std::proofs::lemmas::Nat::Bits::shr_and_one))]
    pub fn of(bit: u8, plus: u64) -> Halves
        requires { bit < 61 }
        ensures bit { result.bit ≡ bit }
        ensures clear { bit_at plus bit ≡ 0 → (result.at_u ≡ 0) × (result.at_v ≡ 2 ^ bit) }
        ensures set { bit_at plus bit ≡ 1 → (result.at_u ≡ 2 ^ bit) × (result.at_v ≡ 0) }
    {
        let half = 1 << bit;
        if (plus >> bit) & 1 == 0 {
            Halves {
                bit,
                at_u: 0,
                at_v: half,
            }
        } else {
            Halves {
                bit,
                at_u: half,
                at_v: 0,
            }
        }
    }
}

// Makes so many pairs: u stands at `first` and the places that follow, v at `second` and those that
// follow.
fn make_pairs<K: Kernel>(kernel: &K, buf: &mut [u8], first: usize, second: usize, count: usize)
    requires apart { (first + count ≤ second) ⊎ (second + count ≤ first) }
    requires first { (first + count) * 8 ≤ length buf.old }
    requires second { (second + count) * 8 ≤ length buf.old }
    ensures paired { (k : ℕ) → k < count
        → IsPaired (K.meaning kernel.now) buf.old buf.new (first + k) (second + k) }
    ensures others { (k : ℕ) → (k < first) ⊎ (first + count ≤ k)
        → (k < second) ⊎ (second + count ≤ k)
        → record_in_order buf.new k ≡ record_in_order buf.old k }
    ensures size { length buf.new ≡ length buf.old }
{
    for k in 0..count {
        pair(kernel, buf, first + k, second + k);
    }
}

/// A kernel on a bit of the places, in the blocks `from` to `to`. A block has twice as many records
/// as the bit's value.
pub fn mix_bit<K: Kernel>(kernel: &K, buf: &mut [u8], halves: &Halves, from: usize, to: usize)
    requires order { from ≤ to }
    requires fits { to * 2 ^ (halves.now.bit + 1) * 8 ≤ length buf.old }
    ensures paired { (x : ℕ) → from * 2 ^ (halves.now.bit + 1) ≤ x
        → x < to * 2 ^ (halves.now.bit + 1) → bit_at x halves.now.bit ≡ 0
        → IsPaired (K.meaning kernel.now) buf.old buf.new
        (x + halves.now.at_u) (x + halves.now.at_v) }
    ensures others { (x : ℕ)
        → (x < from * 2 ^ (halves.now.bit + 1)) ⊎ (to * 2 ^ (halves.now.bit + 1) ≤ x)
        → record_in_order buf.new x ≡ record_in_order buf.old x }
    ensures size { length buf.new ≡ length buf.old }
{
    let half = 1usize << halves.bit;
    for block in from..to {
        let start = block * (2 * half);
        make_pairs(kernel, buf, start + halves.at_u, start + halves.at_v, half);
    }
}
