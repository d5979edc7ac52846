//! The lowest bits of the numbers, as far as a set has them all.

ghost use Rattle.std.specs.Prelude.{◌≡◌, ℕ, ◌*◌, ◌^◌, ◌<◌, ◌≤◌, length, bit_xor};
ghost use Rattle.std.specs.Int.{bit_at};
ghost use Rattle.bm_gf2.specs.Matrix.{IsNonsingular};
ghost use Rattle.bm_butter.specs.Records.{record_at_place};
ghost use Rattle.bm_kinds.specs.Parts.{IsPart, IsDone};

use bm_butter::{Kernel, lone_bit, lowest_at};
use bm_gf2::Matrix;

// How many bits below n from bit 0 on are in a set, without a gap.
fn low_run(set: u64, n: u8) -> u8
    requires { n < 64 }
    ensures within { result ≤ n }
    ensures held { (k : ℕ) → k < result → bit_at set k ≡ 1 }
{
    for low in 0..n {
        if (set >> low) & 1 == 0 {
            return low;
        }
    }
    n
}

/// The kernel on the lowest bits of the numbers, as far as the set has them without a gap. It
/// answers what is then left of the set.
pub fn on_low_run<K: Kernel>(kernel: &K, buf: &mut [u8], a: &Matrix, plus: u64, set: u64) -> u64
    requires nonsingular { IsNonsingular a.now }
    requires plus { plus < 2 ^ a.now.n }
    requires whole { length buf.old ≡ 8 * 2 ^ a.now.n }
    ensures size { length buf.new ≡ length buf.old }
    ensures part { IsPart result set }
    ensures done { IsDone (K.meaning kernel.now) a.now.n set result
        (record_at_place a.now plus buf.old) (record_at_place a.now plus buf.new) }
{
    let low = low_run(set, a.n);
    lowest_at(kernel, buf, a, plus, low);
    set ^ ((1 << low) - 1)
}

/// Whether each bit of the set is one bit of the places. The answer decides speed alone, so no
/// clause tells it.
pub fn are_lone(a: &Matrix, set: u64) -> bool {
    for i in 0..a.n {
        if (set >> i) & 1 == 1 && lone_bit(a, i).is_none() {
            return false;
        }
    }
    true
}
