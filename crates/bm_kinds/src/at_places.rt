//! A kernel on a set of bits of the numbers, of records at the places of an affine map.

ghost use Rattle.std.specs.Prelude.{◌≡◌, ◌≢◌, ℕ, ◌+◌, ◌-◌, ◌*◌, ◌^◌, ◌<◌, ◌≤◌};
ghost use Rattle.std.specs.Prelude.{List, length, count_ones};
ghost use Rattle.bm_base.specs.Records.{SameRecords};
ghost use Rattle.bm_base.specs.Butterfly.{butterflies};
ghost use Rattle.bm_gf2.specs.Matrix.{IsNonsingular};
ghost use Rattle.bm_butter.specs.Records.{record_at_place};
ghost use Rattle.bm_butter.specs.OnBits.{word, kernel_over};
ghost use Rattle.bm_kinds.specs.Parts.{IsPart, IsDone};
ghost use Rattle.bm_kinds.specs.Kinds.{Kind, WalshBits, pairing, kind_transformed};

use crate::few_bits::radix;
use crate::low_run::{are_lone, on_low_run};
use crate::lowest::lowest;
use bm_butter::Kernel;
use bm_gf2::Matrix;

// The kernel on the T lowest bits of those that are left of a set. It answers what is then left.
fn on_lowest<K: Kernel, const T: usize>(
    kernel: &K,
    buf: &mut [u8],
    a: &Matrix,
    plus: u64,
    left: u64,
) -> u64
    requires few { T ≤ 3 }
    requires ones { T ≤ count_ones left }
    requires nonsingular { IsNonsingular a.now }
    requires plus { plus < 2 ^ a.now.n }
    requires whole { length buf.old ≡ 8 * 2 ^ a.now.n }
    requires left { left < 2 ^ a.now.n }
    ensures size { length buf.new ≡ length buf.old }
    ensures part { IsPart result left }
    ensures ones { count_ones result + T ≡ count_ones left }
    ensures done { (set : ℕ) (xs : ℕ → List ℕ) → IsPart left set
        → IsDone (K.meaning kernel.now) a.now.n set left xs (record_at_place a.now plus buf.old)
        → IsDone (K.meaning kernel.now) a.now.n set result xs
        (record_at_place a.now plus buf.new) }
{
    let (bits, rest) = lowest::<T>(left);
    radix(kernel, buf, a, plus, bits);
    rest
}

// Takes as many bits as are left, and at most `$limit` and the first of the counts.
macro_rules! by_count {
    (
        $kernel:expr, $buf:expr, $a:expr, $plus:expr, $left:expr, $limit:expr;
        $most:literal $($fewer:literal)* or $least:literal
    ) => {
        match $left.count_ones().min($limit).min($most) {
            $most => on_lowest::<K, $most>($kernel, $buf, $a, $plus, $left),
            $($fewer => on_lowest::<K, $fewer>($kernel, $buf, $a, $plus, $left),)*
            _ => on_lowest::<K, $least>($kernel, $buf, $a, $plus, $left),
        }
    };
}

// The kernel on up to three of the bits that are left, and at most so many. It answers what is then
// left.
fn on_some<K: Kernel>(
    kernel: &K,
    buf: &mut [u8],
    a: &Matrix,
    plus: u64,
    left: u64,
    limit: u32,
) -> u64
    requires some { left ≢ 0 }
    requires nonsingular { IsNonsingular a.now }
    requires plus { plus < 2 ^ a.now.n }
    requires whole { length buf.old ≡ 8 * 2 ^ a.now.n }
    requires left { left < 2 ^ a.now.n }
    ensures size { length buf.new ≡ length buf.old }
    ensures part { IsPart result left }
    ensures fewer { count_ones result < count_ones left }
    ensures done { (set : ℕ) (xs : ℕ → List ℕ) → IsPart left set
        → IsDone (K.meaning kernel.now) a.now.n set left xs (record_at_place a.now plus buf.old)
        → IsDone (K.meaning kernel.now) a.now.n set result xs
        (record_at_place a.now plus buf.new) }
{
    by_count!(kernel, buf, a, plus, left, limit; 3 2 or 1)
}

/// The kernel on each bit of a set, in ascending order, of records of which number i stands at the
/// place `a i XOR plus`.
///
/// The places stay as they are: afterwards number i stands there again. For each of the four
/// kernels this is its kind of transform over the set, and for `Signs` over the lowest bits the
/// butterflies on them.
///
/// The lowest bits, as far as the set has them all, are taken as the butterflies take them. Of the
/// others two are taken at a time where they are bits of the places, since two fill a sweep over
/// the buffer, and else three.
pub fn kernel_at<K: Kernel>(kernel: &K, buf: &mut [u8], a: &Matrix, plus: u64, set: u64)
    requires nonsingular { IsNonsingular a.now }
    requires plus { plus < 2 ^ a.now.n }
    requires whole { length buf.old ≡ 8 * 2 ^ a.now.n }
    requires set { set < 2 ^ a.now.n }
    ensures size { length buf.new ≡ length buf.old }
    ensures records { SameRecords (2 ^ a.now.n) (record_at_place a.now plus buf.new)
        (kernel_over (K.meaning kernel.now) a.now.n set (record_at_place a.now plus buf.old)) }
    ensures kinds { (kind : Kind) → K.meaning kernel.now ≡ pairing kind
        → (k : ℕ) → k < 2 ^ a.now.n → word (record_at_place a.now plus buf.new k)
        ≡ kind_transformed kind a.now.n set (λ x. word (record_at_place a.now plus buf.old x)) k }
    ensures butterflies { (low : ℕ) → K.meaning kernel.now ≡ pairing WalshBits → set ≡ 2 ^ low - 1
        → SameRecords (2 ^ a.now.n) (record_at_place a.now plus buf.new)
        (butterflies low (record_at_place a.now plus buf.old)) }
{
    let mut left = on_low_run(kernel, buf, a, plus, set);
    let limit = if are_lone(a, left) { 2 } else { 3 };
    while left != 0 {
        left = on_some(kernel, buf, a, plus, left, limit);
    }
}
