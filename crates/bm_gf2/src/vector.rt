//! Sums of columns: bit i of a number is entry i of a vector.

ghost use Rattle.std.specs.Prelude.{◌≡◌, ℕ, ◌^◌, ◌<◌, ◌≤◌, length, slice_index};
ghost use Rattle.bm_gf2.specs.Vector.{xor_sum, IsAdditive};

use bm_base::MOST_ADDRESS_BITS;

/// The most columns of a matrix, one for each bit of an address.
pub const MOST_COLUMNS: usize = MOST_ADDRESS_BITS as usize;

/// No columns: all are 0.
pub fn no_columns() -> [u64; MOST_COLUMNS]
    ensures long { length result ≡ 52 }
    ensures zeros { (j : ℕ) → slice_index result j ≡ 0 }
{
    [0; MOST_COLUMNS]
}

/// The XOR of those of the first `count` columns that x picks: column j where bit j of x is set.
#[tactic(auto, using(crate::proofs::VectorLemmas::xor_sum_taken, crate::proofs::VectorLemmas::xor_sum_left, crate::proofs::VectorLemmas::xor_sum_start))]
pub fn sum_of_columns(count: u8, cols: &[u64; MOST_COLUMNS], x: u64) -> u64
    requires { count ≤ 52 }
    ensures value { result ≡ xor_sum (slice_index cols.now) count x }
    ensures additive { IsAdditive (xor_sum (slice_index cols.now) count) }
    ensures below { (n : ℕ)
        → ((j : ℕ) → j < count → slice_index cols.now j < 2 ^ n)
        → result < 2 ^ n }
{
    let mut sum = 0;
    for j in 0..count {
        if (x >> j) & 1 == 1 {
            sum ^= cols[usize::from(j)];
        }
    }
    sum
}
