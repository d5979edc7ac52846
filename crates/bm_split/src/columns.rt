//! Columns for the maps of the two steps.

ghost use Rattle.std.specs.Prelude.{◌≡◌, ℕ, ◌+◌, ◌-◌, ◌*◌, ◌/◌, ◌^◌, ◌<◌, ◌≤◌, slice_index, take};
ghost use Rattle.bm_gf2.specs.Matrix.{column};
ghost use Rattle.bm_bufs.specs.Tiles.{HasRunBasis};
ghost use Rattle.bm_split.specs.RunMap.{IsRunMap};
ghost use Rattle.bm_split.specs.Bases.{HasBasis};

use bm_gf2::{MOST_COLUMNS, Matrix, no_columns};
use bm_rank::Echelon;

/// The map of n bits that keeps the `low` lowest and sends the others where the columns say.
pub fn run_map(n: u8, low: u8, tops: &[u64; MOST_COLUMNS]) -> Matrix
    requires few { n ≤ 52 }
    requires low { low < n }
    requires below { (i : ℕ) → i < n - low → slice_index tops.now i < 2 ^ (n - low) }
    ensures size { result.n ≡ n }
    ensures columns { IsRunMap result low tops.now }
    ensures runs { HasRunBasis result low }
{
    let mut cols = Matrix::identity(n).cols;
    for i in 0..n - low {
        cols[usize::from(low + i)] = tops[usize::from(i)] << low;
    }
    Matrix { n, cols }
}

/// The trailing block: rows and columns from `low` on.
#[tactic(auto, using(bm_base::proofs::PowerLemmas::cut_below))]
pub fn trailing_columns(a: &Matrix, low: u8) -> [u64; MOST_COLUMNS]
    requires { low < a.now.n }
    ensures columns { (i : ℕ) → i < a.now.n - low
        → slice_index result i ≡ column a.now (low + i) / 2 ^ low }
    ensures below { (i : ℕ) → i < a.now.n - low → slice_index result i < 2 ^ (a.now.n - low) }
{
    let mut tops = no_columns();
    for i in 0..a.n - low {
        tops[usize::from(i)] = a.cols[usize::from(low + i)] >> low;
    }
    tops
}

/// Columns 0 to low - 1 without their rows below `low`, and then all units of the other rows.
#[tactic(auto, using(bm_base::proofs::PowerLemmas::cut_below, bm_gf2::proofs::VectorLemmas::unit_below))]
pub fn run_vectors(a: &Matrix, low: u8) -> [u64; MOST_COLUMNS]
    requires { low < a.now.n }
    ensures cut { (i : ℕ) → i < low → slice_index result i ≡ column a.now i / 2 ^ low }
    ensures units { (i : ℕ) → low ≤ i → i < a.now.n → slice_index result i ≡ 2 ^ (i - low) }
    ensures below { (i : ℕ) → i < a.now.n → slice_index result i < 2 ^ (a.now.n - low) }
{
    let mut vectors = no_columns();
    for i in 0..a.n {
        vectors[usize::from(i)] = if i < low {
            a.cols[usize::from(i)] >> low
        } else {
            1 << (i - low)
        };
    }
    vectors
}

/// Those of the first `count` vectors that are no sums of ones before them.
pub fn independent_ones(vectors: &[u64; MOST_COLUMNS], count: u8, bits: u8) -> [u64; MOST_COLUMNS]
    requires count { count ≤ 52 }
    requires bits { bits ≤ 52 }
    requires below { (i : ℕ) → i < count → slice_index vectors.now i < 2 ^ bits }
    ensures below { (i : ℕ) → slice_index result i < 2 ^ bits }
    ensures bases { (k : ℕ) → k ≤ count → HasBasis result (take k vectors.now) }
{
    let mut found = Echelon::new(bits);
    let mut ones = no_columns();
    let mut next = 0;
    for i in 0..count {
        let vector = vectors[usize::from(i)];
        if found.insert(vector) {
            ones[usize::from(next)] = vector;
            next += 1u8;
        }
    }
    ones
}
