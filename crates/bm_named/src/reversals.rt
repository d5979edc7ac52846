//! The identity, and the reversals of the addresses and of their bits.

ghost use Rattle.std.specs.Prelude.{◌≡◌, ℕ, ◌-◌, ◌^◌, ◌<◌, ◌≤◌, length, slice_index};
ghost use Rattle.std.specs.Int.{bit_at};
ghost use Rattle.bm_gf2.specs.Matrix.{IsNonsingular};
ghost use Rattle.bm_gf2.specs.Affine.{affine_image};

use bm_gf2::{Affine, Matrix, no_columns};

/// Each record stays, for addresses of n bits, 1 to 52.
pub fn identity(n: u8) -> Affine
    requires some { 1 ≤ n }
    requires few { n ≤ 52 }
    ensures size { result.a.n ≡ n }
    ensures value { (x : ℕ) → x < 2 ^ n → affine_image result x ≡ x }
    ensures nonsingular { IsNonsingular result.a }
{
    Affine {
        a: Matrix::identity(n),
        c: 0,
    }
}

/// Vector reversal: the first record becomes the last, for addresses of n bits, 1 to 52.
pub fn reversal(n: u8) -> Affine
    requires some { 1 ≤ n }
    requires few { n ≤ 52 }
    ensures size { result.a.n ≡ n }
    ensures value { (x : ℕ) → x < 2 ^ n → affine_image result x ≡ 2 ^ n - 1 - x }
    ensures nonsingular { IsNonsingular result.a }
{
    Affine {
        a: Matrix::identity(n),
        c: (1 << n) - 1,
    }
}

/// Bit reversal: target bit i is source bit n-1-i, for addresses of n bits, 1 to 52.
pub fn bit_reversal(n: u8) -> Affine
    requires some { 1 ≤ n }
    requires few { n ≤ 52 }
    ensures size { result.a.n ≡ n }
    ensures bits { (x i : ℕ) → x < 2 ^ n → i < n
        → bit_at (affine_image result x) i ≡ bit_at x (n - 1 - i) }
    ensures nonsingular { IsNonsingular result.a }
{
    Affine {
        a: antidiagonal(n),
        c: 0,
    }
}

// Column j has bit n-1-j alone.
#[tactic(auto, using(bm_gf2::proofs::VectorLemmas::unit_below))]
fn antidiagonal(n: u8) -> Matrix
    requires some { 1 ≤ n }
    requires few { n ≤ 52 }
    ensures size { result.n ≡ n }
    ensures columns { (j : ℕ) → j < n → slice_index result.cols j ≡ 2 ^ (n - 1 - j) }
{
    let mut cols = no_columns();
    for j in 0..n {
        cols[usize::from(j)] = 1 << (n - 1 - j);
    }
    Matrix { n, cols }
}
