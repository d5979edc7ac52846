//! The Gray code and its inverse.

ghost use Rattle.std.specs.Prelude.{◌≡◌, ℕ, ◌+◌, ◌-◌, ◌/◌, ◌^◌, ◌<◌, ◌≤◌, length, slice_index, bit_xor};
ghost use Rattle.std.specs.Int.{bit_at};
ghost use Rattle.bm_gf2.specs.Matrix.{IsNonsingular};
ghost use Rattle.bm_gf2.specs.Affine.{affine_image};
ghost use Rattle.bm_named.specs.GrayCode.{gray_of, xor_of_bits};

use bm_gf2::{Affine, Matrix, no_columns};

/// The Gray code: x goes to `x XOR x / 2`, for addresses of n bits, 1 to 52. Neighbours differ in
/// one bit.
pub fn gray(n: u8) -> Affine
    requires some { 1 ≤ n }
    requires few { n ≤ 52 }
    ensures size { result.a.n ≡ n }
    ensures value { (x : ℕ) → x < 2 ^ n → affine_image result x ≡ bit_xor x (x / 2) }
    ensures nonsingular { IsNonsingular result.a }
{
    Affine {
        a: gray_matrix(n),
        c: 0,
    }
}

/// The inverse Gray code: target bit i is the XOR of the source bits i to n-1, for addresses of n
/// bits, 1 to 52.
pub fn inverse_gray(n: u8) -> Affine
    requires some { 1 ≤ n }
    requires few { n ≤ 52 }
    ensures size { result.a.n ≡ n }
    ensures bits { (x i : ℕ) → x < 2 ^ n → i < n
        → bit_at (affine_image result x) i ≡ xor_of_bits n i x }
    ensures undone { (x : ℕ) → x < 2 ^ n → gray_of (affine_image result x) ≡ x }
    ensures nonsingular { IsNonsingular result.a }
{
    Affine {
        a: inverse_gray_matrix(n),
        c: 0,
    }
}

// Column j is the Gray code of `2 ^ j`.
#[tactic(auto, using(bm_gf2::proofs::VectorLemmas::unit_below))]
fn gray_matrix(n: u8) -> Matrix
    requires some { 1 ≤ n }
    requires few { n ≤ 52 }
    ensures size { result.n ≡ n }
    ensures columns { (j : ℕ) → j < n → slice_index result.cols j ≡ gray_of (2 ^ j) }
{
    let mut cols = no_columns();
    for j in 0..n {
        let unit = 1u64 << j;
        cols[usize::from(j)] = unit ^ (unit / 2);
    }
    Matrix { n, cols }
}

// Column j has bits 0 to j.
#[tactic(auto, using(bm_gf2::proofs::VectorLemmas::unit_below))]
fn inverse_gray_matrix(n: u8) -> Matrix
    requires some { 1 ≤ n }
    requires few { n ≤ 52 }
    ensures size { result.n ≡ n }
    ensures columns { (j : ℕ) → j < n → slice_index result.cols j ≡ 2 ^ (j + 1) - 1 }
{
    let mut cols = no_columns();
    for j in 0..n {
        cols[usize::from(j)] = (1 << (j + 1)) - 1;
    }
    Matrix { n, cols }
}
