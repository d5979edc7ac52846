//! Rotations of the address bits, and the transpositions that they are.

ghost use Rattle.std.specs.Prelude.{◌≡◌, ℕ, ◌+◌, ◌-◌, ◌*◌, ◌%◌, ◌^◌, ◌<◌, ◌≤◌};
ghost use Rattle.std.specs.Int.{bit_at};
ghost use Rattle.bm_gf2.specs.Matrix.{column, IsNonsingular};
ghost use Rattle.bm_gf2.specs.Affine.{affine_image};

use bm_gf2::{Affine, Matrix};

/// The rotation of the address bits: target bit i is source bit `(i + by) mod n`, for addresses of
/// n bits, 1 to 52.
pub fn rotation(n: u8, by: u8) -> Affine
    requires some { 1 ≤ n }
    requires few { n ≤ 52 }
    ensures size { result.a.n ≡ n }
    ensures bits { (x i : ℕ) → x < 2 ^ n → i < n
        → bit_at (affine_image result x) i ≡ bit_at x ((i + by) % n) }
    ensures columns { by ≤ n → (j : ℕ) → j < n → column result.a j ≡ 2 ^ ((j + n - by) % n) }
    ensures constant { result.c ≡ 0 }
    ensures nonsingular { IsNonsingular result.a }
{
    Affine {
        a: Matrix::rotation(n, by),
        c: 0,
    }
}

/// The transposition of a matrix of records with `2 ^ p` rows and `2 ^ (n - p)` columns, both in
/// row-major order: row i, column j becomes row j, column i.
pub fn transpose(n: u8, p: u8) -> Affine
    requires some { 1 ≤ n }
    requires few { n ≤ 52 }
    requires side { p ≤ n }
    ensures size { result.a.n ≡ n }
    ensures value { (i j : ℕ) → i < 2 ^ p → j < 2 ^ (n - p)
        → affine_image result (i * 2 ^ (n - p) + j) ≡ j * 2 ^ p + i }
    ensures nonsingular { IsNonsingular result.a }
{
    rotation(n, n - p)
}
