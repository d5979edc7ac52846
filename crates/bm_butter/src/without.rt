//! Maps of the numbers without a bit.

ghost use Rattle.std.specs.Prelude.{◌≡◌, ℕ, ◌+◌, ◌-◌, ◌^◌, ◌<◌, ◌≤◌};
ghost use Rattle.bm_gf2.specs.Matrix.{column, image};
ghost use Rattle.bm_butter.specs.Groups.{spread};

use bm_gf2::Matrix;

/// The matrix without column i: the columns above it move down by one, and the last becomes 0.
///
/// It sends each number of n - 1 bits to where `a` sends the number with a clear bit i put in.
pub fn without_column(a: &Matrix, i: u8) -> Matrix
    requires { i < a.now.n }
    ensures size { result.n ≡ a.now.n }
    ensures image { (w : ℕ) → w < 2 ^ (a.now.n - 1) → image result w ≡ image a.now (spread i w) }
{
    let mut cols = a.cols;
    for j in i..a.n - 1 {
        cols[usize::from(j)] = a.cols[usize::from(j + 1)];
    }
    cols[usize::from(a.n - 1)] = 0;
    Matrix { n: a.n, cols }
}
