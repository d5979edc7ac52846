//! Swappers.

ghost use Rattle.std.specs.Prelude.{◌≡◌, ◌≢◌, ℕ, ◌/◌, ◌^◌, ◌<◌, ◌≤◌};
ghost use Rattle.bm_gf2.specs.Matrix.{column, IsNonsingular};
ghost use Rattle.bm_factor.specs.Columns.{IsOwnInverse};
ghost use Rattle.bm_factor.specs.Swapper.{IsSwapper};

use bm_base::Shape;
use bm_gf2::Matrix;

/// The swapper S of a: it exchanges columns of 0 to m-1, so that as many of columns b to m-1 of
/// `a S` as there can be are not 0 in rows m and above, and the last ones are these.
pub fn swapper(shape: &Shape, a: &Matrix) -> Matrix
    requires size { a.now.n ≡ shape.now.n }
    ensures swapper { IsSwapper a.now result shape.now.b shape.now.m }
    ensures nonsingular { IsNonsingular result }
    ensures inverse { IsOwnInverse result }
{
    let m = shape.m();
    let mut s = Matrix::identity(a.n);
    let mut next = 0;
    for i in (shape.b()..m).rev() {
        if a.cols[usize::from(i)] >> m == 0 {
            let k = next_nonzero(a, m, next, i);
            if k < i {
                s.swap_columns(i, k);
                next = k + 1;
            }
        }
    }
    s
}

// The first column from `from` on and before `to` that is not 0 in rows m and above, or `to`.
fn next_nonzero(a: &Matrix, m: u8, from: u8, to: u8) -> u8
    requires m { m ≤ a.now.n }
    requires to { to ≤ a.now.n }
    ensures within { result ≤ to }
    ensures from { result < to → from ≤ result }
    ensures nonzero { result < to → column a.now result / 2 ^ m ≢ 0 }
    ensures zeros { (p : ℕ) → from ≤ p → p < result → column a.now p / 2 ^ m ≡ 0 }
{
    for k in from..to {
        if a.cols[usize::from(k)] >> m != 0 {
            return k;
        }
    }
    to
}
