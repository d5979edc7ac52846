//! Inverses of matrices.

ghost use Rattle.std.specs.Prelude.{◌≡◌, ◌-◌, ◌<◌, OnOk, MatchResult, take};
ghost use Rattle.bm_gf2.specs.Matrix.{IsNonsingular};
ghost use Rattle.bm_gf2.specs.Kernel.{IsLeastKernel};
ghost use Rattle.bm_rank.specs.Inverse.{IsInverse};

use crate::echelon::Echelon;
use crate::kernel::column_basis;
use bm_gf2::{Matrix, no_columns};

/// The matrix is singular: it sends x to 0, and x is the least such vector but 0.
#[derive(Clone, Copy, Debug, PartialEq, Eq)]
pub struct Singular {
    /// The least vector but 0 that is sent to 0.
    pub x: u64,
}

/// The matrix that undoes a, from both sides. Refused exactly where a is singular.
pub fn inverse(a: &Matrix) -> Result<Matrix, Singular>
    ensures undone { MatchResult result (λ b. IsInverse a.now b) (λ e. IsLeastKernel a.now e.x) }
    ensures nonsingular { OnOk result (IsNonsingular a.now) }
{
    match column_basis(a) {
        Ok(found) => Ok(inverse_of(a, &found)),
        Err(x) => Err(Singular { x }),
    }
}

// The inverse, where all columns were kept: column i is the set of columns with the sum 2 ^ i.
fn inverse_of(a: &Matrix, found: &Echelon) -> Matrix
    requires size { found.now.n ≡ a.now.n }
    requires kept { found.now.kept ≡ take a.now.n a.now.cols }
    requires nonsingular { IsNonsingular a.now }
    ensures { IsInverse a.now result }
{
    let mut cols = no_columns();
    for i in 0..a.n {
        cols[usize::from(i)] = found.combination(1 << i).unwrap();
    }
    Matrix { n: a.n, cols }
}
