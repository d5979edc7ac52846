//! The least vector that a matrix sends to 0.

ghost use Rattle.std.specs.Prelude.{◌≡◌, ◌-◌, ◌^◌, ◌<◌, IfOk, OnOk, IfErr, MatchOption, take};
ghost use Rattle.bm_gf2.specs.Matrix.{IsNonsingular};
ghost use Rattle.bm_gf2.specs.Kernel.{IsLeastKernel};

use crate::echelon::Echelon;
use bm_gf2::Matrix;

/// The least vector but 0 that a sends to 0. None exactly where a is nonsingular.
pub fn kernel_least(a: &Matrix) -> Option<u64>
    ensures { MatchOption result (IsNonsingular a.now) (λ x. IsLeastKernel a.now x) }
{
    match column_basis(a) {
        Ok(_) => None,
        Err(x) => Some(x),
    }
}

/// All columns in order, or the least vector that shows that they aren't independent.
pub fn column_basis(a: &Matrix) -> Result<Echelon, u64>
    ensures columns { IfOk result (λ e. (e.n ≡ a.now.n) × (e.kept ≡ take a.now.n a.now.cols)) }
    ensures nonsingular { OnOk result (IsNonsingular a.now) }
    ensures singular { IfErr result (λ x. IsLeastKernel a.now x) }
{
    let mut found = Echelon::new(a.n);
    for j in 0..a.n {
        let column = a.cols[usize::from(j)];
        if let Some(x) = found.combination(column) {
            return Err(x ^ (1 << j));
        }
        let _ = found.insert(column);
    }
    Ok(found)
}
