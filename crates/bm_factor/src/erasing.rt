//! Erasers.

ghost use Rattle.std.specs.Prelude.{◌≡◌, ℕ, ◌+◌, ◌-◌, ◌/◌, ◌^◌, ◌<◌, ◌≤◌, length, slice_index};
ghost use Rattle.bm_gf2.specs.Matrix.{column};
ghost use Rattle.bm_forms.specs.Mld.{IsMld};
ghost use Rattle.bm_factor.specs.Columns.{HasTrailingBlock, IsOwnInverse};
ghost use Rattle.bm_factor.specs.Eraser.{IsEraser};

use bm_base::Shape;
use bm_gf2::Matrix;
use bm_rank::Echelon;

/// The eraser E of a: it adds columns of m to n-1 into columns b to m-1, and these are 0 in rows m
/// and above of `a E`. It is its own inverse and MLD.
pub fn eraser(shape: &Shape, a: &Matrix) -> Matrix
    requires size { a.now.n ≡ shape.now.n }
    requires trailing { HasTrailingBlock (column a.now) a.now.n shape.now.m }
    ensures eraser { IsEraser a.now result shape.now.b shape.now.m }
    ensures inverse { IsOwnInverse result }
    ensures mld { IsMld result shape.now.b shape.now.m }
{
    let m = shape.m();
    let found = trailing_basis(a, m);
    let mut e = Matrix::identity(a.n);
    for j in shape.b()..m {
        let set = found.combination(a.cols[usize::from(j)] >> m).unwrap();
        e = e.with_column(j, (set << m) ^ (1 << j));
    }
    e
}

// The columns from m on, in rows m and above, which are a basis.
fn trailing_basis(a: &Matrix, m: u8) -> Echelon
    requires m { m ≤ a.now.n }
    requires trailing { HasTrailingBlock (column a.now) a.now.n m }
    ensures size { result.n ≡ a.now.n - m }
    ensures long { length result.kept ≡ a.now.n - m }
    ensures columns { (k : ℕ) → k < a.now.n - m
        → slice_index result.kept k ≡ column a.now (m + k) / 2 ^ m }
{
    let mut found = Echelon::new(a.n - m);
    for j in m..a.n {
        let _ = found.insert(a.cols[usize::from(j)] >> m);
    }
    found
}
