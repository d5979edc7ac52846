//! Trailers.

ghost use Rattle.std.specs.Prelude.{◌≡◌, ℕ, ◌-◌, ◌/◌, ◌^◌, ◌<◌, ◌≤◌, false, true};
ghost use Rattle.bm_gf2.specs.Matrix.{column, IsNonsingular};
ghost use Rattle.bm_rank.specs.Span.{in_span};
ghost use Rattle.bm_factor.specs.Columns.{IsOwnInverse};
ghost use Rattle.bm_factor.specs.Trailer.{IsTrailer};

use bm_base::Shape;
use bm_gf2::Matrix;
use bm_rank::Echelon;

/// The trailer T of a: it adds columns of 0 to m-1 into columns m to n-1, so that the trailing
/// block of `a T`, rows and columns m to n-1, is nonsingular.
pub fn trailer(shape: &Shape, a: &Matrix) -> Matrix
    requires size { a.now.n ≡ shape.now.n }
    requires nonsingular { IsNonsingular a.now }
    ensures trailer { IsTrailer a.now result shape.now.m }
    ensures inverse { IsOwnInverse result }
{
    let m = shape.m();
    let mut t = Matrix::identity(a.n);
    let mut found = Echelon::new(a.n - m);
    for j in m..a.n {
        let own = a.cols[usize::from(j)] >> m;
        if !found.insert(own) {
            let i = free_column(a, m, &found);
            t.add_column(i, j);
            let _ = found.insert(own ^ (a.cols[usize::from(i)] >> m));
        }
    }
    t
}

// A column below m whose rows from m on are no sum of what was found.
fn free_column(a: &Matrix, m: u8, found: &Echelon) -> u8
    requires m { m ≤ a.now.n }
    requires size { found.now.n ≡ a.now.n - m }
    requires some { ¬ ((i : ℕ) → i < m → in_span found.now.kept (column a.now i / 2 ^ m) ≡ true) }
    ensures below { result < m }
    ensures free { in_span found.now.kept (column a.now result / 2 ^ m) ≡ false }
{
    for i in 0..m {
        if found.reduce(a.cols[usize::from(i)] >> m) != 0 {
            return i;
        }
    }
    unreachable!()
}
