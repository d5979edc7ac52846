//! Reducers.

ghost use Rattle.std.specs.Prelude.{◌≡◌, ℕ, ◌<◌, ◌≤◌};
ghost use Rattle.bm_gf2.specs.declared.matrix.Matrix.{Matrix as AMatrix};
ghost use Rattle.bm_gf2.specs.Matrix.{IsNonsingular};
ghost use Rattle.bm_factor.specs.Reducer.{IsReducer};

use bm_base::Shape;
use bm_gf2::{Matrix, no_columns, sum_of_columns};
use bm_rank::Echelon;

/// The reducer R of a: it acts within columns 0 to m-1, and those of `a R` that are not 0 in rows m
/// and above are independent there, as many as their rank.
///
/// These are the lowest such columns of a, moved in order to the top of columns 0 to m-1, and the
/// others stand in order below them. So where the lowest address bits leave the load, the first
/// pass turns the bits within it, which fills some streams of records in order. No clause rests on
/// this order.
pub fn reducer(shape: &Shape, a: &Matrix) -> Matrix
    requires size { a.now.n ≡ shape.now.n }
    ensures reducer { IsReducer a.now result shape.now.m }
    ensures nonsingular { IsNonsingular result }
{
    let r = independent_tops(a, shape.m());
    zeros_first(a, shape.m(), r)
}

// The reducer in place: each of columns 0 to m-1 that is a sum of earlier ones in rows m and above
// has these added, and becomes 0 there.
fn independent_tops(a: &Matrix, m: u8) -> Matrix
    requires m { m ≤ a.now.n }
    ensures reducer { IsReducer a.now result m }
    ensures nonsingular { IsNonsingular result }
{
    let mut r = Matrix::identity(a.n);
    let mut found = Echelon::new(a.n - m);
    let mut pivots = no_columns();
    let mut count: u8 = 0;
    for j in 0..m {
        let top = a.cols[usize::from(j)] >> m;
        if found.insert(top) {
            pivots[usize::from(count)] = 1 << j;
            count += 1;
        } else {
            let set = found.combination(top).unwrap();
            r = r.with_column(j, sum_of_columns(count, &pivots, set) ^ (1 << j));
        }
    }
    r
}

// The reducer r of a with another order of its columns 0 to m-1: first those that give `a r` a
// column that is 0 in rows m and above, then the others, each in their order.
fn zeros_first(a: &Matrix, m: u8, r: Matrix) -> Matrix
    requires m { m ≤ a.now.n }
    requires reducer { IsReducer a.now r m }
    requires nonsingular { IsNonsingular r }
    ensures reducer { IsReducer a.now result m }
    ensures nonsingular { IsNonsingular result }
{
    let mut sorted = r;
    let mut zeros = 0;
    for j in 0..m {
        if a.apply(sorted.cols[usize::from(j)]) >> m == 0 {
            move_down(&mut sorted, j, zeros);
            zeros += 1;
        }
    }
    sorted
}

// Moves column `from` down to place `to`; those that stood from there on go up by one.
fn move_down(r: &mut Matrix, from: u8, to: u8)
    requires from { from < r.old.n }
    ensures size { r.new.n ≡ r.old.n }
    ensures reducer { (a : AMatrix) → (m : ℕ) → from < m → m ≤ a.n
        → IsReducer a r.old m → IsReducer a r.new m }
    ensures nonsingular { IsNonsingular r.old → IsNonsingular r.new }
{
    for k in (to..from).rev() {
        r.swap_columns(k, k + 1);
    }
}
