//! Ranks of the first columns of a matrix, without its first rows.

ghost use Rattle.std.specs.Prelude.{◌≡◌, ℕ, ◌+◌, ◌-◌, ◌≤◌, ◌↔◌, List, length};
ghost use Rattle.bm_rank.specs.Rank.{cut_columns, rank_of_rows, IsBasis};
ghost use Rattle.bm_gf2.specs.Matrix.{IsNonsingular};

use crate::echelon::Echelon;
use bm_gf2::Matrix;

/// The rank of columns 0 to cols - 1, cut to rows `row` and above.
///
/// It is the dimension of their span: each basis has as many vectors.
pub fn rank_of(a: &Matrix, row: u8, cols: u8) -> u8
    requires row { row ≤ a.now.n }
    requires cols { cols ≤ a.now.n }
    ensures rank { result ≡ rank_of_rows a.now.cols row cols }
    ensures dimension { (basis : List ℕ)
        → IsBasis basis (cut_columns a.now.cols row cols) → length basis ≡ result }
    ensures within_columns { result ≤ cols }
    ensures within_rows { result ≤ a.now.n - row }
    ensures nonsingular { row ≡ 0 → cols ≡ a.now.n → ((result ≡ a.now.n) ↔ IsNonsingular a.now) }
{
    let mut found = Echelon::new(a.n);
    let mut rank = 0;
    for j in (0..cols).rev() {
        let fresh = found.insert(a.cols[usize::from(j)] >> row);
        if fresh {
            rank += 1;
        }
    }
    rank
}
