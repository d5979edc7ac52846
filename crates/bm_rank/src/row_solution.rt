//! Some rows of a matrix from others.
//!
//! L is rows b to m - 1 and H rows m and above, both of columns 0 to m - 1.

ghost use Rattle.std.specs.Prelude.{◌≡◌, ℕ, ◌+◌, ◌-◌, ◌%◌, ◌^◌, ◌<◌, ◌≤◌, IfSome, IfNone, MatchResult, length, slice_index};
ghost use Rattle.bm_gf2.specs.Vector.{xor_sum};
ghost use Rattle.bm_gf2.specs.Matrix.{IsNonsingular};
ghost use Rattle.bm_rank.specs.RowSolution.{IsLeastSplit, IsSolution, IsLeastOutside, IsCovered, IsCut};

use crate::echelon::Echelon;
use crate::inversion::inverse;
use bm_gf2::{MOST_COLUMNS, Matrix, RowMap, no_columns, sum_of_columns};

/// There is no map from L to H: x below `2 ^ m` has Lx = 0 and Hx not 0, and is the least such.
#[derive(Clone, Copy, Debug, PartialEq, Eq)]
pub struct Outside {
    /// The least vector that shows it.
    pub x: u64,
}

// The least vector that the first columns send to 0 and the second do not.
fn first_split(
    m: u8,
    width: u8,
    lows: &[u64; MOST_COLUMNS],
    highs: &[u64; MOST_COLUMNS],
) -> Option<u64>
    requires few { m ≤ 52 }
    requires narrow { width ≤ 52 }
    requires lows { (j : ℕ) → j < m → slice_index lows.now j < 2 ^ width }
    ensures some { IfSome result (λ x. IsLeastSplit lows.now highs.now m x) }
    ensures none { IfNone result ((y : ℕ) → y < 2 ^ m
        → xor_sum (slice_index lows.now) m y ≡ 0 → xor_sum (slice_index highs.now) m y ≡ 0) }
{
    let mut found = Echelon::new(width);
    let mut units = no_columns();
    let mut count: u8 = 0;
    for j in 0..m {
        let low = lows[usize::from(j)];
        if let Some(set) = found.combination(low) {
            let x = sum_of_columns(count, &units, set) ^ (1 << j);
            if sum_of_columns(m, highs, x) != 0 {
                return Some(x);
            }
        } else {
            let _ = found.insert(low);
            units[usize::from(count)] = 1 << j;
            count += 1;
        }
    }
    None
}

/// Rows `from` to `from + width - 1` of columns 0 to m - 1; the other columns are 0.
pub fn cut_rows(a: &Matrix, m: u8, from: u8, width: u8) -> [u64; MOST_COLUMNS]
    requires m { m ≤ a.now.n }
    requires from { from ≤ 52 }
    requires width { width ≤ 52 }
    ensures rows { IsCut a.now m from width result }
    ensures below { (j : ℕ) → j < m → slice_index result j < 2 ^ width }
    ensures rest { (j : ℕ) → m ≤ j → slice_index result j ≡ 0 }
    ensures long { length result ≡ 52 }
{
    let mut cols = no_columns();
    for j in 0..m {
        cols[usize::from(j)] = (a.cols[usize::from(j)] >> from) % (1 << width);
    }
    cols
}

/// The map K with H = K L, from the m - b rows of L to those of H.
///
/// Refused exactly where there is none: some x below `2 ^ m` has Lx = 0 and Hx not 0.
pub fn solve_rows(a: &Matrix, b: u8, m: u8) -> Result<RowMap, Outside>
    requires nonsingular { IsNonsingular a.now }
    requires b { b < m }
    requires m { m ≤ a.now.n }
    ensures { MatchResult result (λ k. IsSolution a.now b m k) (λ e. IsLeastOutside a.now b m e.x) }
{
    let lows = cut_rows(a, m, b, m - b);
    let highs = cut_rows(a, m, m, a.n - m);
    match first_split(m, m - b, &lows, &highs) {
        Some(x) => Err(Outside { x }),
        None => Ok(solution_of(a, b, m, &highs)),
    }
}

// That map, where there is one: its column i is H of the vector that the leading block sends to
// 2 ^ (b + i).
fn solution_of(a: &Matrix, b: u8, m: u8, highs: &[u64; MOST_COLUMNS]) -> RowMap
    requires nonsingular { IsNonsingular a.now }
    requires b { b < m }
    requires m { m ≤ a.now.n }
    requires covered { IsCovered a.now b m }
    requires highs { IsCut a.now m m (a.now.n - m) highs.now }
    ensures { IsSolution a.now b m result }
{
    let lead = Matrix {
        n: m,
        cols: cut_rows(a, m, 0, m),
    };
    let Ok(back) = inverse(&lead) else {
        unreachable!()
    };
    let mut cols = no_columns();
    for i in 0..m - b {
        cols[usize::from(i)] = sum_of_columns(m, highs, back.cols[usize::from(b + i)]);
    }
    RowMap { count: m - b, cols }
}
