//! Columns that set one bit which no other column has.

ghost use Rattle.std.specs.Prelude.{◌≡◌, ◌≢◌, ℕ, ◌^◌, ◌<◌, ◌≤◌, ◌↔◌, IsTrue, MatchOption};
ghost use Rattle.std.specs.Int.{bit_at};
ghost use Rattle.bm_gf2.specs.Matrix.{column};
ghost use Rattle.bm_butter.specs.LoneBit.{IsLoneBit};

use bm_base::log2_of;
use bm_gf2::Matrix;

// Whether no column but i has an entry in row h.
fn is_alone(a: &Matrix, i: u8, h: u8) -> bool
    requires { h < 64 }
    ensures { IsTrue result
        ↔ ((j : ℕ) → j < a.now.n → j ≢ i → bit_at (column a.now j) h ≡ 0) }
{
    for j in 0..a.n {
        if j != i && (a.cols[usize::from(j)] >> h) & 1 == 1 {
            return false;
        }
    }
    true
}

/// The row in which column i has its only entry, where no other column has one there. It is nothing
/// exactly where there is no such row.
pub fn lone_bit(a: &Matrix, i: u8) -> Option<u8>
    requires { i < a.now.n }
    ensures { MatchOption result ((h : ℕ) → ¬ IsLoneBit a.now i h) (IsLoneBit a.now i) }
{
    let h = log2_of(a.cols[usize::from(i)])?;
    if h < a.n && is_alone(a, i, h) {
        Some(h)
    } else {
        None
    }
}
