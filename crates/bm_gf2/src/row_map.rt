//! Linear maps from few bits, as from some rows of a matrix to others.

ghost use Rattle.std.specs.Prelude.{◌≡◌, ℕ, ◌^◌, ◌<◌, ◌≤◌, slice_index};

use crate::vector::{MOST_COLUMNS, sum_of_columns};

/// A linear map from the vectors of `count` bits, at most 52.
///
/// Bit i of column j is the entry at row i, column j. Columns from `count` on are 0.
#[derive(Clone, Copy, Debug, PartialEq, Eq)]
pub struct RowMap {
    /// How many columns.
    pub count: u8,
    /// The columns, 0 from number `count` on.
    pub cols: [u64; MOST_COLUMNS],
    ghost few: { count ≤ 52 },
    ghost rest: { (j : ℕ) → count ≤ j → slice_index cols j ≡ 0 },
}

impl RowMap {
    ghost use Rattle.bm_gf2.specs.RowMap.{row_image};

    /// The XOR of the columns that x picks.
    pub fn apply(&self, x: u64) -> u64
        requires { x < 2 ^ self.now.count }
        ensures value { result ≡ row_image self.now x }
        ensures below { (n : ℕ)
            → ((j : ℕ) → j < self.now.count → slice_index self.now.cols j < 2 ^ n)
            → result < 2 ^ n }
    {
        sum_of_columns(self.count, &self.cols, x)
    }
}
