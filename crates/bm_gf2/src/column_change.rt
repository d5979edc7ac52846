//! A matrix with another column.

ghost use Rattle.std.specs.Prelude.{◌≡◌, ◌≢◌, ℕ, ◌^◌, ◌<◌};

use crate::matrix::Matrix;

impl Matrix {
    ghost use Rattle.bm_gf2.specs.Matrix.{column};

    /// This matrix with column j replaced by `new`.
    pub fn with_column(&self, j: u8, new: u64) -> Matrix
        requires j { j < self.now.n }
        requires below { new < 2 ^ self.now.n }
        ensures size { result.n ≡ self.now.n }
        ensures changed { column result j ≡ new }
        ensures others { (k : ℕ) → k ≢ j → column result k ≡ column self.now k }
    {
        let mut cols = self.cols;
        cols[usize::from(j)] = new;
        Matrix { n: self.n, cols }
    }
}
