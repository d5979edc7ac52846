//! Square matrices.

ghost use Rattle.std.specs.Prelude.{◌≡◌, ◌≢◌, ℕ, ◌+◌, ◌-◌, ◌%◌, ◌^◌, ◌<◌, ◌≤◌, length, slice_index, bit_xor};
ghost use Rattle.std.specs.Int.{bit_at};
ghost use Rattle.bm_gf2.specs.Vector.{IsAdditive};

use crate::vector::{MOST_COLUMNS, no_columns, sum_of_columns};

/// A square matrix over GF(2) with n rows and columns, n from 1 to 52.
///
/// Bit i of column j is the entry at row i, column j. Columns from n on are 0.
#[derive(Clone, Copy, Debug, PartialEq, Eq)]
pub struct Matrix {
    /// How many rows and columns, 1 to 52.
    pub n: u8,
    /// The columns, 0 from number n on.
    pub cols: [u64; MOST_COLUMNS],
    ghost some: { 1 ≤ n },
    ghost few: { n ≤ 52 },
    ghost long: { length cols ≡ 52 },
    ghost below: { (j : ℕ) → j < n → slice_index cols j < 2 ^ n },
    ghost rest: { (j : ℕ) → n ≤ j → slice_index cols j ≡ 0 },
}

impl Matrix {
    ghost use Rattle.bm_gf2.specs.Matrix.{column, image};

    /// The matrix that changes nothing.
    #[tactic(auto, using(crate::proofs::VectorLemmas::unit_below))]
    pub fn identity(n: u8) -> Matrix
        requires some { 1 ≤ n }
        requires few { n ≤ 52 }
        ensures size { result.n ≡ n }
        ensures columns { (j : ℕ) → j < n → column result j ≡ 2 ^ j }
        ensures unchanged { (x : ℕ) → x < 2 ^ n → image result x ≡ x }
    {
        let mut cols = no_columns();
        for j in 0..n {
            cols[usize::from(j)] = 1 << j;
        }
        Matrix { n, cols }
    }

    /// The image of x: the XOR of the columns that x picks.
    pub fn apply(&self, x: u64) -> u64
        requires { x < 2 ^ self.now.n }
        ensures value { result ≡ image self.now x }
        ensures below { result < 2 ^ self.now.n }
        ensures additive { IsAdditive (image self.now) }
    {
        sum_of_columns(self.n, &self.cols, x)
    }

    /// The product, which applies `right` first. Both have one n.
    pub fn mul(&self, right: &Matrix) -> Matrix
        requires { self.now.n ≡ right.now.n }
        ensures size { result.n ≡ self.now.n }
        ensures columns { (j : ℕ) → j < result.n
            → column result j ≡ image self.now (column right.now j) }
        ensures composes { (x : ℕ) → image result x ≡ image self.now (image right.now x) }
    {
        let mut cols = no_columns();
        for j in 0..self.n {
            cols[usize::from(j)] = self.apply(right.cols[usize::from(j)]);
        }
        Matrix { n: self.n, cols }
    }

    /// Row i: bit j is the entry at row i, column j.
    pub fn row(&self, i: u8) -> u64
        requires { i < self.now.n }
        ensures below { result < 2 ^ self.now.n }
        ensures bits { (j : ℕ) → j < self.now.n → bit_at result j ≡ bit_at (column self.now j) i }
    {
        let mut row = 0;
        for j in 0..self.n {
            if (self.cols[usize::from(j)] >> i) & 1 == 1 {
                row ^= 1 << j;
            }
        }
        row
    }

    /// The transpose: the entry at row i, column j goes to row j, column i.
    pub fn transpose(&self) -> Matrix
        ensures size { result.n ≡ self.now.n }
        ensures entries { (i j : ℕ) → i < result.n → j < result.n
            → bit_at (column result i) j ≡ bit_at (column self.now j) i }
    {
        let mut cols = no_columns();
        for i in 0..self.n {
            cols[usize::from(i)] = self.row(i);
        }
        Matrix { n: self.n, cols }
    }

    /// The matrix of n rows, each below `2 ^ n`: bit j of row i is the entry at row i, column j.
    pub fn from_rows(n: u8, rows: &[u64]) -> Matrix
        requires some { 1 ≤ n }
        requires few { n ≤ 52 }
        requires length { length rows.now ≡ n }
        requires below { (i : ℕ) → i < n → slice_index rows.now i < 2 ^ n }
        ensures size { result.n ≡ n }
        ensures entries { (i j : ℕ) → i < n → j < n
            → bit_at (column result j) i ≡ bit_at (slice_index rows.now i) j }
    {
        let mut cols = no_columns();
        for i in 0..n {
            cols[usize::from(i)] = rows[usize::from(i)];
        }
        let turned = Matrix { n, cols };
        turned.transpose()
    }

    /// The rotation of the bits: target bit i is source bit `(i + by) mod n`.
    pub fn rotation(n: u8, by: u8) -> Matrix
        requires some { 1 ≤ n }
        requires few { n ≤ 52 }
        ensures size { result.n ≡ n }
        ensures columns { by ≤ n → (j : ℕ) → j < n → column result j ≡ 2 ^ ((j + n - by) % n) }
        ensures bits { (x i : ℕ) → i < n → bit_at (image result x) i ≡ bit_at x ((i + by) % n) }
    {
        Matrix::turn(n, by % n)
    }

    // The rotation by no more than n.
    #[tactic(auto, using(crate::proofs::VectorLemmas::unit_below))]
    fn turn(n: u8, by: u8) -> Matrix
        requires some { 1 ≤ n }
        requires few { n ≤ 52 }
        requires by { by ≤ n }
        ensures size { result.n ≡ n }
        ensures columns { (j : ℕ) → j < n → column result j ≡ 2 ^ ((j + n - by) % n) }
        ensures bits { (x i : ℕ) → i < n → bit_at (image result x) i ≡ bit_at x ((i + by) % n) }
    {
        let mut cols = no_columns();
        for j in 0..n {
            cols[usize::from(j)] = 1 << ((j + n - by) % n);
        }
        Matrix { n, cols }
    }

    /// Adds column `from` to column `into`.
    pub fn add_column(&mut self, from: u8, into: u8)
        requires from { from < self.old.n }
        requires into { into < self.old.n }
        requires apart { from ≢ into }
        ensures size { self.new.n ≡ self.old.n }
        ensures changed { column self.new into
            ≡ bit_xor (column self.old into) (column self.old from) }
        ensures others { (j : ℕ) → j ≢ into → column self.new j ≡ column self.old j }
    {
        self.cols[usize::from(into)] ^= self.cols[usize::from(from)];
    }

    /// Exchanges columns i and j.
    pub fn swap_columns(&mut self, i: u8, j: u8)
        requires i { i < self.old.n }
        requires j { j < self.old.n }
        ensures size { self.new.n ≡ self.old.n }
        ensures first { column self.new i ≡ column self.old j }
        ensures second { column self.new j ≡ column self.old i }
        ensures others { (k : ℕ) → k ≢ i → k ≢ j → column self.new k ≡ column self.old k }
    {
        self.cols.swap(usize::from(i), usize::from(j));
    }
}
