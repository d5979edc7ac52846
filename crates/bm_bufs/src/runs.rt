//! Runs of records that move as a whole.

ghost use Rattle.std.specs.Prelude.{◌≡◌, ℕ, ◌%◌, ◌^◌, ◌<◌, ◌≤◌, ◌↔◌};
ghost use Rattle.bm_bufs.specs.Runs.{FitsRuns, KeepsRuns, IsRunMatrix};

use bm_gf2::{Matrix, no_columns};

// The most bits, up to 64, that are all 0 at the end of a number.
fn clear_bits(v: u64) -> u8
    ensures { (k : ℕ) → k ≤ 64 → (k ≤ result) ↔ (v % 2 ^ k ≡ 0) }
{
    v.trailing_zeros() as u8
}

// The most bits of runs that are kept by a column, as far as it decides: 64 where it allows any.
fn column_bits(column: u64, j: u8) -> u8
    requires { j < 52 }
    ensures { (k : ℕ) → k ≤ 52 → (k ≤ result) ↔ FitsRuns column j k }
{
    if column == 1 << j {
        64
    } else {
        clear_bits(column).min(j)
    }
}

// The most low columns that are units, as far as no other column and not `plus` have a bit there.
fn unit_columns(a: &Matrix, plus: u64) -> u8
    ensures { (k : ℕ) → (k ≤ result) ↔ KeepsRuns a.now plus k }
{
    let mut most = clear_bits(plus).min(a.n - 1);
    for j in 0..a.n {
        most = most.min(column_bits(a.cols[usize::from(j)], j));
    }
    most
}

/// The bits of the numbers within a run: of `count` records from `first` on, so many to the power
/// of two move together. It is the greatest such number.
pub fn run_bits(a: &Matrix, plus: u64, first: u64, count: u64) -> u8
    ensures keeps { KeepsRuns a.now plus result }
    ensures first { first % 2 ^ result ≡ 0 }
    ensures count { count % 2 ^ result ≡ 0 }
    ensures greatest { (k : ℕ) → KeepsRuns a.now plus k → first % 2 ^ k ≡ 0 → count % 2 ^ k ≡ 0
        → k ≤ result }
{
    unit_columns(a, plus)
        .min(clear_bits(first))
        .min(clear_bits(count))
}

/// The map of the runs' numbers.
pub fn run_matrix(a: &Matrix, low: u8) -> Matrix
    requires { low < a.now.n }
    ensures { IsRunMatrix a.now low result }
{
    let mut cols = no_columns();
    for j in 0..a.n - low {
        cols[usize::from(j)] = a.cols[usize::from(low + j)] >> low;
    }
    Matrix { n: a.n - low, cols }
}
