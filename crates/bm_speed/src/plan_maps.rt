//! The placings that the passes of plans have.

ghost use Rattle.std.specs.Prelude.{◌≡◌, ◌^◌, ◌<◌, ◌≤◌};
ghost use Rattle.bm_gf2.specs.Matrix.{IsNonsingular};

use bm_gf2::{Affine, MOST_COLUMNS};
use bm_named::{bits, identity, transpose};

// The map whose target bit i is source bit `order[i]`, or the identity where one is there twice.
fn permuted(n: u8, order: &[u8; MOST_COLUMNS]) -> Affine
    requires some { 1 ≤ n }
    requires few { n ≤ 52 }
    ensures size { result.a.n ≡ n }
    ensures nonsingular { IsNonsingular result.a }
{
    match bits(n, &order[..usize::from(n)]) {
        Ok(map) => map,
        Err(_) => identity(n),
    }
}

/// The low half of the bits stays, and the others are reversed.
pub fn leading_identity(n: u8) -> Affine
    requires some { 1 ≤ n }
    requires few { n ≤ 52 }
    ensures size { result.a.n ≡ n }
    ensures nonsingular { IsNonsingular result.a }
{
    let low = n / 2;
    let mut order = [0u8; MOST_COLUMNS];
    for i in 0..n {
        order[usize::from(i)] = if i < low { i } else { n - 1 - (i - low) };
    }
    permuted(n, &order)
}

/// The low `count` bits go to the top in order, and the others down: a transposition of 2^count
/// columns. Neighbours go to as many streams.
pub fn streams(n: u8, count: u8) -> Affine
    requires some { 1 ≤ n }
    requires few { n ≤ 52 }
    ensures size { result.a.n ≡ n }
    ensures nonsingular { IsNonsingular result.a }
{
    transpose(n, n.saturating_sub(count))
}

/// Morton order of a matrix in row-major order: the bits of the column and of the row take turns.
pub fn morton(n: u8) -> Affine
    requires some { 1 ≤ n }
    requires few { n ≤ 52 }
    ensures size { result.a.n ≡ n }
    ensures nonsingular { IsNonsingular result.a }
{
    let columns = n - n / 2;
    let mut order = [0u8; MOST_COLUMNS];
    for i in 0..n {
        order[usize::from(i)] = if i % 2 == 0 { i / 2 } else { columns + i / 2 };
    }
    permuted(n, &order)
}
