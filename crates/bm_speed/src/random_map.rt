//! A map without a pattern.

ghost use Rattle.std.specs.Prelude.{◌≡◌, ◌^◌, ◌<◌, ◌≤◌};
ghost use Rattle.bm_gf2.specs.Matrix.{IsNonsingular};

use bm_gf2::{Affine, MOST_COLUMNS, no_columns};
use bm_named::{from_rows, identity};

// What the numbers of the sequence are apart before they are mixed.
const STEP: u64 = 0x9e3779b97f4a7c15;

// How many matrices are tried. About two of seven are nonsingular.
const ATTEMPTS: u64 = 64;

// A number of the sequence splitmix64 (Steele, Lea, Flood) that begins at 0.
fn mixed(index: u64) -> u64 {
    let start = index.wrapping_add(1).wrapping_mul(STEP);
    let once = (start ^ (start >> 30)).wrapping_mul(0xbf58476d1ce4e5b9);
    let twice = (once ^ (once >> 27)).wrapping_mul(0x94d049bb133111eb);
    twice ^ (twice >> 31)
}

// Rows of n bits: the mixed numbers from 64 times `attempt` on.
fn mixed_rows(n: u8, attempt: u64) -> [u64; MOST_COLUMNS]
    requires { n ≤ 52 }
{
    let mut rows = no_columns();
    for i in 0..n {
        rows[usize::from(i)] = mixed(attempt.wrapping_mul(64).wrapping_add(u64::from(i)))
            % (1 << n);
    }
    rows
}

/// The first nonsingular map of the rows of an attempt, or the identity where there is none.
pub fn random(n: u8) -> Affine
    requires some { 1 ≤ n }
    requires few { n ≤ 52 }
    ensures size { result.a.n ≡ n }
    ensures nonsingular { IsNonsingular result.a }
{
    for attempt in 0..ATTEMPTS {
        let rows = mixed_rows(n, attempt);
        if let Ok(map) = from_rows(n, &rows[..usize::from(n)]) {
            return map;
        }
    }
    identity(n)
}
