//! Maps from a fixed generator of numbers.

ghost use Rattle.std.specs.Prelude.{◌≡◌, ◌^◌, ◌<◌, ◌≤◌, IfSome};

use bm_gf2::Affine;
use bm_named::{from_rows, with_complement};
use std::alloc::Global;

/// The next number of so many bits: a linear congruential generator with Knuth's factor.
pub fn draw(state: &mut u64, bits: u8) -> u64
    requires { bits ≤ 32 }
    ensures { result < 2 ^ bits }
{
    *state = state
        .wrapping_mul(6364136223846793005)
        .wrapping_add(1442695040888963407);
    (*state >> 32) % (1 << bits)
}

// Rows of n bits, which may be dependent.
fn draw_rows(alloc: Global, state: &mut u64, n: u8) -> Option<Vec<u64>>
    requires { n ≤ 32 }
{
    let mut rows = Vec::new(alloc);
    for _i in 0..n {
        rows.push(draw(state, n)).ok()?;
    }
    Some(rows)
}

/// The map of the first n rows drawn that are independent, with a constant drawn after them.
/// Nothing where memory is refused.
pub fn draw_map(alloc: Global, state: &mut u64, n: u8) -> Option<Affine>
    requires some { 1 ≤ n }
    requires few { n ≤ 32 }
    ensures size { IfSome result (λ map. map.a.n ≡ n) }
{
    for _try in 0..1000 {
        let rows = draw_rows(alloc, state, n)?;
        if let Ok(map) = from_rows(n, &rows) {
            return Some(with_complement(&map, draw(state, n)));
        }
    }
    None
}
