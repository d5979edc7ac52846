//! A placing as two steps.

ghost use Rattle.std.specs.Prelude.{◌≡◌, ℕ, ◌+◌, ◌^◌, ◌<◌, ◌≤◌, ◌↔◌, IfSome, IsSome, bit_xor};
ghost use Rattle.bm_gf2.specs.Matrix.{column, IsNonsingular};
ghost use Rattle.bm_rank.specs.Rank.{rank_of_rows};
ghost use Rattle.bm_bufs.specs.Runs.{KeepsRuns};
ghost use Rattle.bm_split.specs.Splits.{IsSplit};
ghost use Rattle.bm_split.specs.Tiling.{IsNearRun};

use crate::columns::{run_map, trailing_columns};
use crate::split::Split;
use crate::tiling::{tile_basis, tile_map};
use bm_base::Shape;
use bm_bufs::Placing;
use bm_factor::trailer;
use bm_rank::{inverse, rank_of};

// A placing of whole runs that differs from a given one within tiles alone. Its matrix keeps the
// low bits, and the others go where the given one takes them after a column change: the trailer
// of a shape whose memory holds one run.
fn outer_placing(placing: &Placing, shape: &Shape, low: u8) -> Placing
    requires nonsingular { IsNonsingular placing.now.a }
    requires size { placing.now.a.n ≡ shape.now.n }
    requires run { low ≡ shape.now.m }
    requires low { low < placing.now.a.n }
    requires plus { placing.now.plus < 2 ^ placing.now.a.n }
    ensures size { result.a.n ≡ placing.now.a.n }
    ensures width { result.width ≡ placing.now.width }
    ensures plus { result.plus < 2 ^ result.a.n }
    ensures nonsingular { IsNonsingular result.a }
    ensures runs { KeepsRuns result.a result.plus low }
    ensures near { (j : ℕ) → j < placing.now.a.n
        → IsNearRun placing.now.a low (bit_xor (column placing.now.a j) (column result.a j)) }
    ensures constant { bit_xor placing.now.plus result.plus < 2 ^ low }
{
    let a = &placing.a;
    let changed = a.mul(&trailer(shape, a));
    Placing {
        a: run_map(a.n, low, &trailing_columns(&changed, low)),
        plus: (placing.plus >> low) << low,
        width: placing.width,
    }
}

/// The placing as two steps by runs of 2^low records, or nothing where the tiles that serve have
/// more than 2^room records, the matrix is singular, or `low` is not of 1 to 30.
///
/// A tile has as many records as a run, times 2 to the rank of the matrix's low columns, cut to
/// the rows from `low` on.
pub fn split_placing(placing: &Placing, low: u8, room: u8) -> Option<Split>
    requires low { low < placing.now.a.n }
    requires plus { placing.now.plus < 2 ^ placing.now.a.n }
    ensures split { IfSome result (IsSplit placing.now room) }
    ensures low { IfSome result (λ s. s.inner.low ≡ low) }
    ensures tile { IfSome result (λ s.
        s.inner.tile ≡ low + rank_of_rows placing.now.a.cols low low) }
    ensures exact { 1 ≤ low → low ≤ 30 → (IsSome result ↔
        (IsNonsingular placing.now.a × (low + rank_of_rows placing.now.a.cols low low ≤ room))) }
{
    let a = &placing.a;
    let Ok(shape) = Shape::new(a.n, 0, 0, low, 1) else {
        return None;
    };
    let tile = low + rank_of(a, low, low);
    if tile > room {
        return None;
    }
    let Ok(a_back) = inverse(a) else {
        return None;
    };
    let outer = outer_placing(placing, &shape, low);
    let Ok(outer_back) = inverse(&outer.a) else {
        unreachable!()
    };
    let rest = a.mul(&outer_back);
    let within = Placing {
        a: rest,
        plus: placing.plus ^ rest.apply(outer.plus),
        width: placing.width,
    };
    let home = outer.a.mul(&a_back);
    let inner = tile_map(&within, &home, &tile_basis(a, low), low, tile);
    Some(Split { outer, inner })
}
