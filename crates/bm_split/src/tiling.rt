//! A placing as a move within tiles.

ghost use Rattle.std.specs.Prelude.{◌≡◌, ℕ, ◌+◌, ◌*◌, ◌/◌, ◌^◌, ◌<◌, ◌≤◌, bit_xor};
ghost use Rattle.bm_gf2.specs.Matrix.{image, IsNonsingular};
ghost use Rattle.bm_rank.specs.Rank.{rank_of_rows};
ghost use Rattle.bm_bufs.specs.Tiles.{HasRunBasis};
ghost use Rattle.bm_split.specs.Tiling.{IsInTile};

use crate::columns::{independent_ones, run_map, run_vectors};
use bm_bufs::{Placing, TileMap};
use bm_gf2::Matrix;
use bm_rank::inverse;

/// The places of the numbers: first those of a run, then the images of a run's places under `a`
/// without their low bits, then what completes a basis.
pub fn tile_basis(a: &Matrix, low: u8) -> Matrix
    requires { low < a.now.n }
    ensures size { result.n ≡ a.now.n }
    ensures runs { HasRunBasis result low }
    ensures lows { (v : ℕ) → v < 2 ^ low → image result v ≡ v }
    ensures nonsingular { IsNonsingular result }
    ensures images { (x : ℕ) → x < 2 ^ low
        → IsInTile result (low + rank_of_rows a.now.cols low low) (image a.now x / 2 ^ low * 2 ^ low) }
{
    let vectors = run_vectors(a, low);
    run_map(a.n, low, &independent_ones(&vectors, a.n, a.n - low))
}

/// The placing as a move within the tiles of a basis. `home` undoes its matrix, and moves no place
/// out of its tile.
pub fn tile_map(placing: &Placing, home: &Matrix, basis: &Matrix, low: u8, tile: u8) -> TileMap
    requires home_size { home.now.n ≡ placing.now.a.n }
    requires basis_size { basis.now.n ≡ placing.now.a.n }
    requires plus { placing.now.plus < 2 ^ placing.now.a.n }
    requires home { (y : ℕ) → y < 2 ^ placing.now.a.n
        → image home.now (image placing.now.a y) ≡ y }
    requires nonsingular { IsNonsingular basis.now }
    requires runs { HasRunBasis basis.now low }
    requires low { low ≤ tile }
    requires tile { tile ≤ placing.now.a.n }
    requires moves { (y : ℕ) → y < 2 ^ placing.now.a.n
        → IsInTile basis.now tile (bit_xor y (image home.now y)) }
    requires start { IsInTile basis.now tile (image home.now placing.now.plus) }
    ensures placing { result.placing ≡ placing.now }
    ensures low { result.low ≡ low }
    ensures tile { result.tile ≡ tile }
{
    let Ok(numbers) = inverse(basis) else {
        unreachable!()
    };
    let back = numbers.mul(&home.mul(basis));
    TileMap {
        placing: *placing,
        basis: *basis,
        back,
        back_plus: numbers.apply(home.apply(placing.plus)),
        low,
        tile,
    }
}
