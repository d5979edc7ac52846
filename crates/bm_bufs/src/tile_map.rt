//! A placing of a load's records within tiles.

ghost use Rattle.std.specs.Prelude.{◌≡◌, ◌≤◌, ◌<◌, ◌^◌, ℕ};
ghost use Rattle.bm_gf2.specs.Matrix.{IsNonsingular};
ghost use Rattle.bm_bufs.specs.Tiles.{HasRunBasis, KeepsTiles, HasOrigin};

use crate::placing::Placing;
use bm_gf2::Matrix;

/// A placing that keeps records within tiles, so that it can be done in place.
///
/// The places of a load have numbers: number z is the place `basis z`. A tile is the 2^tile places
/// whose numbers differ in the `tile` lowest bits alone, and a run the 2^low neighbours whose numbers
/// differ in the `low` lowest bits alone. The record that goes to number z comes from number
/// `back z XOR back_plus`, which is of the same tile.
#[derive(Clone, Copy, Debug)]
pub struct TileMap {
    /// Where the record of each place goes.
    pub placing: Placing,
    /// The place of each number.
    pub basis: Matrix,
    /// The number from which each number's record comes, with `back_plus` XORed.
    pub back: Matrix,
    pub back_plus: u64,
    /// The bits of a number within a run.
    pub low: u8,
    /// The bits of a number within a tile.
    pub tile: u8,
    pub ghost basis_size: { basis.n ≡ placing.a.n },
    pub ghost back_size: { back.n ≡ placing.a.n },
    pub ghost plus_in: { placing.plus < 2 ^ placing.a.n },
    pub ghost low_in: { low ≤ tile },
    pub ghost tile_in: { tile ≤ placing.a.n },
    pub ghost nonsingular: { IsNonsingular basis },
    pub ghost runs: { HasRunBasis basis low },
    pub ghost tiles: { KeepsTiles back back_plus tile },
    pub ghost origins: { (y : ℕ) → y < 2 ^ placing.a.n
        → ∥ HasOrigin placing.a placing.plus basis back back_plus y ∥₁ },
}
