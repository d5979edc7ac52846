//! The steps from run to run, and from record to record, of a placing within tiles.

ghost use Rattle.std.specs.Prelude.{◌≡◌, ◌≤◌};
ghost use Rattle.bm_gf2.specs.Matrix.{column};
ghost use Rattle.bm_bufs.specs.TileMoves.{IsStepTable};

use crate::tile_map::TileMap;
use bm_base::MOST_ADDRESS_BITS;
use bm_gf2::Matrix;

// A place in the table for each number of trailing ones.
const STEPS: usize = MOST_ADDRESS_BITS as usize + 1;

/// A tile map with tables of its steps.
///
/// From number q to the next one the trailing ones of q and the bit above them change. So an
/// image changes by a sum of columns, which stands in a table by the number of trailing ones.
#[derive(Clone, Copy)]
pub struct TileSteps {
    pub map: TileMap,
    /// From a run's first place to that of the next run.
    pub places: [u64; STEPS],
    /// From the number where a run's first record comes from to that of the next run.
    pub origins: [u64; STEPS],
    /// The same from one record of a run to the next.
    pub records: [u64; STEPS],
    /// The same from four records of a run to the next four.
    pub fours: [u64; STEPS],
    pub ghost places_table: { IsStepTable (column map.basis) map.low map.basis.n places },
    pub ghost origins_table: { IsStepTable (column map.back) map.low map.back.n origins },
    pub ghost records_table: { IsStepTable (column map.back) 0 map.low records },
    pub ghost fours_table: { IsStepTable (column map.back) 2 map.low fours },
}

/// The table of the steps by 2^first numbers, where the columns from `count` on are left out.
pub fn step_table(a: &Matrix, first: u8, count: u8) -> [u64; STEPS]
    requires first { first ≤ 52 }
    requires count { count ≤ a.now.n }
    ensures { IsStepTable (column a.now) first count result }
{
    let mut table = [0; STEPS];
    let mut sum = 0;
    for t in 0..STEPS as u8 {
        if first + t < count {
            sum ^= a.cols[usize::from(first + t)];
        }
        table[usize::from(t)] = sum;
    }
    table
}

impl TileSteps {
    /// The steps of a tile map.
    pub fn new(map: &TileMap) -> TileSteps
        ensures { result.map ≡ map.now }
    {
        TileSteps {
            map: *map,
            places: step_table(&map.basis, map.low, map.basis.n),
            origins: step_table(&map.back, map.low, map.back.n),
            records: step_table(&map.back, 0, map.low),
            fours: step_table(&map.back, 2, map.low),
        }
    }
}
