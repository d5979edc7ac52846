//! Linear maps from few bits, each with a constant.

ghost use Rattle.std.specs.Prelude.{◌≡◌, ◌^◌, ◌<◌};

use crate::row_map::RowMap;

/// A row map and a constant: t goes to `plus XOR map(t)`.
#[derive(Clone, Copy, Debug, PartialEq, Eq)]
pub struct Spread {
    /// The map.
    pub map: RowMap,
    /// The constant.
    pub plus: u64,
}

impl Spread {
    ghost use Rattle.bm_gf2.specs.Spread.{spread_value};

    /// The value at t.
    pub fn at(&self, t: u64) -> u64
        requires { t < 2 ^ self.now.map.count }
        ensures { result ≡ spread_value self.now t }
    {
        self.plus ^ self.map.apply(t)
    }
}
