//! The two steps of a placing.

use bm_bufs::{Placing, TileMap};

/// The two steps of a placing. What `outer` and then `inner` do is what the placing does.
#[derive(Clone, Copy, Debug)]
pub struct Split {
    /// The first step: runs of 2^low records move as a whole, with `low` that of `inner`.
    pub outer: Placing,
    /// The second step: records move within tiles.
    pub inner: TileMap,
}
