//! The record buffers.

ghost use Rattle.std.specs.Prelude.{◌≡◌, ℕ, ◌+◌, ◌*◌, ◌^◌, ◌<◌, ◌≤◌, ◌↔◌, IsTrue, IfOk, length};
ghost use Rattle.std.specs.Borrow.{sem};

use crate::placing::Placing;
use crate::record_copy::{place_in_runs, place_in_runs_w};
use crate::tile_map::TileMap;
use crate::tile_moves::settle_tiles;
use bm_base::{OutOfMemory, Shape};
use std::alloc::Global;
use std::marker::Model;

/// A load list of one memory load and a row list of one block a disk.
///
/// Both keep their lengths, and nothing after `new` takes memory.
#[derive(Drop)]
pub struct Bufs {
    load: Vec<u8>,
    row: Vec<u8>,
}

impl Model for Bufs {
    ghost use Rattle.bm_bufs.specs.Bufs.{Lists};

    ghost Value = { Lists };

    ghost view = { λ bufs. record { load = bufs.load.items; row = bufs.row.items } };
}

// Calls the form of `place_row` for the width, where it is one of these, else the plain one.
macro_rules! by_width {
    ($bufs:expr, $placing:expr, $first:expr; $($width:literal)*) => {
        match $placing.width {
            $($width => $bufs.place_row_w::<$width>($placing, $first),)*
            _ => $bufs.place_row_plain($placing, $first),
        }
    };
}

impl Bufs {
    ghost use Rattle.bm_bufs.specs.Bufs.{FitsShape};
    ghost use Rattle.bm_bufs.specs.Lends.{LendsLoad, LendsRow};
    ghost use Rattle.bm_bufs.specs.Placing.{HasPlaces, PlacesRow};
    ghost use Rattle.bm_bufs.specs.TileMoves.{HasRoom, MovesLoad};

    /// Buffers for a shape, or `OutOfMemory` where memory is refused.
    pub fn new(alloc: Global, shape: &Shape) -> Result<Bufs, OutOfMemory>
        ensures fits { IfOk result (FitsShape shape.now) }
    {
        Ok(Bufs {
            load: vec![in alloc; 0; shape.load_bytes()].map_err(|_| OutOfMemory)?,
            row: vec![in alloc; 0; shape.row_bytes()].map_err(|_| OutOfMemory)?,
        })
    }

    /// Whether both lists have the lengths that the shape asks for.
    pub fn fits(&self, shape: &Shape) -> bool
        ensures { IsTrue result ↔ FitsShape shape.now self.now }
    {
        self.load.len() == shape.load_bytes() && self.row.len() == shape.row_bytes()
    }

    /// The bytes of the load list.
    pub fn load(&self) -> &[u8]
        ensures { result.now ≡ self.now.load }
    {
        self.load.as_slice()
    }

    /// The bytes of the load list, for writing.
    pub fn load_mut(&mut self) -> &mut [u8]
        ensures* writes_back { sem 𝓛 (LendsLoad self.entry result) }
        ensures value { result.now ≡ self.old.load }
    {
        self.load.as_mut_slice()
    }

    /// The bytes of the row list.
    pub fn row(&self) -> &[u8]
        ensures { result.now ≡ self.now.row }
    {
        self.row.as_slice()
    }

    /// The bytes of the row list, for writing.
    pub fn row_mut(&mut self) -> &mut [u8]
        ensures* writes_back { sem 𝓛 (LendsRow self.entry result) }
        ensures value { result.now ≡ self.old.row }
    {
        self.row.as_mut_slice()
    }

    /// Copies record r of the row list, for each r, to the place of number `first + r` in the
    /// load list. Every other record there stays, and so does the row list.
    ///
    /// The places are those of an affine map (Cormen, Sundquist, Wisniewski).
    pub fn place_row(&mut self, placing: &Placing, first: u64)
        requires places { HasPlaces placing.now first self.old }
        ensures placed { PlacesRow placing.now first self.old self.new }
    {
        by_width!(self, placing, first; 1 2 4 8 12 16 24 32 48 64 96 128 192 256)
    }

    // `place_row` for records of any width.
    fn place_row_plain(&mut self, placing: &Placing, first: u64)
        requires places { HasPlaces placing.now first self.old }
        ensures placed { PlacesRow placing.now first self.old self.new }
    {
        let width = usize::from(placing.width);
        let count = self.row.len().checked_div(width).unwrap_or(0);
        place_in_runs(
            &mut self.load,
            &self.row,
            &placing.a,
            placing.plus,
            width,
            first,
            count,
        );
    }

    /// `place_row` for records of W bytes.
    pub fn place_row_w<const W: usize>(&mut self, placing: &Placing, first: u64)
        requires places { HasPlaces placing.now first self.old }
        requires width { placing.now.width ≡ W }
        ensures placed { PlacesRow placing.now first self.old self.new }
    {
        let count = self.row.len().checked_div(W).unwrap_or(0);
        place_in_runs_w::<W>(
            &mut self.load,
            &self.row,
            &placing.a,
            placing.plus,
            first,
            count,
        );
    }

    /// Moves the record of each place of the load list to where the map's placing sends it.
    ///
    /// The row list is scratch: it may hold anything afterwards. The two lists keep their lengths.
    pub fn settle(&mut self, tiles: &TileMap)
        requires room { HasRoom tiles.now self.old }
        ensures moved { MovesLoad tiles.now.placing self.old self.new }
    {
        settle_tiles(&mut self.load, &mut self.row, tiles);
    }
}
