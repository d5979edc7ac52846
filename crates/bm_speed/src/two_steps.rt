//! Loads that are placed in two steps: runs of records row by row, then records within tiles.

ghost use Rattle.std.specs.Prelude.{◌≡◌, ◌+◌, ◌*◌, ◌^◌, ◌<◌, ◌≤◌, length, IfSome};
ghost use Rattle.bm_bufs.specs.Bufs.{FitsShape};
ghost use Rattle.bm_split.specs.Splits.{IsSplit};
ghost use Rattle.bm_speed.specs.Placed.{IsPlacingOf};

use crate::map_name::MapName;
use crate::placed::{buffers_for, place_load, placing_for, shape_for};
use crate::sizes::Sizes;
use crate::stopwatch::{nanoseconds_used, print_line};
use bm_base::Shape;
use bm_bufs::{Bufs, Placing, TileMap};
use bm_split::{Split, best_split, split_placing};
use std::io;
use std::time::CpuClock;

// lg of the records of a run where nothing is measured.
const SHORT_RUN_BITS: u8 = 3;

// The split that is fastest, or where nothing is measured one by short runs: loads are small there.
fn split_for(sizes: Sizes, placing: &Placing, shape: &Shape) -> Option<Split>
    requires placing { IsPlacingOf shape.now placing.now }
    ensures split { IfSome result (IsSplit placing.now (shape.now.b + shape.now.d)) }
{
    let room = shape.b() + shape.d();
    if sizes.measured {
        best_split(placing, room)
    } else if placing.a.n > SHORT_RUN_BITS {
        split_placing(placing, SHORT_RUN_BITS, room)
    } else {
        None
    }
}

// Moves the records of a load within tiles, and returns the nanoseconds.
#[tactic(auto, using(crate::proofs::RowLemmas::has_room))]
fn settle_load(
    rt: &impl CpuClock,
    bufs: &mut Bufs,
    tiles: &TileMap,
    shape: &Shape,
) -> io::Result<u64>
    requires size { tiles.now.placing.a.n ≡ shape.now.m }
    requires width { tiles.now.placing.width ≡ shape.now.width }
    requires tile { tiles.now.tile ≤ shape.now.b + shape.now.d }
    requires fits { FitsShape shape.now bufs.old }
{
    let start = nanoseconds_used(rt)?;
    bufs.settle(tiles);
    let end = nanoseconds_used(rt)?;
    Ok(end.saturating_sub(start))
}

// Places the pattern in a load, in two steps where there is a split, and returns the nanoseconds.
fn place_split(
    rt: &impl CpuClock,
    bufs: &mut Bufs,
    placing: &Placing,
    split: &Option<Split>,
    shape: &Shape,
) -> io::Result<u64>
    requires placing { IsPlacingOf shape.now placing.now }
    requires split { IfSome split.now (IsSplit placing.now (shape.now.b + shape.now.d)) }
    requires fits { FitsShape shape.now bufs.old }
{
    match split {
        Some(split) => {
            let placed = place_load(rt, bufs, &split.outer, shape)?;
            let settled = settle_load(rt, bufs, &split.inner, shape)?;
            Ok(placed.saturating_add(settled))
        }
        None => place_load(rt, bufs, placing, shape),
    }
}

/// Places a load of records of `2 ^ width_bits` bytes in two steps where that is faster, and prints
/// its line.
pub fn place_in_two(rt: &HostRuntime, sizes: Sizes, name: MapName, width_bits: u8) -> io::Result<()>
    requires { width_bits ≤ 6 }
{
    let shape = shape_for(sizes, width_bits)?;
    let placing = placing_for(name, &shape);
    let split = split_for(sizes, &placing, &shape);
    let mut bufs = buffers_for(rt.alloc(), &shape)?;
    let spent = place_split(rt, &mut bufs, &placing, &split, &shape)?;
    print_line(
        rt,
        sizes,
        "two-step",
        name,
        shape.width(),
        bufs.load(),
        spent,
    )
}
