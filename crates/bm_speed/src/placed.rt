//! Loads that are placed row by row, each record at its place at once.

ghost use Rattle.std.specs.Prelude.{◌≡◌, ◌+◌, ◌-◌, ◌*◌, ◌^◌, ◌<◌, ◌≤◌, length, IfOk};
ghost use Rattle.bm_bufs.specs.Bufs.{FitsShape};
ghost use Rattle.bm_speed.specs.Placed.{IsPlacingOf};

use crate::map_name::MapName;
use crate::pattern::fill;
use crate::sizes::Sizes;
use crate::stopwatch::{nanoseconds_used, print_line};
use bm_base::Shape;
use bm_bufs::{Bufs, Placing};
use std::alloc::Global;
use std::io;
use std::io::ErrorKind;
use std::time::CpuClock;

// The records of a row.
fn row_records(shape: &Shape) -> u64
    ensures { result ≡ 2 ^ (shape.now.b + shape.now.d) }
{
    1 << (shape.b() + shape.d())
}

// Fills the row list with the pattern from record `first` on and places it. Returns the nanoseconds
// of the placing.
fn place_row_at(
    rt: &impl CpuClock,
    bufs: &mut Bufs,
    placing: &Placing,
    shape: &Shape,
    first: u64,
) -> io::Result<u64>
    requires placing { IsPlacingOf shape.now placing.now }
    requires inside { first + 2 ^ (shape.now.b + shape.now.d) ≤ 2 ^ shape.now.m }
    requires fits { FitsShape shape.now bufs.old }
    ensures fits { FitsShape shape.now bufs.new }
{
    fill(bufs.row_mut(), first * u64::from(shape.width()));
    let start = nanoseconds_used(rt)?;
    bufs.place_row(placing, first);
    let end = nanoseconds_used(rt)?;
    Ok(end.saturating_sub(start))
}

/// Places the pattern in a load, a row at a time, and returns the nanoseconds of the placing.
pub fn place_load(
    rt: &impl CpuClock,
    bufs: &mut Bufs,
    placing: &Placing,
    shape: &Shape,
) -> io::Result<u64>
    requires placing { IsPlacingOf shape.now placing.now }
    requires fits { FitsShape shape.now bufs.old }
    ensures fits { FitsShape shape.now bufs.new }
{
    let mut spent = 0u64;
    for r in 0..shape.load_stripes() {
        let first = r * row_records(shape);
        spent = spent.saturating_add(place_row_at(rt, bufs, placing, shape, first)?);
    }
    Ok(spent)
}

/// The shape of a load of its own, in rows of one block, for records of `2 ^ width_bits` bytes.
pub fn shape_for(sizes: Sizes, width_bits: u8) -> io::Result<Shape>
    requires { width_bits ≤ 6 }
{
    let m = sizes.load_bits - width_bits;
    let b = sizes.row_bits - width_bits;
    Shape::new(m, b, 0, m, 1 << width_bits).map_err(|_| io::Error::from(ErrorKind::InvalidInput))
}

/// The placing of a load by the map of a name.
pub fn placing_for(name: MapName, shape: &Shape) -> Placing
    ensures { IsPlacingOf shape.now result }
{
    let map = name.map(shape.m());
    Placing {
        a: map.a,
        plus: map.c,
        width: shape.width(),
    }
}

/// The buffers for a shape.
pub fn buffers_for(alloc: Global, shape: &Shape) -> io::Result<Bufs>
    ensures { IfOk result (FitsShape shape.now) }
{
    Bufs::new(alloc, shape).map_err(|_| io::Error::from(ErrorKind::OutOfMemory))
}

/// Places a load of records of `2 ^ width_bits` bytes, and prints its line.
pub fn place(rt: &HostRuntime, sizes: Sizes, name: MapName, width_bits: u8) -> io::Result<()>
    requires { width_bits ≤ 6 }
{
    let shape = shape_for(sizes, width_bits)?;
    let placing = placing_for(name, &shape);
    let mut bufs = buffers_for(rt.alloc(), &shape)?;
    let spent = place_load(rt, &mut bufs, &placing, &shape)?;
    print_line(
        rt,
        sizes,
        "stepped",
        name,
        shape.width(),
        bufs.load(),
        spent,
    )
}
