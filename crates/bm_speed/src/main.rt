//! The program that shows how fast records move in memory: through the placing of rows, in one step
//! and in two, through butterflies and other kernels, and through a pass over disks in memory.
//!
//! With no words it moves a little, and prints a checksum for each move. With the word `measure`
//! it moves 16 and 64 MiB, and adds the nanoseconds of processor time.

#![tactic(auto)]

mod checksum;
mod copied;
mod map_name;
mod mixed;
mod passed;
mod pattern;
mod placed;
mod plan_maps;
mod random_map;
mod sizes;
mod stopwatch;
mod transformed;
mod two_steps;

ghost use Rattle.std.specs.Prelude.{◌<◌, ◌≤◌};

use bm_kinds::{Differences, Sums};
use copied::copy_rows;
use map_name::MapName;
use mixed::{ALL, EVEN, mix};
use passed::pass;
use placed::place;
use sizes::Sizes;
use std::{env, io};
use transformed::transform;
use two_steps::place_in_two;

// Places loads of records of 1, 4, 8, 16 and 64 bytes, at once and in two steps.
fn place_widths(rt: &HostRuntime, sizes: Sizes, name: MapName) -> io::Result<()> {
    for width_bits in [0, 2, 3, 4, 6] {
        place(rt, sizes, name, width_bits)?;
    }
    for width_bits in [0, 2, 3, 4, 6] {
        place_in_two(rt, sizes, name, width_bits)?;
    }
    Ok(())
}

// Copies a load, and places loads by each map.
fn place_all(rt: &HostRuntime, sizes: Sizes) -> io::Result<()> {
    copy_rows(rt, sizes)?;
    place_widths(rt, sizes, MapName::Identity)?;
    place_widths(rt, sizes, MapName::Gray)?;
    place_widths(rt, sizes, MapName::Transpose)?;
    place_widths(rt, sizes, MapName::BitReversal)?;
    place_widths(rt, sizes, MapName::Random)
}

// Places loads of records of 1, 4 and 8 bytes, at once and in two steps, by a map of a plan's pass.
fn place_plan(rt: &HostRuntime, sizes: Sizes, name: MapName) -> io::Result<()> {
    for width_bits in [0, 2, 3] {
        place(rt, sizes, name, width_bits)?;
    }
    for width_bits in [0, 2, 3] {
        place_in_two(rt, sizes, name, width_bits)?;
    }
    Ok(())
}

// Places loads by the maps that the passes of plans have.
fn place_plans(rt: &HostRuntime, sizes: Sizes) -> io::Result<()> {
    place_plan(rt, sizes, MapName::LeadingIdentity)?;
    place_plan(rt, sizes, MapName::Streams32)?;
    place_plan(rt, sizes, MapName::Streams256)?;
    place_plan(rt, sizes, MapName::Morton)
}

// Transforms loads at the places of a map by butterflies, and takes them through two other kernels.
fn transform_kinds(rt: &HostRuntime, sizes: Sizes, name: MapName) -> io::Result<()> {
    transform(rt, sizes, name)?;
    mix(rt, sizes, name, "sums", &Sums, ALL)?;
    mix(rt, sizes, name, "differences", &Differences, ALL)?;
    mix(rt, sizes, name, "even-sums", &Sums, EVEN)
}

// Transforms loads at the places of three maps.
fn transform_all(rt: &HostRuntime, sizes: Sizes) -> io::Result<()> {
    transform_kinds(rt, sizes, MapName::Identity)?;
    transform_kinds(rt, sizes, MapName::Gray)?;
    transform_kinds(rt, sizes, MapName::BitReversal)
}

// Does passes over loads of records of 8 and 64 bytes.
fn pass_widths(rt: &HostRuntime, sizes: Sizes, name: MapName) -> io::Result<()> {
    pass(rt, sizes, name, 3)?;
    pass(rt, sizes, name, 6)
}

// Does passes by five maps.
fn pass_all(rt: &HostRuntime, sizes: Sizes) -> io::Result<()> {
    pass_widths(rt, sizes, MapName::Identity)?;
    pass_widths(rt, sizes, MapName::Gray)?;
    pass_widths(rt, sizes, MapName::Transpose)?;
    pass_widths(rt, sizes, MapName::BitReversal)?;
    pass_widths(rt, sizes, MapName::Random)
}

// The moves of loads of 64 KiB in rows of 4 KiB, each printed on a line.
fn check(rt: &HostRuntime) -> io::Result<()> {
    let sizes = Sizes {
        measured: false,
        load_bits: 16,
        row_bits: 12,
    };
    place_all(rt, sizes)?;
    place_plans(rt, sizes)?;
    transform_all(rt, sizes)?;
    pass_all(rt, sizes)
}

// Measured moves of loads of `2 ^ load_bits` bytes in rows of `2 ^ row_bits`.
fn measured(load_bits: u8, row_bits: u8) -> Sizes
    requires load { load_bits ≤ 26 }
    requires least { 12 ≤ row_bits }
    requires row { row_bits < load_bits }
{
    Sizes {
        measured: true,
        load_bits,
        row_bits,
    }
}

// The moves of loads of 16 MiB and of 64 MiB in rows of 256 KiB.
fn measure(rt: &HostRuntime) -> io::Result<()> {
    let small = measured(24, 18);
    let large = measured(26, 18);
    place_all(rt, small)?;
    place_plans(rt, small)?;
    place_all(rt, large)?;
    place_plans(rt, large)?;
    transform_all(rt, small)?;
    transform_all(rt, large)?;
    pass_all(rt, small)
}

fn main(rt: HostRuntime) -> io::Result<()> {
    let words: Vec<String> = env::args(&rt)?.skip(1).collect(rt.alloc())?;
    match words.first() {
        Some(word) if word.as_str() == "measure" => measure(&rt),
        _ => check(&rt),
    }
}
