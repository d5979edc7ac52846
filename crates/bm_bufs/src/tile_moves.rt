//! Moves of a load's records within tiles, in place.

ghost use Rattle.std.specs.Prelude.{◌≡◌, ◌≢◌, ℕ, ◌+◌, ◌-◌, ◌*◌, ◌^◌, ◌<◌, ◌≤◌, ◌⊎◌, length};
ghost use Rattle.std.specs.Fork.{slice_chunk};
ghost use Rattle.bm_bufs.specs.TileMoves.{FillsRun, GathersTile, FillsTile, MovesRecords};
ghost use Rattle.bm_bufs.specs.Places.{places_by};

use crate::record_copy::{copy_record, copy_record_w};
use crate::tile_map::TileMap;
use crate::tile_steps::TileSteps;

// Copies four records of the row to place `at` and the three after it.
fn copy_four<const W: usize>(load: &mut [u8], at: usize, row: &[u8], a: u64, b: u64, c: u64, d: u64)
    requires at { at + 4 ≤ 2 ^ 52 }
    requires load { (at + 4) * W ≤ length load.old }
    requires a { (a + 1) * W ≤ length row.now }
    requires b { (b + 1) * W ≤ length row.now }
    requires c { (c + 1) * W ≤ length row.now }
    requires d { (d + 1) * W ≤ length row.now }
    ensures first { slice_chunk load.new W at ≡ slice_chunk row.now W a }
    ensures second { slice_chunk load.new W (at + 1) ≡ slice_chunk row.now W b }
    ensures third { slice_chunk load.new W (at + 2) ≡ slice_chunk row.now W c }
    ensures fourth { slice_chunk load.new W (at + 3) ≡ slice_chunk row.now W d }
    ensures others { (k : ℕ) → (k < at) ⊎ (at + 4 ≤ k)
        → slice_chunk load.new W k ≡ slice_chunk load.old W k }
    ensures size { length load.new ≡ length load.old }
{
    copy_record_w::<W>(load, at, row, a as usize);
    copy_record_w::<W>(load, at + 1, row, b as usize);
    copy_record_w::<W>(load, at + 2, row, c as usize);
    copy_record_w::<W>(load, at + 3, row, d as usize);
}

// Fills a run of the load, by four records at a time.
fn fill_fours<const W: usize>(load: &mut [u8], row: &[u8], steps: &TileSteps, at: u64, first: u64)
    requires low { 2 ≤ steps.now.map.low }
    requires load { (at + 2 ^ steps.now.map.low) * W ≤ length load.old }
    requires row { 2 ^ steps.now.map.tile * W ≤ length row.now }
    requires first { first < 2 ^ steps.now.map.tile }
    requires at { at + 2 ^ steps.now.map.low ≤ 2 ^ 52 }
    ensures { FillsRun steps.now.map W at first row.now load.old load.new }
{
    let one = steps.map.back.cols[0];
    let two = steps.map.back.cols[1];
    let mut from = first;
    for j in 0..1u64 << (steps.map.low - 2) {
        let place = (at + 4 * j) as usize;
        copy_four::<W>(
            load,
            place,
            row,
            from,
            from ^ one,
            from ^ two,
            from ^ one ^ two,
        );
        from ^= steps.fours[j.trailing_ones() as usize];
    }
}

// The same, one record after another, of any width.
fn fill_ones(load: &mut [u8], row: &[u8], steps: &TileSteps, at: u64, first: u64)
    requires load { (at + 2 ^ steps.now.map.low) * steps.now.map.placing.width ≤ length load.old }
    requires row { 2 ^ steps.now.map.tile * steps.now.map.placing.width ≤ length row.now }
    requires first { first < 2 ^ steps.now.map.tile }
    requires at { at + 2 ^ steps.now.map.low ≤ 2 ^ 52 }
    ensures { FillsRun steps.now.map steps.now.map.placing.width at first
        row.now load.old load.new }
{
    let width = usize::from(steps.map.placing.width);
    let mut from = first;
    for j in 0..1u64 << steps.map.low {
        copy_record(load, (at + j) as usize, row, from as usize, width);
        from ^= steps.records[j.trailing_ones() as usize];
    }
}

// Fills a run by the form for the width, where it is one of these, else by the plain one.
macro_rules! fill_by_width {
    ($load:expr, $row:expr, $steps:expr, $at:expr, $first:expr; $($known:literal)*) => {
        match $steps.map.placing.width {
            $($known => fill_fours::<$known>($load, $row, $steps, $at, $first),)*
            _ => fill_ones($load, $row, $steps, $at, $first),
        }
    };
}

// Fills the run of the load from place `at` on with records of the row. The first one there is
// `first`, and the low columns of `back` lead to the others.
fn fill_run(load: &mut [u8], row: &[u8], steps: &TileSteps, at: u64, first: u64)
    requires load { (at + 2 ^ steps.now.map.low) * steps.now.map.placing.width ≤ length load.old }
    requires row { 2 ^ steps.now.map.tile * steps.now.map.placing.width ≤ length row.now }
    requires first { first < 2 ^ steps.now.map.tile }
    requires at { at + 2 ^ steps.now.map.low ≤ 2 ^ 52 }
    ensures { FillsRun steps.now.map steps.now.map.placing.width at first
        row.now load.old load.new }
{
    if steps.map.low < 2 {
        fill_ones(load, row, steps, at, first);
    } else {
        fill_by_width!(load, row, steps, at, first; 1 2 4 8 12 16 24 32 48 64 96 128 192 256)
    }
}

// Copies the records of tile o into the row, in the order of their numbers.
fn gather_tile(load: &[u8], row: &mut [u8], steps: &TileSteps, o: u64)
    requires load { length load.now
        ≡ 2 ^ steps.now.map.basis.n * steps.now.map.placing.width }
    requires row { 2 ^ steps.now.map.tile * steps.now.map.placing.width ≤ length row.old }
    requires o { o < 2 ^ (steps.now.map.basis.n - steps.now.map.tile) }
    ensures { GathersTile steps.now.map o load.now row.old row.new }
{
    let low = steps.map.low;
    let run = (1 << low) * usize::from(steps.map.placing.width);
    let start = o << (steps.map.tile - low);
    let mut from = steps.map.basis.apply(start << low);
    for q in 0..1u64 << (steps.map.tile - low) {
        copy_record(row, q as usize, load, (from >> low) as usize, run);
        from ^= steps.places[(start + q).trailing_ones() as usize];
    }
}

// Fills the places of tile o with the records of the row, which are those of the tile by number.
fn fill_tile(load: &mut [u8], row: &[u8], steps: &TileSteps, o: u64)
    requires load { length load.old
        ≡ 2 ^ steps.now.map.basis.n * steps.now.map.placing.width }
    requires row { 2 ^ steps.now.map.tile * steps.now.map.placing.width ≤ length row.now }
    requires o { o < 2 ^ (steps.now.map.basis.n - steps.now.map.tile) }
    ensures { FillsTile steps.now.map o row.now load.old load.new }
{
    let low = steps.map.low;
    let start = o << (steps.map.tile - low);
    let mut at = steps.map.basis.apply(start << low);
    let mut from = steps.map.back_plus ^ steps.map.back.apply(start << low);
    for q in 0..1u64 << (steps.map.tile - low) {
        fill_run(load, row, steps, at, from & ((1 << steps.map.tile) - 1));
        let ones = (start + q).trailing_ones() as usize;
        at ^= steps.places[ones];
        from ^= steps.origins[ones];
    }
}

/// Moves the records of a load within tiles. A tile's records go to the row, and then each to its
/// place in the load.
pub fn settle_tiles(load: &mut [u8], row: &mut [u8], map: &TileMap)
    requires load { length load.old ≡ 2 ^ map.now.basis.n * map.now.placing.width }
    requires row { 2 ^ map.now.tile * map.now.placing.width ≤ length row.old }
    ensures moved { MovesRecords (places_by map.now.placing.a map.now.placing.plus)
        map.now.placing.a.n map.now.placing.width load.old load.new }
    ensures row { length row.new ≡ length row.old }
{
    let steps = TileSteps::new(map);
    for o in 0..1u64 << (map.basis.n - map.tile) {
        gather_tile(load, row, &steps, o);
        fill_tile(load, row, &steps, o);
    }
}
