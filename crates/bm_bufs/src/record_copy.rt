//! Copies of records from a row to their places in a load.

ghost use Rattle.std.specs.Prelude.{◌≡◌, ◌≢◌, ℕ, ◌+◌, ◌*◌, ◌%◌, ◌^◌, ◌<◌, ◌≤◌, length, bit_xor};
ghost use Rattle.std.specs.Fork.{slice_chunk};
ghost use Rattle.bm_gf2.specs.Matrix.{image, IsNonsingular};
ghost use Rattle.bm_bufs.specs.Places.{places_by, PlacesRecords};

use crate::runs::{run_bits, run_matrix};
use crate::tile_steps::step_table;
use bm_gf2::{Matrix, Stepper};

/// Copies record j of one list over record i of another.
#[tactic(auto, using(bm_base::proofs::ChunkLemmas::chunk_other))]
pub fn copy_record(to: &mut [u8], i: usize, from: &[u8], j: usize, width: usize)
    requires to { (i + 1) * width ≤ length to.old }
    requires from { (j + 1) * width ≤ length from.now }
    ensures copied { slice_chunk to.new width i ≡ slice_chunk from.now width j }
    ensures others { (k : ℕ) → k ≢ i → slice_chunk to.new width k ≡ slice_chunk to.old width k }
    ensures size { length to.new ≡ length to.old }
{
    let at = i * width;
    let start = j * width;
    to[at..at + width].copy_from_slice(&from[start..start + width]);
}

// Record j of a list, as an array.
fn record_array<const W: usize>(from: &[u8], j: usize) -> [u8; W]
    requires { (j + 1) * W ≤ length from.now }
    ensures { result ≡ slice_chunk from.now W j }
{
    let start = j * W;
    let mut record = [0; W];
    record.copy_from_slice(&from[start..start + W]);
    record
}

/// The same for a width that is known beforehand. The record goes through an array of its own, so
/// that the copy into it and the one out of it need no test for lists that overlap.
#[tactic(auto, using(bm_base::proofs::ChunkLemmas::chunk_other))]
pub fn copy_record_w<const W: usize>(to: &mut [u8], i: usize, from: &[u8], j: usize)
    requires to { (i + 1) * W ≤ length to.old }
    requires from { (j + 1) * W ≤ length from.now }
    ensures copied { slice_chunk to.new W i ≡ slice_chunk from.now W j }
    ensures others { (k : ℕ) → k ≢ i → slice_chunk to.new W k ≡ slice_chunk to.old W k }
    ensures size { length to.new ≡ length to.old }
{
    let at = i * W;
    let record = record_array::<W>(from, j);
    to[at..at + W].copy_from_slice(&record);
}

/// Copies record r of the row, for each r below `count`, to the place of number `first + r`.
pub fn place_records(
    load: &mut [u8],
    row: &[u8],
    a: &Matrix,
    plus: u64,
    width: usize,
    first: u64,
    count: usize,
)
    requires nonsingular { IsNonsingular a.now }
    requires plus { plus < 2 ^ a.now.n }
    requires load { length load.old ≡ 2 ^ a.now.n * width }
    requires row { count * width ≤ length row.now }
    requires numbers { first + count ≤ 2 ^ a.now.n }
    ensures placed { PlacesRecords (places_by a.now plus) a.now.n width first count
        row.now load.old load.new }
{
    if count == 0 {
        return;
    }
    let mut stepper = Stepper::start(a, plus, first);
    for r in 0..count {
        copy_record(load, stepper.here() as usize, row, r, width);
        stepper.step();
    }
}

// The same for a width that is known beforehand, one record after another.
fn place_ones_w<const W: usize>(
    load: &mut [u8],
    row: &[u8],
    a: &Matrix,
    plus: u64,
    first: u64,
    count: usize,
)
    requires nonsingular { IsNonsingular a.now }
    requires plus { plus < 2 ^ a.now.n }
    requires load { length load.old ≡ 2 ^ a.now.n * W }
    requires row { count * W ≤ length row.now }
    requires numbers { first + count ≤ 2 ^ a.now.n }
    ensures placed { PlacesRecords (places_by a.now plus) a.now.n W first count
        row.now load.old load.new }
{
    if count == 0 {
        return;
    }
    let mut stepper = Stepper::start(a, plus, first);
    for r in 0..count {
        copy_record_w::<W>(load, stepper.here() as usize, row, r);
        stepper.step();
    }
}

// The same, by four records at a time: from one of them to the next the place changes by the first
// two columns, and from four to the next four by one look into a table.
fn place_fours_w<const W: usize>(
    load: &mut [u8],
    row: &[u8],
    a: &Matrix,
    plus: u64,
    first: u64,
    count: usize,
)
    requires nonsingular { IsNonsingular a.now }
    requires plus { plus < 2 ^ a.now.n }
    requires load { length load.old ≡ 2 ^ a.now.n * W }
    requires row { count * W ≤ length row.now }
    requires numbers { first + count ≤ 2 ^ a.now.n }
    requires bits { 2 ≤ a.now.n }
    requires some { 0 < count }
    requires first_whole { first % 4 ≡ 0 }
    requires count_whole { count % 4 ≡ 0 }
    ensures placed { PlacesRecords (places_by a.now plus) a.now.n W first count
        row.now load.old load.new }
{
    let one = a.cols[0];
    let two = a.cols[1];
    let fours = step_table(a, 2, a.n);
    let mut here = plus ^ a.apply(first);
    for q in 0..count / 4 {
        let r = 4 * q;
        copy_record_w::<W>(load, here as usize, row, r);
        copy_record_w::<W>(load, (here ^ one) as usize, row, r + 1);
        copy_record_w::<W>(load, (here ^ two) as usize, row, r + 2);
        copy_record_w::<W>(load, (here ^ one ^ two) as usize, row, r + 3);
        here ^= fours[(first / 4 + q as u64).trailing_ones() as usize];
    }
}

/// The same for a width that is known beforehand, by four records at a time where there are whole
/// fours.
pub fn place_records_w<const W: usize>(
    load: &mut [u8],
    row: &[u8],
    a: &Matrix,
    plus: u64,
    first: u64,
    count: usize,
)
    requires nonsingular { IsNonsingular a.now }
    requires plus { plus < 2 ^ a.now.n }
    requires load { length load.old ≡ 2 ^ a.now.n * W }
    requires row { count * W ≤ length row.now }
    requires numbers { first + count ≤ 2 ^ a.now.n }
    ensures placed { PlacesRecords (places_by a.now plus) a.now.n W first count
        row.now load.old load.new }
{
    if count > 0 && a.n >= 2 && first % 4 == 0 && count % 4 == 0 {
        place_fours_w::<W>(load, row, a, plus, first, count);
    } else {
        place_ones_w::<W>(load, row, a, plus, first, count);
    }
}

// Places records by the form for their width, where it is one of these, else by the plain one.
macro_rules! place_by_width {
    (
        $load:expr, $row:expr, $a:expr, $plus:expr, $width:expr, $first:expr, $count:expr;
        $($known:literal)*
    ) => {
        match $width {
            $($known => place_records_w::<$known>($load, $row, $a, $plus, $first, $count),)*
            _ => place_records($load, $row, $a, $plus, $width, $first, $count),
        }
    };
}

// The same, by the form for the width where it is a small power of two.
fn place_known(
    load: &mut [u8],
    row: &[u8],
    a: &Matrix,
    plus: u64,
    width: usize,
    first: u64,
    count: usize,
)
    requires nonsingular { IsNonsingular a.now }
    requires plus { plus < 2 ^ a.now.n }
    requires load { length load.old ≡ 2 ^ a.now.n * width }
    requires row { count * width ≤ length row.now }
    requires numbers { first + count ≤ 2 ^ a.now.n }
    ensures placed { PlacesRecords (places_by a.now plus) a.now.n width first count
        row.now load.old load.new }
{
    place_by_width!(load, row, a, plus, width, first, count; 2 4 8 16 32 64 128 256 512)
}

/// The same, where records that stay together are copied as one.
pub fn place_in_runs(
    load: &mut [u8],
    row: &[u8],
    a: &Matrix,
    plus: u64,
    width: usize,
    first: u64,
    count: usize,
)
    requires nonsingular { IsNonsingular a.now }
    requires plus { plus < 2 ^ a.now.n }
    requires load { length load.old ≡ 2 ^ a.now.n * width }
    requires row { count * width ≤ length row.now }
    requires numbers { first + count ≤ 2 ^ a.now.n }
    ensures placed { PlacesRecords (places_by a.now plus) a.now.n width first count
        row.now load.old load.new }
{
    let low = run_bits(a, plus, first, count as u64);
    let runs = run_matrix(a, low);
    let run = (1 << low) * width;
    place_known(
        load,
        row,
        &runs,
        plus >> low,
        run,
        first >> low,
        count >> low,
    );
}

/// The same for a width that is known beforehand.
pub fn place_in_runs_w<const W: usize>(
    load: &mut [u8],
    row: &[u8],
    a: &Matrix,
    plus: u64,
    first: u64,
    count: usize,
)
    requires nonsingular { IsNonsingular a.now }
    requires plus { plus < 2 ^ a.now.n }
    requires load { length load.old ≡ 2 ^ a.now.n * W }
    requires row { count * W ≤ length row.now }
    requires numbers { first + count ≤ 2 ^ a.now.n }
    ensures placed { PlacesRecords (places_by a.now plus) a.now.n W first count
        row.now load.old load.new }
{
    if run_bits(a, plus, first, count as u64) == 0 {
        place_records_w::<W>(load, row, a, plus, first, count);
    } else {
        place_in_runs(load, row, a, plus, W, first, count);
    }
}
