//! One row of a load, read to the places of its records.

ghost use Rattle.std.specs.Prelude.{◌≡◌, ℕ, ◌+◌, ◌-◌, ◌*◌, ◌^◌, ◌<◌, ◌≤◌, ◌⊎◌, IsTrue, IsOk, IsErr, OnOk, Some, length};
ghost use Rattle.bm_base.specs.Shape.{dims_of, load_stripes, stripes};
ghost use Rattle.bm_base.specs.Records.{record_at, record_in};
ghost use Rattle.bm_bufs.specs.Bufs.{FitsShape};
ghost use Rattle.bm_bufs.specs.Runs.{KeepsRuns};
ghost use Rattle.bm_rack.specs.Frames.{Keeps, MovesRows, HasCause, SameState};
ghost use Rattle.bm_pass.specs.LoadPlaces.{IsOfLoad, AddsRow};

use bm_base::{Area, Failed, Shape};
use bm_bufs::{Bufs, Placing, run_bits};
use bm_rack::Rack;
use bm_stripe::read_stripe;

// The number of the stripe that is a row of a load.
fn stripe_of(shape: &Shape, load: u64, row: u64) -> u64
    requires load { load < 2 ^ (shape.now.n - shape.now.m) }
    requires row { row < load_stripes shape.now }
    ensures number { result ≡ load * load_stripes shape.now + row }
    ensures inside { result < stripes shape.now }
{
    load * shape.load_stripes() + row
}

// The number of a row's first record within the load.
fn first_number(shape: &Shape, row: u64) -> u64
    requires { row < load_stripes shape.now }
    ensures number { result ≡ row * 2 ^ (shape.now.b + shape.now.d) }
    ensures inside { result + 2 ^ (shape.now.b + shape.now.d) ≤ 2 ^ shape.now.m }
{
    row << (shape.b() + shape.d())
}

// Reads a stripe of an area into a part of the list of a load, of `size` bytes from `start` on.
fn read_stripe_into<R: Rack>(
    rack: &mut R,
    shape: &Shape,
    from: Area,
    stripe: u64,
    bytes: &mut [u8],
    start: usize,
    size: usize,
) -> Result<(), Failed>
    requires attached { (R.view rack.old).attached ≡ Some (dims_of shape.now) }
    requires stripe { stripe < stripes shape.now }
    requires size { size ≡ 2 ^ (shape.now.b + shape.now.d) * shape.now.width }
    requires room { start + size ≤ length bytes.old }

    ensures records { (at : ℕ) → start ≡ at * shape.now.width
        → IsTrue R.tells_contents → IsOk result → (r : ℕ) → r < 2 ^ (shape.now.b + shape.now.d)
        → record_in shape.now bytes.new (at + r) ≡ record_at (R.view rack.old).contents shape.now
        from (2 ^ (shape.now.b + shape.now.d) * stripe + r) }
    ensures others { (at k : ℕ) → start ≡ at * shape.now.width
        → (k < at) ⊎ (at + 2 ^ (shape.now.b + shape.now.d) ≤ k)
        → record_in shape.now bytes.new k ≡ record_in shape.now bytes.old k }
    ensures size { length bytes.new ≡ length bytes.old }
    ensures state { SameState (R.view rack.old) (R.view rack.new) }
    ensures moved { MovesRows 1 (IsOk result) (R.view rack.old) (R.view rack.new) }
    ensures keeps { Keeps (R.view rack.old) (R.view rack.new) }
    ensures cause { HasCause (IsErr result) (R.view rack.old) (R.view rack.new) }
{
    read_stripe(rack, shape, from, stripe, &mut bytes[start..start + size])
}

// Reads a row of a load straight into its place of the load list, where its records stay together.
fn fill_whole_row<R: Rack>(
    rack: &mut R,
    shape: &Shape,
    from: Area,
    load: u64,
    row: u64,
    placing: &Placing,
    bufs: &mut Bufs,
) -> Result<(), Failed>
    requires attached { (R.view rack.old).attached ≡ Some (dims_of shape.now) }
    requires load { load < 2 ^ (shape.now.n - shape.now.m) }
    requires row { row < load_stripes shape.now }
    requires placing { IsOfLoad shape.now placing.now }
    requires runs { KeepsRuns placing.now.a placing.now.plus (shape.now.b + shape.now.d) }
    requires fits { FitsShape shape.now bufs.old }

    ensures records { IsTrue R.tells_contents
        → OnOk result (AddsRow shape.now placing.now from load (R.view rack.old).contents row
        bufs.old.load bufs.new.load) }
    ensures fits { FitsShape shape.now bufs.new }
    ensures state { SameState (R.view rack.old) (R.view rack.new) }
    ensures moved { MovesRows 1 (IsOk result) (R.view rack.old) (R.view rack.new) }
    ensures keeps { Keeps (R.view rack.old) (R.view rack.new) }
    ensures cause { HasCause (IsErr result) (R.view rack.old) (R.view rack.new) }
{
    let stripe = stripe_of(shape, load, row);
    let at = placing.plus ^ placing.a.apply(first_number(shape, row));
    let start = at as usize * usize::from(shape.width());
    let size = bufs.row().len();
    read_stripe_into(rack, shape, from, stripe, bufs.load_mut(), start, size)
}

// Reads a row of a load into the row list, and places its records in the load list.
fn fill_row_by_records<R: Rack>(
    rack: &mut R,
    shape: &Shape,
    from: Area,
    load: u64,
    row: u64,
    placing: &Placing,
    bufs: &mut Bufs,
) -> Result<(), Failed>
    requires attached { (R.view rack.old).attached ≡ Some (dims_of shape.now) }
    requires load { load < 2 ^ (shape.now.n - shape.now.m) }
    requires row { row < load_stripes shape.now }
    requires placing { IsOfLoad shape.now placing.now }
    requires fits { FitsShape shape.now bufs.old }

    ensures records { IsTrue R.tells_contents
        → OnOk result (AddsRow shape.now placing.now from load (R.view rack.old).contents row
        bufs.old.load bufs.new.load) }
    ensures fits { FitsShape shape.now bufs.new }
    ensures state { SameState (R.view rack.old) (R.view rack.new) }
    ensures moved { MovesRows 1 (IsOk result) (R.view rack.old) (R.view rack.new) }
    ensures keeps { Keeps (R.view rack.old) (R.view rack.new) }
    ensures cause { HasCause (IsErr result) (R.view rack.old) (R.view rack.new) }
{
    let stripe = stripe_of(shape, load, row);
    read_stripe(rack, shape, from, stripe, bufs.row_mut())?;
    bufs.place_row(placing, first_number(shape, row));
    Ok(())
}

/// Reads a row of a load, each record to its place in the load list, in one row call.
///
/// A row whose records stay together goes straight to its place, any other through the row list.
pub fn fill_row<R: Rack>(
    rack: &mut R,
    shape: &Shape,
    from: Area,
    load: u64,
    row: u64,
    placing: &Placing,
    bufs: &mut Bufs,
) -> Result<(), Failed>
    requires attached { (R.view rack.old).attached ≡ Some (dims_of shape.now) }
    requires load { load < 2 ^ (shape.now.n - shape.now.m) }
    requires row { row < load_stripes shape.now }
    requires placing { IsOfLoad shape.now placing.now }
    requires fits { FitsShape shape.now bufs.old }

    ensures records { IsTrue R.tells_contents
        → OnOk result (AddsRow shape.now placing.now from load (R.view rack.old).contents row
        bufs.old.load bufs.new.load) }
    ensures fits { FitsShape shape.now bufs.new }
    ensures state { SameState (R.view rack.old) (R.view rack.new) }
    ensures moved { MovesRows 1 (IsOk result) (R.view rack.old) (R.view rack.new) }
    ensures keeps { Keeps (R.view rack.old) (R.view rack.new) }
    ensures cause { HasCause (IsErr result) (R.view rack.old) (R.view rack.new) }
{
    let bits = shape.b() + shape.d();
    if run_bits(&placing.a, placing.plus, 0, 1 << bits) == bits {
        fill_whole_row(rack, shape, from, load, row, placing, bufs)
    } else {
        fill_row_by_records(rack, shape, from, load, row, placing, bufs)
    }
}
