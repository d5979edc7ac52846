//! One load of a pass.

ghost use Rattle.std.specs.Prelude.{◌≡◌, ◌≢◌, ℕ, ◌+◌, ◌-◌, ◌*◌, ◌^◌, ◌<◌, ◌≤◌, IsTrue, IsOk, IsErr, OnOk, Some, length};
ghost use Rattle.bm_base.specs.declared.shape.Shape.{Shape};
ghost use Rattle.bm_base.specs.Shape.{dims_of, load_stripes};
ghost use Rattle.bm_base.specs.Records.{SameRecords};
ghost use Rattle.bm_base.specs.Butterfly.{butterflies};
ghost use Rattle.bm_gf2.specs.Matrix.{IsNonsingular};
ghost use Rattle.bm_bufs.specs.Bufs.{FitsShape};
ghost use Rattle.bm_forms.specs.PassForm.{IsOfShape};
ghost use Rattle.bm_rack.specs.Frames.{Keeps, MovesRows, HasCause, SameState, ChangesOnly};
ghost use Rattle.bm_pass.specs.LoadPlaces.{IsOfLoad, HoldsLoad, placed_record};
ghost use Rattle.bm_pass.specs.LoadMove.{LoadMoved, IsTargetUnit};

use crate::rows::fill_row;
use bm_base::{Area, Failed, Shape};
use bm_bufs::{Bufs, Placing};
use bm_butter::butterflies_at;
use bm_forms::PassForm;
use bm_rack::Rack;
use bm_split::best_split;
use bm_stripe::write_spread;

// Reads the rows of a load, each record to its place in the load list, in M/BD row calls.
fn fill_rows<R: Rack>(
    rack: &mut R,
    shape: &Shape,
    from: Area,
    load: u64,
    placing: &Placing,
    bufs: &mut Bufs,
) -> Result<(), Failed>
    requires attached { (R.view rack.old).attached ≡ Some (dims_of shape.now) }
    requires load { load < 2 ^ (shape.now.n - shape.now.m) }
    requires placing { IsOfLoad shape.now placing.now }
    requires fits { FitsShape shape.now bufs.old }

    ensures records { IsTrue R.tells_contents
        → OnOk result (HoldsLoad shape.now placing.now from load (R.view rack.old).contents
        bufs.new.load) }
    ensures fits { FitsShape shape.now bufs.new }
    ensures state { SameState (R.view rack.old) (R.view rack.new) }
    ensures moved { MovesRows (load_stripes shape.now) (IsOk result)
        (R.view rack.old) (R.view rack.new) }
    ensures keeps { Keeps (R.view rack.old) (R.view rack.new) }
    ensures cause { HasCause (IsErr result) (R.view rack.old) (R.view rack.new) }
{
    for row in 0..shape.load_stripes() {
        fill_row(rack, shape, from, load, row, placing, bufs)?;
    }
    Ok(())
}

/// Reads a load into the load list, each record to its place, in M/BD row calls.
///
/// Where that is faster the records go in two steps: whole runs as the rows arrive, and then records
/// within tiles.
pub fn fill_load<R: Rack>(
    rack: &mut R,
    shape: &Shape,
    from: Area,
    load: u64,
    placing: &Placing,
    bufs: &mut Bufs,
) -> Result<(), Failed>
    requires attached { (R.view rack.old).attached ≡ Some (dims_of shape.now) }
    requires load { load < 2 ^ (shape.now.n - shape.now.m) }
    requires placing { IsOfLoad shape.now placing.now }
    requires fits { FitsShape shape.now bufs.old }

    ensures records { IsTrue R.tells_contents
        → OnOk result (HoldsLoad shape.now placing.now from load (R.view rack.old).contents
        bufs.new.load) }
    ensures fits { FitsShape shape.now bufs.new }
    ensures state { SameState (R.view rack.old) (R.view rack.new) }
    ensures moved { MovesRows (load_stripes shape.now) (IsOk result)
        (R.view rack.old) (R.view rack.new) }
    ensures keeps { Keeps (R.view rack.old) (R.view rack.new) }
    ensures cause { HasCause (IsErr result) (R.view rack.old) (R.view rack.new) }
{
    match best_split(placing, shape.b() + shape.d()) {
        Some(split) => {
            fill_rows(rack, shape, from, load, &split.outer, bufs)?;
            bufs.settle(&split.inner);
            Ok(())
        }
        None => fill_rows(rack, shape, from, load, placing, bufs),
    }
}

// Does the butterflies of a pass on the bits below `low`, on a load's records at their places.
fn mix_load(placing: &Placing, low: u8, bufs: &mut Bufs)
    requires nonsingular { IsNonsingular placing.now.a }
    requires plus { placing.now.plus < 2 ^ placing.now.a.n }
    requires low { low ≤ placing.now.a.n }
    requires width { placing.now.width ≢ 8 → low ≡ 0 }
    requires load { length bufs.old.load ≡ 2 ^ placing.now.a.n * placing.now.width }

    ensures records { SameRecords (2 ^ placing.now.a.n)
        (placed_record placing.now bufs.new.load)
        (butterflies low (placed_record placing.now bufs.old.load)) }
    ensures fits { (s : Shape) → FitsShape s bufs.old → FitsShape s bufs.new }
{
    if low > 0 {
        butterflies_at(bufs.load_mut(), &placing.a, placing.plus, low);
    }
}

/// Moves one load: its records, after the butterflies, to where the pass sends them in area `to`.
///
/// It makes 2M/BD row calls and takes no memory. It stops at the first row call that fails, and
/// answers `Failed` only then. The blocks of the target records then hold anything.
pub fn load_step<R: Rack>(
    rack: &mut R,
    shape: &Shape,
    pass: &PassForm,
    from: Area,
    to: Area,
    load: u64,
    bufs: &mut Bufs,
) -> Result<(), Failed>
    requires attached { (R.view rack.old).attached ≡ Some (dims_of shape.now) }
    requires pass { IsOfShape shape.now pass.now }
    requires areas { from ≢ to }
    requires load { load < 2 ^ (shape.now.n - shape.now.m) }
    requires fits { FitsShape shape.now bufs.old }

    ensures records { IsTrue R.tells_contents
        → OnOk result (LoadMoved shape.now pass.now from to load
        (R.view rack.old).contents (R.view rack.new).contents) }
    ensures only { ChangesOnly (IsTargetUnit shape.now pass.now to load)
        (R.view rack.old) (R.view rack.new) }
    ensures fits { FitsShape shape.now bufs.new }
    ensures moved { MovesRows (2 * load_stripes shape.now) (IsOk result)
        (R.view rack.old) (R.view rack.new) }
    ensures keeps { Keeps (R.view rack.old) (R.view rack.new) }
    ensures cause { HasCause (IsErr result) (R.view rack.old) (R.view rack.new) }
{
    let (a, plus) = pass.map.placing_for(load);
    let placing = Placing {
        a,
        plus,
        width: shape.width(),
    };
    fill_load(rack, shape, from, load, &placing, bufs)?;
    mix_load(&placing, pass.low, bufs);
    write_spread(rack, shape, to, &pass.map.spread_for(load), bufs.load())
}
