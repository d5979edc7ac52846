//! One load of a pass, with a kernel on some of its bits.

ghost use Rattle.std.specs.Prelude.{◌≡◌, ◌≢◌, ℕ, ◌+◌, ◌-◌, ◌*◌, ◌^◌, ◌<◌, IsTrue, IsOk, IsErr, OnOk, Some, length};
ghost use Rattle.bm_base.specs.declared.shape.Shape.{Shape};
ghost use Rattle.bm_base.specs.Shape.{dims_of, load_stripes};
ghost use Rattle.bm_base.specs.Records.{SameRecords, record_at};
ghost use Rattle.bm_gf2.specs.Matrix.{IsNonsingular};
ghost use Rattle.bm_bufs.specs.Bufs.{FitsShape};
ghost use Rattle.bm_forms.specs.PassForm.{IsOfShape};
ghost use Rattle.bm_rack.specs.Frames.{Keeps, MovesRows, HasCause, ChangesOnly};
ghost use Rattle.bm_pass.specs.LoadPlaces.{placed_record};
ghost use Rattle.bm_pass.specs.LoadMove.{IsTargetUnit};
ghost use Rattle.bm_kinds.specs.OnBits.{kernel_over};
ghost use Rattle.bm_kindjob.specs.ListMove.{ListMoved};

use bm_base::{Area, Failed, Shape};
use bm_bufs::{Bufs, Placing};
use bm_forms::PassForm;
use bm_kinds::{Kernel, kernel_at};
use bm_pass::fill_load;
use bm_rack::Rack;
use bm_stripe::write_spread;

// Does the kernel on each bit of a set, on a load's records at their places.
fn mix_load<K: Kernel>(kernel: &K, placing: &Placing, set: u64, bufs: &mut Bufs)
    requires nonsingular { IsNonsingular placing.now.a }
    requires plus { placing.now.plus < 2 ^ placing.now.a.n }
    requires set { set < 2 ^ placing.now.a.n }
    requires width { placing.now.width ≡ 8 }
    requires load { length bufs.old.load ≡ 2 ^ placing.now.a.n * placing.now.width }

    ensures records { SameRecords (2 ^ placing.now.a.n)
        (placed_record placing.now bufs.new.load)
        (kernel_over (K.meaning kernel.now) placing.now.a.n set
        (placed_record placing.now bufs.old.load)) }
    ensures fits { (s : Shape) → FitsShape s bufs.old → FitsShape s bufs.new }
{
    kernel_at(kernel, bufs.load_mut(), &placing.a, placing.plus, set);
}

/// Moves one load: its records, after the kernel on each bit of a set, to where the pass sends them
/// in area `to`.
///
/// It makes 2M/BD row calls and takes no memory. It stops at the first row call that fails, and
/// answers `Failed` only then. The blocks of the target records then hold anything.
pub fn kind_step<K: Kernel, R: Rack>(
    rack: &mut R,
    shape: &Shape,
    kernel: &K,
    set: u64,
    pass: &PassForm,
    from: Area,
    to: Area,
    load: u64,
    bufs: &mut Bufs,
) -> Result<(), Failed>
    requires attached { (R.view rack.old).attached ≡ Some (dims_of shape.now) }
    requires width { shape.now.width ≡ 8 }
    requires set { set < 2 ^ shape.now.m }
    requires pass { IsOfShape shape.now pass.now }
    requires areas { from ≢ to }
    requires load { load < 2 ^ (shape.now.n - shape.now.m) }
    requires fits { FitsShape shape.now bufs.old }

    ensures records { IsTrue R.tells_contents
        → OnOk result (ListMoved shape.now pass.now to load
        (kernel_over (K.meaning kernel.now) shape.now.m set
        (record_at (R.view rack.old).contents shape.now from)) (R.view rack.new).contents) }
    ensures only { ChangesOnly (IsTargetUnit shape.now pass.now to load)
        (R.view rack.old) (R.view rack.new) }
    ensures fits { FitsShape shape.now bufs.new }
    ensures moved { MovesRows (2 * load_stripes shape.now) (IsOk result)
        (R.view rack.old) (R.view rack.new) }
    ensures keeps { Keeps (R.view rack.old) (R.view rack.new) }
    ensures cause { HasCause (IsErr result) (R.view rack.old) (R.view rack.new) }
{
    let (a, plus) = pass.map.placing_for(load);
    let placing = Placing {
        a,
        plus,
        width: shape.width(),
    };
    fill_load(rack, shape, from, load, &placing, bufs)?;
    mix_load(kernel, &placing, set, bufs);
    write_spread(rack, shape, to, &pass.map.spread_for(load), bufs.load())
}
