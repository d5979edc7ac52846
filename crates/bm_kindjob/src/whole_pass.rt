//! All loads of a pass, with a kernel on some of its bits.

ghost use Rattle.std.specs.Prelude.{◌≡◌, ◌≢◌, ℕ, ◌+◌, ◌-◌, ◌*◌, ◌^◌, ◌<◌, IsTrue, IsOk, IsErr, OnOk, Some};
ghost use Rattle.bm_base.specs.Shape.{dims_of, stripes};
ghost use Rattle.bm_base.specs.Records.{SameRecords, record_at};
ghost use Rattle.bm_bufs.specs.Bufs.{FitsShape};
ghost use Rattle.bm_forms.specs.PassForm.{IsOfShape};
ghost use Rattle.bm_forms.specs.Permutation.{permuted};
ghost use Rattle.bm_rack.specs.Frames.{Keeps, MovesRows, HasCause, ChangesOnly};
ghost use Rattle.bm_stripe.specs.Units.{IsAreaUnit};
ghost use Rattle.bm_kinds.specs.OnBits.{kernel_over};

use crate::one_load::kind_step;
use bm_base::{Area, Failed, Shape};
use bm_bufs::Bufs;
use bm_forms::PassForm;
use bm_kinds::Kernel;
use bm_rack::Rack;

/// Does a pass with a kernel on each bit of a set: area `to` becomes what they make of area `from`,
/// load after load.
///
/// It makes 2N/BD row calls and takes no memory. It stops at the first row call that fails, and
/// answers `Failed` only then. Area `to` then holds anything.
pub fn kind_pass<K: Kernel, R: Rack>(
    rack: &mut R,
    shape: &Shape,
    kernel: &K,
    set: u64,
    pass: &PassForm,
    from: Area,
    to: Area,
    bufs: &mut Bufs,
) -> Result<(), Failed>
    requires attached { (R.view rack.old).attached ≡ Some (dims_of shape.now) }
    requires width { shape.now.width ≡ 8 }
    requires set { set < 2 ^ shape.now.m }
    requires pass { IsOfShape shape.now pass.now }
    requires areas { from ≢ to }
    requires fits { FitsShape shape.now bufs.old }

    ensures records { IsTrue R.tells_contents
        → OnOk result (SameRecords (2 ^ shape.now.n)
        (record_at (R.view rack.new).contents shape.now to)
        (permuted pass.now.map.map (kernel_over (K.meaning kernel.now) shape.now.m set
        (record_at (R.view rack.old).contents shape.now from)))) }
    ensures only { ChangesOnly (IsAreaUnit shape.now to) (R.view rack.old) (R.view rack.new) }
    ensures fits { FitsShape shape.now bufs.new }
    ensures moved { MovesRows (2 * stripes shape.now) (IsOk result)
        (R.view rack.old) (R.view rack.new) }
    ensures keeps { Keeps (R.view rack.old) (R.view rack.new) }
    ensures cause { HasCause (IsErr result) (R.view rack.old) (R.view rack.new) }
{
    for load in 0..shape.loads() {
        kind_step(rack, shape, kernel, set, pass, from, to, load, bufs)?;
    }
    Ok(())
}
