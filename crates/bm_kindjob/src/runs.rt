//! All passes of a transform over chosen bits.

ghost use Rattle.std.specs.Prelude.{◌≡◌, ℕ, ◌*◌, ◌%◌, ◌^◌, ◌<◌, IsTrue, IsOk, IsErr, OnOk, IfOk, Some, length};
ghost use Rattle.bm_base.specs.declared.area.Area.TheVariants.{Input};
ghost use Rattle.bm_base.specs.Area.{area_after};
ghost use Rattle.bm_base.specs.Shape.{dims_of, stripes};
ghost use Rattle.bm_base.specs.Records.{SameRecords, record_at};
ghost use Rattle.bm_bufs.specs.Bufs.{FitsShape};
ghost use Rattle.bm_rack.specs.Frames.{Keeps, MovesRows, HasCause, ChangesOnly};
ghost use Rattle.bm_rack.specs.Image.{InEveryImage};
ghost use Rattle.bm_control.specs.Pages.{HasClosedJob};
ghost use Rattle.bm_control.specs.Sound.{IsSound};
ghost use Rattle.bm_kinds.specs.OnBits.{word, kernel_over};
ghost use Rattle.bm_kinds.specs.Kinds.{Kind, pairing, kind_transformed};
ghost use Rattle.bm_kindjob.specs.KindRun.{IsWorkBlock};

use crate::plans::KindPlan;
use crate::whole_pass::kind_pass;
use bm_base::{Failed, Shape, area_of};
use bm_bufs::Bufs;
use bm_kinds::Kernel;
use bm_rack::Rack;

// The lowest bits of a set.
fn lowest(set: u64, low: u8) -> u64
    requires { low < 64 }
    ensures { result ≡ set % 2 ^ low }
{
    set & ((1 << low) - 1)
}

/// Does a kernel on each bit of a set of address bits: the area of the last pass then holds what it
/// makes of the input. The answer is the number of parallel transfers.
///
/// It takes no memory, and is not resumed: after a fault it begins anew. Only areas `One` and `Two`
/// change.
pub fn run_kind<K: Kernel, R: Rack>(
    rack: &mut R,
    shape: &Shape,
    kernel: &K,
    set: u64,
    plan: &KindPlan,
    bufs: &mut Bufs,
) -> Result<u64, Failed>
    requires attached { (R.view rack.old).attached ≡ Some (dims_of shape.now) }
    requires set { set < 2 ^ shape.now.n }
    requires plan { plan.now.shape ≡ shape.now }
    requires fits { FitsShape shape.now bufs.old }

    ensures records { IsTrue R.tells_contents
        → OnOk result (SameRecords (2 ^ shape.now.n)
        (record_at (R.view rack.new).contents shape.now (area_after (length plan.now.forms)))
        (kernel_over (K.meaning kernel.now) shape.now.n set
        (record_at (R.view rack.old).contents shape.now Input))) }
    ensures kinds { (kind : Kind) → K.meaning kernel.now ≡ pairing kind
        → IsTrue R.tells_contents → OnOk result ((k : ℕ) → k < 2 ^ shape.now.n
        → word (record_at (R.view rack.new).contents shape.now
        (area_after (length plan.now.forms)) k)
        ≡ kind_transformed kind shape.now.n set
        (λ x. word (record_at (R.view rack.old).contents shape.now Input x)) k) }
    ensures only { ChangesOnly (IsWorkBlock shape.now) (R.view rack.old) (R.view rack.new) }
    ensures sound { IsTrue R.tells_stands → IsTrue R.tells_contents
        → InEveryImage HasClosedJob (R.view rack.old)
        → IsSound (R.view rack.old) → IsSound (R.view rack.new) }
    ensures fits { FitsShape shape.now bufs.new }
    ensures count { IfOk result (λ moves. moves ≡ 2 * stripes shape.now * length plan.now.forms) }
    ensures moved { MovesRows (2 * stripes shape.now * length plan.now.forms) (IsOk result)
        (R.view rack.old) (R.view rack.new) }
    ensures keeps { Keeps (R.view rack.old) (R.view rack.new) }
    ensures cause { HasCause (IsErr result) (R.view rack.old) (R.view rack.new) }
{
    let mut left = set;
    for i in 0..plan.len() {
        let pass = plan.at(i);
        let part = lowest(left, pass.low);
        kind_pass(
            rack,
            shape,
            kernel,
            part,
            pass,
            area_of(i),
            area_of(i + 1),
            bufs,
        )?;
        left >>= pass.low;
    }
    Ok(shape.pass_moves() * u64::from(plan.len()))
}
