//! A run with the kernel of a name.

ghost use Rattle.std.specs.Prelude.{◌≡◌, ◌^◌, ◌<◌, Some, length};
ghost use Rattle.bm_base.specs.Shape.{dims_of};
ghost use Rattle.bm_bufs.specs.Bufs.{FitsShape};
ghost use Rattle.bm_top.specs.Moment.{Tells};
ghost use Rattle.bm_kind_call.specs.Kinds.{KindRan};

use bm_base::Failed;
use bm_bufs::Bufs;
use bm_kindjob::{KindFile, KindName, KindPlan, run_kind};
use bm_kinds::{Differences, Signs, Sums, Xors};
use bm_rack::Rack;

/// Does the transform of a file on disks that are attached and loaded: the area of the last pass
/// then holds what it makes of the input. The answer is the number of parallel transfers.
pub fn run_named<R: Rack>(
    rack: &mut R,
    file: &KindFile,
    plan: &KindPlan,
    bufs: &mut Bufs,
) -> Result<u64, Failed>
    requires attached { (R.view rack.old).attached ≡ Some (dims_of file.now.shape) }
    requires set { file.now.set < 2 ^ file.now.shape.n }
    requires plan { plan.now.shape ≡ file.now.shape }
    requires fits { FitsShape file.now.shape bufs.old }
    ensures ran { (t : Tells) → KindRan
        (record t { stands = R.tells_stands; contents = R.tells_contents })
        file.now (length plan.now.forms) (R.view rack.old) result (R.view rack.new) }
    ensures attached { (R.view rack.new).attached ≡ Some (dims_of file.now.shape) }
    ensures fits { FitsShape file.now.shape bufs.new }
{
    match file.kind {
        KindName::WalshBits => run_kind(rack, &file.shape, &Signs, file.set, plan, bufs),
        KindName::Sums => run_kind(rack, &file.shape, &Sums, file.set, plan, bufs),
        KindName::Differences => run_kind(rack, &file.shape, &Differences, file.set, plan, bufs),
        KindName::Xors => run_kind(rack, &file.shape, &Xors, file.set, plan, bufs),
    }
}
