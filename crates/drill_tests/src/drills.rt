//! Drills of the reversal of the bits of addresses.

ghost use Rattle.std.specs.Prelude.{◌≡◌, ◌*◌, ◌^◌, ◌<◌, ◌≤◌, IsTrue, IsFalse, None};

use bm_base::{DrillReport, Shape, Stops};
use bm_bufs::Bufs;
use bm_drill::{DrillSpec, drill};
use bm_forms::Job;
use bm_named::bit_reversal;
use bm_rack::StopRack;
use run_helpers::plan_of;
use std::alloc::Global;

/// What a drill of the reversal tells, and the row calls that its rack counts after it. Nothing
/// where the numbers are no drill's or memory is refused.
pub fn reversed<R: StopRack>(
    alloc: Global,
    rack: &mut R,
    shape: &Shape,
    start: u64,
    stops: Stops,
    every: u64,
) -> Option<(DrillReport, u64)>
    requires tells { IsTrue R.tells_stands }
    requires tells_contents { IsTrue R.tells_contents }
    requires empty { (R.view rack.old).stands ≡ None }
    requires steady { IsTrue (R.view rack.old).steady }
    requires going { IsFalse (R.view rack.old).stopping }
    requires rows { (R.view rack.old).moves < 2 ^ 63 }
    requires size { 2 ^ shape.now.n * shape.now.width ≤ 2 ^ 26 }
{
    if stops.list().len() > 64 {
        return None;
    }
    let map = bit_reversal(shape.n());
    let plan = plan_of(alloc, shape, &map, every)?;
    let mut bufs = Bufs::new(alloc, shape).ok()?;
    let spec = DrillSpec {
        shape: *shape,
        job: Job::Permute(map),
        plan,
        start,
        stops,
        every,
    };
    let report = drill(rack, &spec, &mut bufs).ok()?;
    Some((report, rack.rows()))
}
