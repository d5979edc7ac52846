//! The drill.

ghost use Rattle.std.specs.Prelude.{◌≡◌, ℕ, ◌+◌, ◌*◌, ◌^◌, ◌<◌, ◌≤◌, IsTrue, IsFalse, OnErr, IfOk};
ghost use Rattle.std.specs.Prelude.{None, length};
ghost use Rattle.bm_base.specs.Shape.{stripes};
ghost use Rattle.bm_bufs.specs.Bufs.{FitsShape};
ghost use Rattle.bm_rack.specs.Frames.{SameCalls};
ghost use Rattle.bm_forms.specs.Plan.{StandsFor};
ghost use Rattle.bm_control.specs.Bodies.{JobBodyFits};
ghost use Rattle.bm_drill.specs.Drill.{IsDrilled, SessionCounts, DrillCounts};
ghost use Rattle.bm_drill.specs.Steps.{HasGenerated};

use crate::drill_steps::{create_rack, hash_area, load_generated};
use crate::sessions::run_sessions;
use bm_base::{DrillReport, OutOfMemory, Shape, Stops, area_of};
use bm_bufs::Bufs;
use bm_forms::{Job, Plan, pass_limit};
use bm_rack::StopRack;

/// A job on generated records, and the stops that it has to survive.
#[derive(Drop)]
pub struct DrillSpec {
    /// The sizes of the records and of the rack.
    pub shape: Shape,
    /// What is done with the records.
    pub job: Job,
    /// The passes that do it.
    pub plan: Plan,
    /// What is added to each address before a record is generated from it.
    pub start: u64,
    /// The stops in order.
    pub stops: Stops,
    /// The loads of a pass after which progress is made durable, 1 to N/M.
    pub every: u64,
}

/// Makes a rack, fills its input with generated records, runs the job in sessions with these stops,
/// and hashes what came out.
///
/// Byte i of generated record x is byte `i mod 8` of `(x + start) * 0x9E3779B97F4A7C15` modulo
/// 2^64, the lowest first. The digest is the SHA-256 of the output's records in order of address.
///
/// The rack tells what stands and what it holds. Nothing stands on it, it is steady with no stop
/// ahead, and it has counted fewer than 2^63 row calls. The buffers fit the shape, and the plan
/// stands for the job, with 1 to Q passes. The input has at most 2^26 bytes, and there are at most
/// 64 stops.
///
/// `OutOfMemory` where the rack could not be made: no row call, page call or sync was made then.
pub fn drill<R: StopRack>(
    rack: &mut R,
    spec: &DrillSpec,
    bufs: &mut Bufs,
) -> Result<DrillReport, OutOfMemory>
    requires tells { IsTrue R.tells_stands }
    requires tells_contents { IsTrue R.tells_contents }
    requires empty { (R.view rack.old).stands ≡ None }
    requires steady { IsTrue (R.view rack.old).steady }
    requires going { IsFalse (R.view rack.old).stopping }
    requires rows { (R.view rack.old).moves < 2 ^ 63 }
    requires fits { FitsShape spec.now.shape bufs.old }
    requires plan { StandsFor spec.now.plan spec.now.shape spec.now.job }
    requires body { JobBodyFits spec.now.shape spec.now.job
        (length spec.now.plan.forms) spec.now.every }
    requires size { 2 ^ spec.now.shape.n * spec.now.shape.width ≤ 2 ^ 26 }
    requires stops { length spec.now.stops ≤ 64 }

    ensures leaves { IfOk result (λ r. IsDrilled spec.now.shape spec.now.job spec.now.start r
        (R.view rack.new)) }
    ensures counts { IfOk result (λ r. DrillCounts spec.now.shape spec.now.job
        (length spec.now.plan.forms) spec.now.every (length spec.now.stops) r
        (R.view rack.old) (R.view rack.new)) }
    ensures refused { OnErr result (SameCalls (R.view rack.old) (R.view rack.new)) }
    ensures fits { FitsShape spec.now.shape bufs.new }
{
    create_rack(rack, &spec.shape.dims())?;
    load_generated(rack, &spec.shape, spec.start, bufs);
    Ok(run_and_hash(rack, spec, bufs))
}

// Runs the sessions of a drill on its rack, which is steady with no stop ahead, and hashes what
// came out.
fn run_and_hash<R: StopRack>(rack: &mut R, spec: &DrillSpec, bufs: &mut Bufs) -> DrillReport
    requires tells { IsTrue R.tells_stands }
    requires tells_contents { IsTrue R.tells_contents }
    requires loaded { HasGenerated spec.now.shape spec.now.start (R.view rack.old) }
    requires steady { IsTrue (R.view rack.old).steady }
    requires rows { (R.view rack.old).moves + stripes spec.now.shape < 2 ^ 63 + 2 ^ 27 }
    requires fits { FitsShape spec.now.shape bufs.old }
    requires plan { StandsFor spec.now.plan spec.now.shape spec.now.job }
    requires body { JobBodyFits spec.now.shape spec.now.job
        (length spec.now.plan.forms) spec.now.every }
    requires size { stripes spec.now.shape ≤ 2 ^ 26 }
    requires stops { length spec.now.stops ≤ 64 }
    ensures leaves { IsDrilled spec.now.shape spec.now.job spec.now.start result
        (R.view rack.new) }
    ensures counts { SessionCounts spec.now.shape spec.now.job (length spec.now.plan.forms)
        spec.now.every (length spec.now.stops) result }
    ensures moves { (R.view rack.new).moves
        ≡ (R.view rack.old).moves + (result.moves + stripes spec.now.shape) }
    ensures fits { FitsShape spec.now.shape bufs.new }
{
    let shape = &spec.shape;
    let Ok(sessions) = run_sessions(
        rack,
        shape,
        &spec.job,
        &spec.plan,
        bufs,
        spec.stops.list(),
        spec.every,
    ) else {
        unreachable!()
    };
    let last = area_of(sessions.passes);
    let Ok(digest) = hash_area(rack, shape, last, bufs.load_mut()) else {
        unreachable!()
    };
    DrillReport {
        passes: sessions.passes,
        restarts: sessions.restarts,
        moves: sessions.moves,
        bound: shape.pass_moves() * u64::from(pass_limit(shape, &spec.job)),
        digest,
    }
}
