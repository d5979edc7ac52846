//! Runs of permutations of sixteen records of one byte.

ghost use Rattle.std.specs.Prelude.{◌≡◌, IsTrue, IfSome, Some, length};
ghost use Rattle.bm_base.specs.Shape.{dims_of};
ghost use Rattle.bm_forms.specs.declared.job.Job.TheVariants.{Permute};
ghost use Rattle.bm_forms.specs.Plan.{StandsFor};
ghost use Rattle.bm_control.specs.Bodies.{JobBodyFits};

use crate::slates::is_job;
use bm_base::{Area, RunReport, Shape};
use bm_bufs::Bufs;
use bm_control::open_load;
use bm_factor::factor;
use bm_forms::{Job, Plan};
use bm_gf2::Affine;
use bm_job::{RunError, run_job};
use bm_rack::Rack;
use std::alloc::Global;
use test_helpers::{INPUT, areas_of, has_disks, read_area, write_area};

/// What a stop leaves of each unit that is not durable: what stands, zeros, ones, or the first half.
pub const PICKS: [u64; 4] = [
    0,
    0x5555_5555_5555_5555,
    0xAAAA_AAAA_AAAA_AAAA,
    0xFFFF_FFFF_FFFF_FFFF,
];

/// Makes the disks of a shape, writes the input, and opens the load gate: on two disks in blocks of
/// two, with sixteen records of a byte and eight in a load, ten device calls.
pub fn has_loaded<R: Rack>(rack: &mut R, shape: &Shape, bytes: &[u8]) -> bool
    ensures attached { IsTrue result → (R.view rack.new).attached ≡ Some (dims_of shape.now) }
    ensures steady { IsTrue (R.view rack.old).steady → IsTrue (R.view rack.new).steady }
{
    has_disks(rack, shape)
        && write_area(rack, shape, Area::Input, bytes)
        && open_load(rack, shape).is_ok()
}

/// The plan of the permutation by the map, for a job whose progress is made durable after `every`
/// loads of a pass. Nothing where it is no job of the shape, or memory is refused.
pub fn plan_of(alloc: Global, shape: &Shape, map: &Affine, every: u64) -> Option<Plan>
    ensures stands { IfSome result (λ plan. StandsFor plan shape.now (Permute map.now)) }
    ensures fits { IfSome result (λ plan.
        JobBodyFits shape.now (Permute map.now) (length plan.forms) every) }
{
    if map.a.n != shape.n() {
        return None;
    }
    let Ok(plan) = factor(alloc, shape, map) else {
        return None;
    };
    if !is_job(shape, map, plan.len(), every) {
        return None;
    }
    Some(plan)
}

/// What a run of the permutation by the map answers. Nothing where it is no job of the shape, or
/// memory is refused.
pub fn ran<R: Rack>(
    alloc: Global,
    rack: &mut R,
    shape: &Shape,
    map: &Affine,
    every: u64,
) -> Option<Result<RunReport, RunError>>
    requires { (R.view rack.old).attached ≡ Some (dims_of shape.now) }
    ensures { (R.view rack.new).attached ≡ Some (dims_of shape.now) }
{
    let plan = plan_of(alloc, shape, map, every)?;
    let mut bufs = Bufs::new(alloc, shape).ok()?;
    let job = Job::Permute(*map);
    Some(run_job(rack, shape, &job, &plan, &mut bufs, every))
}

/// Whether the area after so many passes holds these records, and the input is as before.
pub fn holds<R: Rack>(
    alloc: Global,
    rack: &mut R,
    shape: &Shape,
    passes: u16,
    output: &[u8],
) -> bool
    requires { (R.view rack.old).attached ≡ Some (dims_of shape.now) }
    ensures { (R.view rack.new).attached ≡ Some (dims_of shape.now) }
{
    let (last, _) = areas_of(passes);
    match (
        read_area(alloc, rack, shape, last),
        read_area(alloc, rack, shape, Area::Input),
    ) {
        (Some(found), Some(input)) => found.as_slice() == output && input.as_slice() == INPUT,
        _ => false,
    }
}

/// A report.
pub fn report(passes: u16, done_before: u16, part_before: u64, moves: u64) -> RunReport {
    RunReport {
        passes,
        done_before,
        part_before,
        moves,
    }
}
