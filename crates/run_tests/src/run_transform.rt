//! A run of the Walsh-Hadamard transform.

ghost use Rattle.std.specs.Prelude.{◌≡◌, ◌≤◌, ◌+◌, ◌++◌, ◌∷◌, [], IsTrue, IfSome, Some, length};
ghost use Rattle.bm_base.specs.Shape.{dims_of};
ghost use Rattle.bm_forms.specs.declared.job.Job.TheVariants.{Walsh};
ghost use Rattle.bm_forms.specs.PassForm.{IsOfShape};
ghost use Rattle.bm_forms.specs.Plan.{StandsFor};

use bm_base::{Area, RunReport, Shape};
use bm_bufs::Bufs;
use bm_control::open_load;
use bm_factor::factor;
use bm_forms::{Job, PassForm, Plan, pass_limit};
use bm_job::{RunError, run_job};
use bm_memrack::MemRack;
use bm_named::rotation;
use bm_rack::Rack;
use run_helpers::report;
use std::alloc::Global;
use std::test::Fail;
use test_helpers::{has_disks, read_area, records_of, write_area};

// Puts two passes at the end of a plan, where memory is given.
fn has_pushed(plan: &mut Plan, first: PassForm, second: PassForm) -> bool
    requires room { length plan.old.forms + 2 ≤ 256 }
    requires first { IsOfShape plan.old.shape first }
    requires second { IsOfShape plan.old.shape second }
    ensures shape { plan.new.shape ≡ plan.old.shape }
    ensures pushed { IsTrue result
        → plan.new.forms ≡ (plan.old.forms ++ first ∷ []) ++ second ∷ [] }
{
    plan.push(first).is_ok() && plan.push(second).is_ok()
}

// The plan of the transform of four numbers in two loads, where memory is given: two rounds, each
// with butterflies on the lowest bit and the rotation by one bit in two passes.
fn transform_plan(alloc: Global, shape: &Shape) -> Option<Plan>
    requires size { shape.now.n ≡ 2 }
    requires memory { shape.now.m ≡ 1 }
    requires width { shape.now.width ≡ 8 }
    ensures stands { IfSome result (λ plan. StandsFor plan shape.now Walsh) }
{
    let turn = rotation(2, 1);
    let Ok(round) = factor(alloc, shape, &turn) else {
        return None;
    };
    if round.len() != 2 {
        return None;
    }
    let plain = *round.at(0);
    let second = *round.at(1);
    let first = PassForm {
        low: 1,
        map: plain.map,
    };
    let mut plan = Plan::empty(alloc, shape);
    if !has_pushed(&mut plan, first, second) {
        return None;
    }
    if !has_pushed(&mut plan, first, second) {
        return None;
    }
    Some(plan)
}

// What a run of the transform answers. Nothing where memory is refused.
fn ran_transform<R: Rack>(
    alloc: Global,
    rack: &mut R,
    shape: &Shape,
    every: u64,
) -> Option<Result<RunReport, RunError>>
    requires { (R.view rack.old).attached ≡ Some (dims_of shape.now) }
    ensures { (R.view rack.new).attached ≡ Some (dims_of shape.now) }
{
    if shape.n() != 2 || shape.m() != 1 || shape.width() != 8 {
        return None;
    }
    let Some(plan) = transform_plan(alloc, shape) else {
        return None;
    };
    let most = pass_limit(shape, &Job::Walsh);
    if plan.len() == 0 || plan.len() > most || every == 0 || every > shape.loads() {
        return None;
    }
    let Ok(mut bufs) = Bufs::new(alloc, shape) else {
        return None;
    };
    Some(run_job(rack, shape, &Job::Walsh, &plan, &mut bufs, every))
}

// Loads the numbers and runs the transform: what it answers, and the area after four passes.
fn transformed<R: Rack>(
    alloc: Global,
    rack: &mut R,
    shape: &Shape,
    input: &[u8],
    every: u64,
) -> Option<(Result<RunReport, RunError>, Vec<u8>)> {
    if !has_disks(rack, shape) || !write_area(rack, shape, Area::Input, input) {
        return None;
    }
    if open_load(rack, shape).is_err() {
        return None;
    }
    let answer = ran_transform(alloc, rack, shape, every)?;
    let bytes = read_area(alloc, rack, shape, Area::Two)?;
    Some((answer, bytes))
}

// Four numbers in two loads: w[k] is the sum of all v[x], each negative where k and x have an odd
// number of ones in common.
#[test]
fn transform_of_four_numbers(rt: HostRuntime) -> Result<(), Fail> {
    let shape = Shape::new(2, 0, 0, 1, 8).ok().ok_or("shape")?;
    let input = records_of(rt.alloc(), &[1, 2, 3, 4]).ok_or("memory")?;
    let sums = [10, 18446744073709551614, 18446744073709551612, 0];
    let output = records_of(rt.alloc(), &sums).ok_or("memory")?;
    for every in [1, 2] {
        let mut rack = MemRack::new(rt.alloc(), Vec::new(rt.alloc()));
        let (answer, bytes) = transformed(rt.alloc(), &mut rack, &shape, &input, every).ok_or(
            "disks",
        )?;
        assert_eq!(rt; answer, Ok(report(4, 0, 0, 32)));
        assert_eq!(rt; bytes.as_slice(), output.as_slice());
    }
    Ok(())
}
