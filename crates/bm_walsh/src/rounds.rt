//! The rounds of the transform.

ghost use Rattle.std.specs.Prelude.{◌≡◌, ◌≢◌, ◌↔◌, ◌+◌, ◌≤◌, ◌++◌, length, Err, IfOk, OnOk};
ghost use Rattle.bm_forms.specs.declared.job.Job.TheVariants.{Walsh};
ghost use Rattle.bm_forms.specs.Plan.{StandsFor};
ghost use Rattle.bm_forms.specs.PassCount.{passes_of};
ghost use Rattle.bm_forms.specs.PassLimit.{rotation_limit, limit_of};
ghost use Rattle.bm_walsh.specs.Rounds.{first_with, AreRounds, AppendsRound};

use crate::error::WalshError;
use bm_base::{OutOfMemory, Shape};
use bm_factor::{FactorError, factor};
use bm_forms::{PassForm, Plan, last_bits, round_count};
use bm_named::rotation;
use std::alloc::Global;

/// The plan of the Walsh-Hadamard transform: n/m rounds, rounded up. Each round but the last has
/// butterflies on address bits 0 to m-1 and then the rotation by m; the last has butterflies on as
/// many bits as are left of n and the rotation by that number.
///
/// The butterflies are in the round's first pass, and its passes are those of `factor`. All
/// rotations together turn the address by n bits, so each record is back in its place. `Width`
/// comes exactly where the records are not numbers of 8 bytes.
pub fn walsh_plan(alloc: Global, shape: &Shape) -> Result<Plan, WalshError>
    ensures stands { IfOk result (λ plan. StandsFor plan shape.now Walsh) }
    ensures rounds { IfOk result (λ plan. AreRounds shape.now plan.forms) }
    ensures length { IfOk result (λ plan. length plan.forms ≡ passes_of shape.now Walsh) }
    ensures few { IfOk result (λ plan. length plan.forms ≤ limit_of shape.now Walsh) }
    ensures some { IfOk result (λ plan. 1 ≤ length plan.forms) }
    ensures fits { OnOk result (shape.now.width ≡ 8) }
    ensures width { (result ≡ Err WalshError.Width) ↔ (shape.now.width ≢ 8) }
{
    if shape.width() != 8 {
        return Err(WalshError::Width);
    }
    match all_rounds(alloc, shape) {
        Ok(plan) => Ok(plan),
        Err(OutOfMemory) => Err(WalshError::OutOfMemory),
    }
}

// The plan of all rounds.
fn all_rounds(alloc: Global, shape: &Shape) -> Result<Plan, OutOfMemory>
    requires width { shape.now.width ≡ 8 }
    ensures shape { IfOk result (λ plan. plan.shape ≡ shape.now) }
    ensures rounds { IfOk result (λ plan. AreRounds shape.now plan.forms) }
{
    let mut plan = Plan::empty(alloc, shape);
    for _round in 0..round_count(shape) - 1 {
        push_round(alloc, &mut plan, shape, shape.m())?;
    }
    push_round(alloc, &mut plan, shape, last_bits(shape))?;
    Ok(plan)
}

// Puts a round at the end: butterflies on the bits below `by`, and the rotation by `by`.
fn push_round(alloc: Global, plan: &mut Plan, shape: &Shape, by: u8) -> Result<(), OutOfMemory>
    requires width { shape.now.width ≡ 8 }
    requires shape { plan.old.shape ≡ shape.now }
    requires by { by ≤ shape.now.m }
    requires room { length plan.old.forms + rotation_limit shape.now by ≤ 256 }
    ensures shape { plan.new.shape ≡ plan.old.shape }
    ensures pushed { OnOk result (AppendsRound shape.now by plan.old.forms plan.new.forms) }
{
    let turn = rotation(shape.n(), by);
    match factor(alloc, shape, &turn) {
        Ok(round) => push_passes(plan, &round, by),
        Err(FactorError::OutOfMemory) => Err(OutOfMemory),
        Err(FactorError::Singular { .. }) => unreachable!(),
    }
}

// Puts the passes of a plan at the end, with butterflies on the bits below `low` in the first.
fn push_passes(plan: &mut Plan, round: &Plan, low: u8) -> Result<(), OutOfMemory>
    requires width { round.now.shape.width ≡ 8 }
    requires shape { plan.old.shape ≡ round.now.shape }
    requires low { low ≤ round.now.shape.m }
    requires some { 1 ≤ length round.now.forms }
    requires room { length plan.old.forms + length round.now.forms ≤ 256 }
    ensures shape { plan.new.shape ≡ plan.old.shape }
    ensures pushed { OnOk result (plan.new.forms
        ≡ plan.old.forms ++ first_with low round.now.forms) }
{
    let first = round.at(0);
    plan.push(PassForm {
        low,
        map: first.map,
    })?;
    for i in 1..round.len() {
        plan.push(*round.at(i))?;
    }
    Ok(())
}
