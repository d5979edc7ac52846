//! Plans of transforms over chosen bits.

ghost use Rattle.std.specs.Prelude.{◌≡◌, ◌≢◌, ◌↔◌, ◌<◌, ◌≤◌, length, slice_index_or, Err, IfOk, OnOk};
ghost use Rattle.bm_forms.specs.declared.job.Job.TheVariants.{Walsh};
ghost use Rattle.bm_forms.specs.PassForm.{IsOfShape};
ghost use Rattle.bm_forms.specs.PassCount.{passes_of};
ghost use Rattle.bm_forms.specs.PassLimit.{limit_of};
ghost use Rattle.bm_walsh.specs.Rounds.{AreRounds};
ghost use Rattle.bm_kindjob.specs.KindPasses.{DoKinds};

use crate::error::KindError;
use bm_base::Shape;
use bm_forms::{PassForm, Plan};
use bm_walsh::{WalshError, walsh_plan};
use std::alloc::Global;
use std::marker::Model;

/// The passes of a transform over any set of bits, whatever its kernel: the rounds of the
/// Walsh-Hadamard transform. In a round's first pass the kernel acts on those of the round's bits
/// that are in the set.
#[derive(Drop)]
pub struct KindPlan {
    plan: Plan,
}

impl Model for KindPlan {
    ghost use Rattle.bm_forms.specs.Plan.{PlanValue};
    ghost use Rattle.bm_kindjob.specs.KindPlan.{IsKindPlan};

    ghost Value = { PlanValue };

    ghost view = { λ p. p.plan };

    ghost invariant = { λ p. IsKindPlan p.plan };
}

impl KindPlan {
    ghost use Rattle.bm_kindjob.specs.KindPlan.{IsKindPlan};

    /// How many passes there are.
    pub fn len(&self) -> u16
        ensures count { result ≡ length self.now.forms }
        ensures few { result ≤ limit_of self.now.shape Walsh }
        ensures most { result ≤ 256 }
        ensures rounds { IsKindPlan self.now }
    {
        self.plan.len()
    }

    /// Pass i, counted from 0.
    pub fn at(&self, i: u16) -> &PassForm
        requires { i < length self.now.forms }
        ensures form { result.now ≡ slice_index_or self.now.forms i result.now }
        ensures shape { IsOfShape self.now.shape result.now }
    {
        self.plan.at(i)
    }
}

/// The plan for a shape. `Width` comes exactly where the records are not numbers of 8 bytes.
pub fn kind_plan(alloc: Global, shape: &Shape) -> Result<KindPlan, KindError>
    ensures shape { IfOk result (λ plan. plan.shape ≡ shape.now) }
    ensures rounds { IfOk result (λ plan. AreRounds shape.now plan.forms) }
    ensures passes { IfOk result (λ plan. length plan.forms ≡ passes_of shape.now Walsh) }
    ensures does { IfOk result (λ plan. DoKinds plan.forms shape.now.n) }
    ensures fits { OnOk result (shape.now.width ≡ 8) }
    ensures width { (result ≡ Err KindError.Width) ↔ (shape.now.width ≢ 8) }
{
    match walsh_plan(alloc, shape) {
        Ok(plan) => Ok(KindPlan { plan }),
        Err(WalshError::Width) => Err(KindError::Width),
        Err(WalshError::OutOfMemory) => Err(KindError::OutOfMemory),
    }
}
