//! The plan of a task.

ghost use Rattle.std.specs.Prelude.{IfOk};
ghost use Rattle.bm_top.specs.Task.{TaskFits, IsPlanOf};

use crate::Task;
use bm_base::OutOfMemory;
use bm_factor::{FactorError, factor};
use bm_forms::{Job, Plan};
use bm_walsh::{WalshError, walsh_plan};
use std::alloc::Global;

/// The plan of the task's job: the factors of a permutation, or the rounds of the transform.
pub fn make_plan(alloc: Global, task: &Task) -> Result<Plan, OutOfMemory>
    requires { TaskFits task.now }
    ensures { IfOk result (λ plan. IsPlanOf task.now plan) }
{
    match &task.job {
        Job::Permute(map) => match factor(alloc, &task.shape, map) {
            Ok(plan) => Ok(plan),
            Err(FactorError::OutOfMemory) => Err(OutOfMemory),
            Err(FactorError::Singular { .. }) => unreachable!(),
        },
        Job::Walsh => match walsh_plan(alloc, &task.shape) {
            Ok(plan) => Ok(plan),
            Err(WalshError::OutOfMemory) => Err(OutOfMemory),
            Err(WalshError::Width) => unreachable!(),
        },
    }
}
