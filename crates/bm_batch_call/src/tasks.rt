//! The tasks that several job sources hold.

ghost use Rattle.std.specs.Prelude.{◌≡◌, ◌≤◌, IfOk, IfErr, length, slice_index_or};
ghost use Rattle.bm_top.specs.declared.task.Task.{Task};
ghost use Rattle.bm_batch_call.specs.Moment.{sources_of};
ghost use Rattle.bm_batch_call.specs.Texts.{AreRead, AreRefused};

use bm_rack::Source;
use bm_top::{Status, Task, Verb, read_task};
use std::alloc::Global;

/// Reads the task that each source holds, in order, or says why one is refused. Those after it are
/// not asked.
pub fn read_tasks<J: Source>(alloc: Global, jobs: &mut [J]) -> Result<Vec<Task>, Status>
    ensures read { IfOk result (λ tasks. (d : Task)
        → AreRead J.tells (length jobs.old) (λ k. slice_index_or tasks.items k d)
        (sources_of J.left J.faults jobs.old) (sources_of J.left J.faults jobs.new)) }
    ensures many { IfOk result (λ tasks. length tasks.items ≡ length jobs.old) }
    ensures refused { IfErr result (λ status. AreRefused J.tells
        (sources_of J.left J.faults jobs.old) status (sources_of J.left J.faults jobs.new)) }
{
    let Ok(mut tasks) = Vec::with_capacity(alloc, jobs.len()) else {
        return Err(Status::OutOfMemory);
    };
    for job in 0..jobs.len() {
        match read_task(alloc, Verb::Carry, &mut jobs[job]) {
            Ok(task) => tasks.push_reserved(task),
            Err(status) => return Err(status),
        }
    }
    Ok(tasks)
}
