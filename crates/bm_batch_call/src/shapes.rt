//! The shapes of several jobs.

ghost use Rattle.std.specs.Prelude.{◌≡◌, ◌≤◌, IfSome, IfNone, length, slice_index_or};
ghost use Rattle.bm_top.specs.declared.task.Task.{Task};
ghost use Rattle.bm_batch_call.specs.Texts.{IsFirstOther, AreOfOneShape};

use bm_control::same_shape;
use bm_top::Task;

/// The first job whose shape differs from that of job 0. There are 1 to 64.
pub fn first_other(tasks: &[Task]) -> Option<u16>
    requires some { 1 ≤ length tasks.now }
    requires few { length tasks.now ≤ 64 }
    ensures found { IfSome result (λ bay. (d : Task)
        → IsFirstOther (length tasks.now) (λ k. slice_index_or tasks.now k d) bay) }
    ensures none { IfNone result ((d : Task)
        → AreOfOneShape (length tasks.now) (λ k. slice_index_or tasks.now k d)) }
{
    for (bay, task) in tasks.iter().enumerate() {
        if !same_shape(&task.shape, &tasks[0].shape) {
            return Some(bay as u16);
        }
    }
    None
}
