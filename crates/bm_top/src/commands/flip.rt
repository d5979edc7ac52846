//! The command `flip`: each record of the input goes to its address XOR a constant.

ghost use Rattle.std.specs.Prelude.{◌≢◌, ◌≤◌, ◌^◌, ◌<◌, Bool};
ghost use Rattle.bm_top.specs.Moment.{SourceView, source_of, sink_of, devices_of, moment_of};
ghost use Rattle.bm_top.specs.Moment.{tells_of};
ghost use Rattle.bm_top.specs.Task.{IsFlipTask, TaskFits};
ghost use Rattle.bm_top.specs.TopCall.{FlipCall};

use crate::commands::carry::run_carry;
use crate::{Flip, Status, Task};
use bm_base::{Shape, Stops};
use bm_forms::Job;
use bm_named::{identity, with_complement};
use bm_rack::{Rack, Sink, Source};
use std::alloc::Global;

// The task of a flip of a shape.
fn flip_task(alloc: Global, shape: &Shape, c: u64) -> Task
    requires { c < 2 ^ shape.now.n }
    ensures task { IsFlipTask shape.now c result }
    ensures fits { TaskFits result }
{
    let map = with_complement(&identity(shape.n()), c);
    Task {
        shape: *shape,
        job: Job::Permute(map),
        every: shape.loads(),
        start: 0,
        stops: Stops::of(Vec::new(alloc)),
    }
}

/// Carries out a flip: the carry of its task, where its numbers are a shape's.
pub fn run_flip<R: Rack, S: Source, K: Sink>(
    alloc: Global,
    flip: &Flip,
    input: &mut S,
    out: &mut K,
    rack: &mut R,
) -> Status
    requires { flip.now.n ≤ 52 → flip.now.c < 2 ^ flip.now.n }
    ensures usage { result ≢ Status.Usage }
    ensures flip { (told : Bool) (job : SourceView) → FlipCall
        (tells_of told S.tells K.tells R.tells_stands R.tells_contents) flip.now
        (moment_of job (devices_of (source_of (S.left input.old) (S.faults input.old))
        (sink_of (K.taken out.old) (K.faults out.old)) (R.view rack.old))) result
        (moment_of job (devices_of (source_of (S.left input.new) (S.faults input.new))
        (sink_of (K.taken out.new) (K.faults out.new)) (R.view rack.new))) }
{
    match Shape::new(flip.n, flip.b, flip.d, flip.m, flip.width) {
        Ok(shape) => {
            let task = flip_task(alloc, &shape, flip.c);
            run_carry(alloc, &task, input, out, rack)
        }
        Err(broken) => Status::JobShape { rule: broken.rule },
    }
}
