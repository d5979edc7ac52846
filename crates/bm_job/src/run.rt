//! A whole run of a job.

ghost use Rattle.std.specs.Prelude.{◌≡◌, ◌≢◌, ◌+◌, ◌*◌, ◌<◌, ◌≤◌, ℕ, IsTrue, IsOk, OnErr, IfOk};
ghost use Rattle.std.specs.Prelude.{IfErr, IsErrOf, IsOkUnless, Some, length};
ghost use Rattle.bm_base.specs.Count.{raised};
ghost use Rattle.bm_base.specs.Shape.{dims_of};
ghost use Rattle.bm_bufs.specs.Bufs.{FitsShape};
ghost use Rattle.bm_forms.specs.Plan.{StandsFor};
ghost use Rattle.bm_rack.specs.Frames.{RackCall, DirtiesOnly, MakesCalls, MovesFew, CallsFew};
ghost use Rattle.bm_rack.specs.Image.{SameInput, InEveryImage};
ghost use Rattle.bm_control.specs.Bodies.{JobBodyFits};
ghost use Rattle.bm_control.specs.Pages.{HasOpenJob};
ghost use Rattle.bm_control.specs.Progress.{IsGone};
ghost use Rattle.bm_control.specs.Sound.{IsSound};
ghost use Rattle.bm_job.specs.Begins.{HasBodies};
ghost use Rattle.bm_job.specs.Follows.{Follows, loads_moved};
ghost use Rattle.bm_job.specs.Turns.{IsTurnRefusal};
ghost use Rattle.bm_job.specs.Runs.{IsWorkUnit, IsRunUnit, turn_pages, turn_syncs, most_pages};
ghost use Rattle.bm_job.specs.Runs.{most_syncs, RunCalls, loads_left, load_rows};
ghost use Rattle.bm_job.specs.Runs.{ReportFits, RunAnswer, RefusalKeeps, IsRunnable, RunDone};
ghost use Rattle.bm_job.specs.Runs.{RunFailed, KeepsJobs, KeepsOpenJob, IsReached};
ghost use Rattle.bm_job.specs.Runs.{IsEnd, run_most};

use crate::answers::RunError;
use crate::machine::Machine;
use bm_base::{RunReport, Shape};
use bm_bufs::Bufs;
use bm_forms::{Job, Plan};
use bm_rack::Rack;

/// Runs a job on the records that are loaded: it begins, or goes on with the job where that is
/// open, and takes turns until all passes are done.
///
/// The rack is attached with the shape's dims, and the buffers fit the shape. The plan stands for
/// the job, with 1 to Q passes, and `every` is the number of loads of a pass after which progress
/// is made durable, 1 to N/M. Where the job is open its stored passes and number of loads are used,
/// and not the plan's. It takes no memory.
///
/// A run that answers well leaves the records as the job means them in the area of the last pass,
/// all gates open, and nothing dirty. The report tells the passes, how many of them were done
/// before and how many loads of the next one were counted, and the row calls of this run: 2M/BD for
/// each load that was left.
///
/// The refusals, in the order of the tests:
/// - `Failed` where a call of the rack failed: the sync that comes first, one of a page, or one of
///   a turn. Beside the loads of the progress that was made durable it costs the row calls of
///   `every` loads at most.
/// - `BadPage` by the first page of the control file that is wrong, in the order in which it is
///   read; no page of a sound rack is. A turn answers it where a pass's body is none any more,
///   which never comes on a rack that tells its contents.
/// - `NotLoaded` where no records are loaded, `OtherShape` where those loaded have another shape,
///   and `OtherJob` where another job is open.
///
/// All but `Failed`, and a turn's `BadPage`, leave the contents and make no row call.
///
/// At each exit the input and the load's pages are as they were, a rack that was sound is sound,
/// and a job that was open is open: so the run may be made again, and it goes on from the progress
/// that was made durable. It makes 2N/BD * Q row calls at most, where Q is the pass limit, and at
/// most 517 + Q * (2 + 4 * (N/M - 1)) page calls and 3 + Q * (2 + 3 * (N/M - 1)) syncs.
pub fn run_job<R: Rack>(
    rack: &mut R,
    shape: &Shape,
    job: &Job,
    plan: &Plan,
    bufs: &mut Bufs,
    every: u64,
) -> Result<RunReport, RunError>
    requires attached { (R.view rack.old).attached ≡ Some (dims_of shape.now) }
    requires stands { StandsFor plan.now shape.now job.now }
    requires body { JobBodyFits shape.now job.now (length plan.now.forms) every }
    requires fits { FitsShape shape.now bufs.old }

    ensures answer { IsTrue R.tells_contents
        → RunAnswer shape.now job.now (length plan.now.forms) every
        (R.view rack.old) (R.view rack.new) result }
    // On every rack, told or not.
    ensures report { IfOk result (λ r. ReportFits shape.now job.now r) }
    ensures moves { IfOk result (λ r.
        (R.view rack.new).moves ≡ raised (R.view rack.old).moves r.moves) }
    ensures most { MovesFew (run_most shape.now job.now) (R.view rack.old) (R.view rack.new) }
    ensures calls_most { CallsFew (most_pages shape.now job.now) (most_syncs shape.now job.now)
        (R.view rack.old) (R.view rack.new) }
    ensures kept { IfErr result (λ e. RefusalKeeps (R.view rack.old) (R.view rack.new) e) }
    // Where the job was done.
    ensures done { IsTrue R.tells_stands → IsTrue R.tells_contents → IsSound (R.view rack.old)
        → IfOk result (λ r. RunDone shape.now job.now (length plan.now.forms) every r
        (R.view rack.old) (R.view rack.new)) }
    // How far it came where the rack failed.
    ensures failed { IsTrue R.tells_stands → IsTrue R.tells_contents → IsSound (R.view rack.old)
        → IsErrOf result RunError.Failed → RunFailed shape.now (R.view rack.old) (R.view rack.new) }
    // At each exit.
    ensures sound { IsTrue R.tells_stands → IsTrue R.tells_contents → IsSound (R.view rack.old)
        → IsSound (R.view rack.new) }
    ensures input { SameInput (dims_of shape.now) (R.view rack.old) (R.view rack.new) }
    ensures images { IsTrue R.tells_stands → IsTrue R.tells_contents → IsSound (R.view rack.old)
        → KeepsJobs shape.now job.now (length plan.now.forms) every
        (R.view rack.old) (R.view rack.new) }
    ensures unchanged { IsTrue R.tells_contents → HasOpenJob (R.view rack.old).contents
        → DirtiesOnly (IsWorkUnit shape.now) (R.view rack.old) (R.view rack.new) }
    // Where a job is open in every image it stays so.
    ensures settled { IsTrue R.tells_stands → IsTrue R.tells_contents → IsSound (R.view rack.old)
        → InEveryImage HasOpenJob (R.view rack.old)
        → KeepsOpenJob (R.view rack.old) (R.view rack.new) }
    ensures call { RackCall (IsRunUnit shape.now) (IsErrOf result RunError.Failed)
        (R.view rack.old) (R.view rack.new) }
    ensures calls { IsTrue R.tells_contents
        → RunCalls shape.now (R.view rack.old).contents (length plan.now.forms) every
        (R.view rack.old) (R.view rack.new) }
    ensures fits { FitsShape shape.now bufs.new }
    // Nothing but the rack ends it where it can be run.
    ensures good { IsTrue R.tells_stands → IsTrue R.tells_contents → IsSound (R.view rack.old)
        → (page : ℕ) → ¬ IsErrOf result (RunError.BadPage page) }
    ensures complete { IsTrue R.tells_stands → IsTrue R.tells_contents → IsSound (R.view rack.old)
        → IsRunnable shape.now job.now (R.view rack.old).contents
        → IsOkUnless result RunError.Failed }
{
    let start = Machine::begin(rack, shape, job, plan, every)?;
    let end = take_turns(&start, rack, bufs)?;
    Ok(report_of(&start, &end))
}

// Takes turns until all passes are done, and answers the machine at its end.
fn take_turns<R: Rack>(start: &Machine, rack: &mut R, bufs: &mut Bufs) -> Result<Machine, RunError>
    requires alive { IsTrue start.now.alive }
    requires attached { (R.view rack.old).attached ≡ Some (dims_of start.now.shape) }
    requires fits { FitsShape start.now.shape bufs.old }
    ensures end { IfOk result (λ end. IsEnd start.now end) }
    ensures refusal { IfErr result (λ e. IsTurnRefusal e) }
    ensures follows { IsTrue R.tells_stands → IsTrue R.tells_contents
        → Follows start.now (R.view rack.old) → IfOk result (λ end. Follows end (R.view rack.new)) }
    ensures sound { IsTrue R.tells_stands → IsTrue R.tells_contents
        → Follows start.now (R.view rack.old) → IsSound (R.view rack.new) }
    ensures good { IsTrue R.tells_contents → HasBodies start.now (R.view rack.old).contents
        → (page : ℕ) → ¬ IsErrOf result (RunError.BadPage page) }
    ensures reached { IsTrue R.tells_stands → IsTrue R.tells_contents
        → Follows start.now (R.view rack.old)
        → OnErr result (InEveryImage (λ v. (gone : ℕ) → IsGone v gone
        → IsReached start.now gone (R.view rack.old) (R.view rack.new)) (R.view rack.new)) }
    ensures call { RackCall (IsWorkUnit start.now.shape) (IsErrOf result RunError.Failed)
        (R.view rack.old) (R.view rack.new) }
    ensures input { SameInput (dims_of start.now.shape) (R.view rack.old) (R.view rack.new) }
    ensures counts { MakesCalls (IsOk result) (load_rows start.now.shape (loads_left start.now))
        (turn_pages start.now.shape start.now.passes start.now.every)
        (turn_syncs start.now.shape start.now.passes start.now.every)
        (R.view rack.old) (R.view rack.new) }
    ensures fits { FitsShape start.now.shape bufs.new }
{
    let mut machine = *start;
    while !machine.finished() {
        machine.turn(rack, bufs)?;
    }
    Ok(machine)
}

// What a run from the first machine to the last one did.
fn report_of(start: &Machine, end: &Machine) -> RunReport
    requires end { IsEnd start.now end.now }
    requires fresh { start.now.load ≡ start.now.part }
    ensures passes { result.passes ≡ start.now.passes }
    ensures done { result.done_before ≡ start.now.done }
    ensures part { result.part_before ≡ start.now.part }
    ensures fits { ReportFits start.now.shape start.now.job result }
    ensures moves { result.moves ≡ load_rows start.now.shape (loads_left start.now) }
{
    let moved = end.moved() - start.moved();
    RunReport {
        passes: end.passes,
        done_before: start.done,
        part_before: start.part,
        moves: 2 * end.shape.load_stripes() * moved,
    }
}
