//! Runs of sessions.

ghost use Rattle.std.specs.Prelude.{Err, ◌≡◌, ◌≢◌, ℕ, ◌+◌, ◌*◌, ◌^◌, ◌<◌, ◌≤◌, false, IsTrue, IsOk};
ghost use Rattle.std.specs.Prelude.{IfOk, IfErr, Some, length};
ghost use Rattle.bm_base.specs.Shape.{dims_of};
ghost use Rattle.bm_bufs.specs.Bufs.{FitsShape};
ghost use Rattle.bm_forms.specs.Plan.{StandsFor};
ghost use Rattle.bm_forms.specs.PassLimit.{limit_of};
ghost use Rattle.bm_rack.specs.Image.{SameInput, InEveryImage};
ghost use Rattle.bm_control.specs.Bodies.{JobBodyFits};
ghost use Rattle.bm_control.specs.Pages.{HasOpenLoad};
ghost use Rattle.bm_control.specs.Sound.{IsSound};
ghost use Rattle.bm_job.specs.Begins.{BeginAnswer};
ghost use Rattle.bm_job.specs.Runs.{IsRunnable, KeepsJobs, run_most};
ghost use Rattle.bm_drill.specs.Sessions.{SessionsKeep, KeepsRest, RestartsFew, IsRefusedOnSome};
ghost use Rattle.bm_drill.specs.Sessions.{SessionsDone};
ghost use Rattle.bm_drill.specs.Session.{SessionKeeps, SessionAnswer, AreSessions};

use bm_base::{RunReport, SessionsReport, Shape, Stop};
use bm_bufs::Bufs;
use bm_forms::{Job, Plan};
use bm_job::{RunError, run_job};
use bm_rack::StopRack;

/// Why sessions ended before the job was done. The rack never failed: a stop that is reached is
/// followed by a restart.
#[derive(Clone, Copy, Debug, PartialEq, Eq)]
pub struct SessionsEnd {
    /// How often the rack was restarted.
    pub restarts: u32,
    /// The refusal of the last session, which is not `Failed`.
    pub error: RunError,
}

/// Runs a job in sessions: one after another with a stop ahead, each that a stop ended followed by
/// a restart, until the job is done. After the last stop one more runs to its end.
///
/// The rack is attached with the shape's dims, and it is steady: no call of it fails, but for a
/// stop. There are fewer than 2^32 stops. The rest is as in `run_job`: the buffers fit the shape,
/// the plan stands for the job with 1 to Q passes, and `every` is 1 to N/M. It takes no memory.
///
/// From a sound rack that is loaded with X, sessions that answer well leave the job's meaning of X
/// in the area of the last pass, the input as it was, and nothing dirty. `moves` is what the rack's
/// count rose by. It is at most `2M/BD * (P * N/M - gone + q * restarts)`, where P is the job's
/// number of passes, q the stored number of loads after which progress is made durable, and `gone`
/// the loads that every image at entry shows to be moved. Where no job was open, P is the plan's
/// length and q is `every`. With no restart it is `2M/BD` for each load that was left.
///
/// At each exit a rack that was sound is sound, no stop is ahead, and the input of a loaded rack is
/// as it was. The refusals are those of `run_job` but for `Failed`, and each shows in the contents
/// that it leaves. On a sound rack `begin` gives it on some image of the rack at entry, and it is
/// no `BadPage`.
pub fn run_sessions<R: StopRack>(
    rack: &mut R,
    shape: &Shape,
    job: &Job,
    plan: &Plan,
    bufs: &mut Bufs,
    stops: &[Stop],
    every: u64,
) -> Result<SessionsReport, SessionsEnd>
    requires attached { (R.view rack.old).attached ≡ Some (dims_of shape.now) }
    requires stands { StandsFor plan.now shape.now job.now }
    requires body { JobBodyFits shape.now job.now (length plan.now.forms) every }
    requires fits { FitsShape shape.now bufs.old }
    requires steady { IsTrue (R.view rack.old).steady }
    requires few { length stops.now < 2 ^ 32 }

    // Where the job was done.
    ensures done { IsTrue R.tells_stands → IsTrue R.tells_contents → IsSound (R.view rack.old)
        → IfOk result (λ r. SessionsDone shape.now job.now (length plan.now.forms) every r
        (R.view rack.old) (R.view rack.new)) }
    // On every rack, told or not.
    ensures passes { IfOk result (λ r. (1 ≤ r.passes) × (r.passes ≤ limit_of shape.now job.now)) }
    ensures moves { IfOk result (λ r. (R.view rack.new).moves ≡ (R.view rack.old).moves + r.moves) }
    ensures most { IfOk result (λ r.
        r.moves ≤ run_most shape.now job.now * (r.restarts + 1)) }
    ensures restarts { IfOk result (λ r.
        RestartsFew (length stops.now) r.restarts (R.view rack.old) (R.view rack.new)) }
    // Where it was refused.
    ensures never_failed { IfErr result (λ e. e.error ≢ RunError.Failed) }
    ensures restarts_before { IfErr result (λ e.
        RestartsFew (length stops.now) e.restarts (R.view rack.old) (R.view rack.new)) }
    ensures shown { IsTrue R.tells_contents → IfErr result (λ e. BeginAnswer shape.now job.now
        (length plan.now.forms) every (R.view rack.new).contents (Err e.error)) }
    ensures refused { IsTrue R.tells_stands → IsTrue R.tells_contents → IsSound (R.view rack.old)
        → IfErr result (λ e. IsRefusedOnSome shape.now job.now (length plan.now.forms) every
        (R.view rack.old) e.error) }
    ensures good { IsTrue R.tells_stands → IsTrue R.tells_contents → IsSound (R.view rack.old)
        → (page : ℕ) → IfErr result (λ e. e.error ≢ RunError.BadPage page) }
    // At each exit.
    ensures sound { IsTrue R.tells_stands → IsTrue R.tells_contents → IsSound (R.view rack.old)
        → IsSound (R.view rack.new) }
    ensures input { IsTrue R.tells_stands → IsTrue R.tells_contents → IsSound (R.view rack.old)
        → HasOpenLoad (R.view rack.old).contents
        → SameInput (dims_of shape.now) (R.view rack.old) (R.view rack.new) }
    ensures images { IsTrue R.tells_stands → IsTrue R.tells_contents → IsSound (R.view rack.old)
        → KeepsJobs shape.now job.now (length plan.now.forms) every
        (R.view rack.old) (R.view rack.new) }
    ensures rest { IsTrue R.tells_contents
        → KeepsRest shape.now (R.view rack.old) (R.view rack.new) }
    ensures kept { SessionsKeep (R.view rack.old) (R.view rack.new) }
    ensures stopping { (R.view rack.new).stopping ≡ false }
    ensures fits { FitsShape shape.now bufs.new }
    // Nothing ends it where each image can be run.
    ensures complete { IsTrue R.tells_stands → IsTrue R.tells_contents → IsSound (R.view rack.old)
        → InEveryImage (λ v. IsRunnable shape.now job.now v) (R.view rack.old) → IsOk result }
{
    let before = rack.rows();
    let (restarts, answer) = take_sessions(rack, shape, job, plan, bufs, stops, every);
    match answer {
        Ok(report) => Ok(SessionsReport {
            passes: report.passes,
            restarts,
            moves: rack.rows() - before,
        }),
        Err(error) => Err(SessionsEnd { restarts, error }),
    }
}

// Runs sessions to the first that no stop ends: how many were ended so, and what the last one
// answers.
fn take_sessions<R: StopRack>(
    rack: &mut R,
    shape: &Shape,
    job: &Job,
    plan: &Plan,
    bufs: &mut Bufs,
    stops: &[Stop],
    every: u64,
) -> (u32, Result<RunReport, RunError>)
    requires attached { (R.view rack.old).attached ≡ Some (dims_of shape.now) }
    requires stands { StandsFor plan.now shape.now job.now }
    requires body { JobBodyFits shape.now job.now (length plan.now.forms) every }
    requires fits { FitsShape shape.now bufs.old }
    requires steady { IsTrue (R.view rack.old).steady }
    requires few { length stops.now < 2 ^ 32 }
    ensures few { result.0 ≤ length stops.now }
    ensures sessions { AreSessions R.tells_stands R.tells_contents shape.now job.now
        (length plan.now.forms) every result.0 result.1 (R.view rack.old) (R.view rack.new) }
    ensures fits { FitsShape shape.now bufs.new }
{
    let mut restarts = 0;
    for stop in stops {
        match stopped_run(rack, shape, job, plan, bufs, *stop, every) {
            Err(RunError::Failed) => restarts += 1,
            answer => return (restarts, answer),
        }
    }
    let answer = last_run(rack, shape, job, plan, bufs, every);
    (restarts, answer)
}

// A run with a stop ahead. Where it fails the stop was reached, and the rack is restarted; else the
// stop is taken away.
fn stopped_run<R: StopRack>(
    rack: &mut R,
    shape: &Shape,
    job: &Job,
    plan: &Plan,
    bufs: &mut Bufs,
    stop: Stop,
    every: u64,
) -> Result<RunReport, RunError>
    requires attached { (R.view rack.old).attached ≡ Some (dims_of shape.now) }
    requires stands { StandsFor plan.now shape.now job.now }
    requires body { JobBodyFits shape.now job.now (length plan.now.forms) every }
    requires fits { FitsShape shape.now bufs.old }
    ensures keeps { SessionKeeps R.tells_stands R.tells_contents shape.now job.now
        (length plan.now.forms) every (R.view rack.old) (R.view rack.new) }
    ensures answer { SessionAnswer R.tells_stands R.tells_contents shape.now job.now
        (length plan.now.forms) every (R.view rack.old) (R.view rack.new) result }
    ensures stopping { (R.view rack.new).stopping ≡ false }
    ensures fits { FitsShape shape.now bufs.new }
{
    rack.stop_after(stop.after);
    let answer = run_job(rack, shape, job, plan, bufs, every);
    match answer {
        Err(RunError::Failed) => rack.restart(stop.pick),
        _ => rack.stop_never(),
    }
    answer
}

// The last run, with no stop ahead. A steady rack does not fail it.
fn last_run<R: StopRack>(
    rack: &mut R,
    shape: &Shape,
    job: &Job,
    plan: &Plan,
    bufs: &mut Bufs,
    every: u64,
) -> Result<RunReport, RunError>
    requires attached { (R.view rack.old).attached ≡ Some (dims_of shape.now) }
    requires stands { StandsFor plan.now shape.now job.now }
    requires body { JobBodyFits shape.now job.now (length plan.now.forms) every }
    requires fits { FitsShape shape.now bufs.old }
    requires steady { IsTrue (R.view rack.old).steady }
    ensures keeps { SessionKeeps R.tells_stands R.tells_contents shape.now job.now
        (length plan.now.forms) every (R.view rack.old) (R.view rack.new) }
    ensures answer { SessionAnswer R.tells_stands R.tells_contents shape.now job.now
        (length plan.now.forms) every (R.view rack.old) (R.view rack.new) result }
    ensures ended { result ≢ Err RunError.Failed }
    ensures stopping { (R.view rack.new).stopping ≡ false }
    ensures fits { FitsShape shape.now bufs.new }
{
    rack.stop_never();
    run_job(rack, shape, job, plan, bufs, every)
}
