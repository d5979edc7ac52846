//! The text of a plan.

ghost use Rattle.std.specs.Prelude.{◌≡◌, ◌+◌, ◌-◌, ◌*◌, ◌≤◌, ◌++◌, IsTrue, IsOk, IsErr};
ghost use Rattle.arrayvec.specs.ArrayString.{array_string_len};
ghost use Rattle.bm_base.specs.Count.{Rose};
ghost use Rattle.bm_rack.specs.Sink.{AppendsFront};
ghost use Rattle.bm_forms.specs.Job.{HasBits};
ghost use Rattle.bm_forms.specs.Rounds.{rounds_of};
ghost use Rattle.bm_text.specs.PlanText.{shape_line, step_line, round_lines, step_lines};
ghost use Rattle.bm_text.specs.PlanText.{moves_of, total_lines, plan_text};

use crate::number::push_number;
use crate::status_text::kind_line;
use crate::step_cost::{StepCost, cost_of, rotation_cost};
use arrayvec::ArrayString;
use bm_base::{Failed, Shape};
use bm_forms::{Job, last_bits, pass_count, pass_limit, round_count};
use bm_rack::{Sink, write_all_of};

// Room for the lines of 52 steps, and for all lines of a plan.
const STEPS_ROOM: usize = 3584;

const PLAN_ROOM: usize = 4096;

/// Writes the steps of a job's plan with their ranks and passes, and the parallel transfers that it
/// takes. It takes no memory.
///
/// A step is a permutation, or a round of the transform, with butterflies on its bits before the
/// rotation by them. The passes are those that the job's plan has, as the planners' clauses say.
/// The bound on the transfers is that of the pass limit (after the upper bound of Cormen, Sundquist
/// and Wisniewski).
///
/// Where it fails, a front of the text was written.
pub fn write_plan<K: Sink>(sink: &mut K, shape: &Shape, job: &Job) -> Result<(), Failed>
    requires { HasBits shape.now.n job.now }
    ensures all { IsTrue K.tells → IsOk result
        → K.taken sink.new ≡ K.taken sink.old ++ plan_text shape.now job.now }
    ensures front { IsTrue K.tells
        → AppendsFront (K.taken sink.old) (K.taken sink.new) (plan_text shape.now job.now) }
    ensures faults { K.faults sink.old ≤ K.faults sink.new }
    ensures cause { IsErr result → Rose (K.faults sink.old) (K.faults sink.new) }
{
    let text = plan_lines(shape, job);
    write_all_of(sink, text.as_str().as_bytes())
}

// The lines of a plan.
fn plan_lines(shape: &Shape, job: &Job) -> ArrayString<PLAN_ROOM>
    requires { HasBits shape.now.n job.now }
    ensures { result.bytes ≡ plan_text shape.now job.now }
{
    let mut text = shape_line(shape);
    text.push_str(kind_line(job));
    text.push_str(step_lines(shape, job).as_str());
    text.push_str(total_lines(shape, job).as_str());
    text
}

// The line of the shape.
fn shape_line(shape: &Shape) -> ArrayString<PLAN_ROOM>
    ensures line { result.bytes ≡ shape_line shape.now }
    ensures short { array_string_len result ≤ 64 }
{
    let mut text = ArrayString::new();
    push_number(&mut text, "shape n=", shape.n());
    push_number(&mut text, " b=", shape.b());
    push_number(&mut text, " d=", shape.d());
    push_number(&mut text, " m=", shape.m());
    push_number(&mut text, " width=", shape.width());
    text.push('\n');
    text
}

// The line of a step.
fn step_line(number: u8, bits: u8, cost: &StepCost) -> ArrayString<128>
    ensures line { result.bytes ≡ step_line number bits cost.now }
    ensures short { array_string_len result ≤ 67 }
{
    let mut text = ArrayString::new();
    push_number(&mut text, "step ", number);
    push_number(&mut text, " butterflies ", bits);
    push_number(&mut text, " lower ", cost.lower);
    push_number(&mut text, " high ", cost.high);
    push_number(&mut text, " passes ", cost.passes);
    push_number(&mut text, " at-most ", cost.at_most);
    text.push('\n');
    text
}

// The lines of the steps.
fn step_lines(shape: &Shape, job: &Job) -> ArrayString<STEPS_ROOM>
    requires { HasBits shape.now.n job.now }
    ensures { result.bytes ≡ step_lines shape.now job.now }
{
    match job {
        Job::Permute(map) => {
            let mut text = ArrayString::new();
            text.push_str(step_line(1, 0, &cost_of(shape, &map.a)).as_str());
            text
        }
        Job::Walsh => {
            let mut text = round_lines(shape);
            let last = last_bits(shape);
            text.push_str(step_line(
                round_count(shape),
                last,
                &rotation_cost(shape, last),
            ).as_str());
            text
        }
    }
}

// The lines of its rounds but the last.
fn round_lines(shape: &Shape) -> ArrayString<STEPS_ROOM>
    ensures lines { result.bytes ≡ round_lines shape.now (rounds_of shape.now - 1) }
    ensures short { array_string_len result ≤ 67 * 51 }
{
    let cost = rotation_cost(shape, shape.m());
    let mut text = ArrayString::new();
    for done in 0..round_count(shape) - 1 {
        text.push_str(step_line(done + 1, shape.m(), &cost).as_str());
    }
    text
}

// The parallel transfers of this many passes.
fn moves_of(shape: &Shape, passes: u16) -> u64
    requires { passes ≤ 256 }
    ensures { result ≡ moves_of shape.now passes }
{
    u64::from(passes) * shape.pass_moves()
}

// What all steps take together, and the bound.
fn total_lines(shape: &Shape, job: &Job) -> ArrayString<128>
    requires { HasBits shape.now.n job.now }
    ensures { result.bytes ≡ total_lines shape.now job.now }
{
    let passes = pass_count(shape, job);
    let mut text = ArrayString::new();
    push_number(&mut text, "passes ", passes);
    push_number(&mut text, "\nmoves ", moves_of(shape, passes));
    let bound = moves_of(shape, pass_limit(shape, job));
    push_number(&mut text, "\nbound ", bound);
    text.push('\n');
    text
}
