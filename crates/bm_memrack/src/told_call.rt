//! Device calls that fail as they were told.

ghost use Rattle.std.specs.Prelude.{◌≡◌, ◌≤◌, ◌||◌, ◌/◌, IsTrue, IsFalse, is_some, is_err, if◌then◌else◌};
ghost use Rattle.bm_base.specs.Count.{raised, Rose};
ghost use Rattle.bm_memrack.specs.FaultList.{is_empty, is_listed};
ghost use Rattle.bm_memrack.specs.StopAhead.{is_stopped, next_stop};

use crate::fault_list::FaultList;
use bm_base::Failed;

/// Counts a device call, and says whether it fails.
pub fn fails(list: &mut FaultList, stop: &mut Option<u64>) -> bool
    ensures answer { result
        ≡ (is_stopped stop.old || is_listed list.old.numbers.items list.new.calls) }
    ensures faults { list.new.faults ≡ raised list.old.faults (if result then 1 else 0) }
    ensures calls { list.new.calls ≡ raised list.old.calls 1 }
    ensures numbers { list.new.numbers ≡ list.old.numbers }
    ensures stop { stop.new ≡ next_stop stop.old }
    ensures stopping { is_some stop.new ≡ is_some stop.old }
    ensures rose { IsTrue result → Rose list.old.faults list.new.faults }
    ensures counted { list.old.faults ≤ list.new.faults }
    ensures quiet { IsFalse result → list.new.faults ≡ list.old.faults }
    ensures sure { IsTrue (is_empty list.old.numbers.items) → IsFalse (is_some stop.old)
        → IsFalse result }
{
    let stopped = match stop {
        Some(left) => {
            let reached = *left == 0;
            *left = left.saturating_sub(1);
            reached
        }
        None => false,
    };
    list.fails(stopped)
}

/// How many bytes of a unit a write sets: all of them, or the first half where it fails.
pub fn taken_len(whole: usize, fails: bool) -> usize
    ensures { result ≡ (if fails then whole / 2 else whole) }
{
    if fails { whole / 2 } else { whole }
}

/// What a write answers.
pub fn outcome(fails: bool) -> Result<(), Failed>
    ensures { is_err result ≡ fails }
{
    if fails { Err(Failed) } else { Ok(()) }
}
