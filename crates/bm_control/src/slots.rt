//! Reading the slots, which count loads of the pass under way.

ghost use Rattle.std.specs.Prelude.{◌≡◌, ◌<◌, ◌≤◌, ◌+◌, ℕ, IsTrue, IsOk, IfOk, IfSome, IsErrOf};
ghost use Rattle.bm_base.specs.Contents.{Contents};
ghost use Rattle.bm_rack.specs.RackView.{IsAttached};
ghost use Rattle.bm_rack.specs.Frames.{SameState, Keeps, HasCause, MakesPageCalls};
ghost use Rattle.bm_base.specs.Shape.{loads_of};
ghost use Rattle.bm_control.specs.PageCalls.{ReadsPages};
ghost use Rattle.bm_control.specs.State.{SlotAnswer, SlotsAnswer, CountedOf, CountFits, PartFits};
ghost use Rattle.bm_control.specs.StateCalls.{SlotReads};

use crate::gates::is_gate;
use crate::pages::{slot_body, slot_gate};
use crate::part_body::decode_part;
use crate::state::{ControlError, page_of};
use bm_base::{NO_SLOT, Shape};
use bm_rack::Rack;

// Reads a slot, 0 or 1, of a job with so many passes of which so many are done. The answer is the
// number of loads that it counts of the pass under way, if it does.
fn read_slot<R: Rack>(
    rack: &mut R,
    shape: &Shape,
    slot: u8,
    passes: u16,
    done: u16,
) -> Result<Option<u64>, ControlError>
    requires ready { IsAttached (R.view rack.old).attached }
    requires slot { slot < 2 }
    requires done { done ≤ 254 }
    ensures answer { IsTrue R.tells_contents → (v : Contents) → (R.view rack.old).contents ≡ v
        → SlotAnswer shape.now v passes done slot result }
    ensures fits { IfOk result (λ found.
        IfSome found (λ loads. CountFits shape.now passes done loads)) }
    ensures state { SameState (R.view rack.old) (R.view rack.new) }
    ensures counts { ReadsPages 0 2 (R.view rack.old) (R.view rack.new) }
    ensures gate { IsTrue R.tells_contents → (v : Contents) → (R.view rack.old).contents ≡ v
        → (n : ℕ) → SlotReads v slot n → MakesPageCalls (IsOk result) n 0
        (R.view rack.old) (R.view rack.new) }
    ensures keeps { Keeps (R.view rack.old) (R.view rack.new) }
    ensures cause { HasCause (IsErrOf result ControlError.Failed)
        (R.view rack.old) (R.view rack.new) }
{
    let gate = page_of(rack, slot_gate(slot))?;
    if !is_gate(&gate) {
        return Ok(None);
    }
    let body = page_of(rack, slot_body(slot))?;
    let Some((pass, loads)) = decode_part(shape, &body) else {
        return Err(ControlError::BadPage {
            page: slot_body(slot),
        });
    };
    if pass > passes {
        return Err(ControlError::BadPage {
            page: slot_body(slot),
        });
    }
    if pass > done + 1 {
        return Err(ControlError::BadPage {
            page: slot_body(slot),
        });
    }
    if pass <= done {
        return Ok(None);
    }
    Ok(Some(loads))
}

// Which of two slots is counted, and its number of loads.
fn counted(first: Option<u64>, second: Option<u64>) -> (u64, u8)
    ensures { CountedOf first second result.0 result.1 }
{
    match (first, second) {
        (None, None) => (0, NO_SLOT),
        (Some(loads), None) => (loads, 0),
        (None, Some(loads)) => (loads, 1),
        (Some(one), Some(other)) => { if one < other { (other, 1) } else { (one, 0) } }
    }
}

/// Reads the slots of a job that has them. The answer is the number of loads that are counted of
/// the pass under way, and the slot that counts them, `NO_SLOT` where none does.
pub fn read_slots<R: Rack>(
    rack: &mut R,
    shape: &Shape,
    passes: u16,
    done: u16,
    every: u64,
) -> Result<(u64, u8), ControlError>
    requires ready { IsAttached (R.view rack.old).attached }
    requires done { done ≤ 254 }
    requires every { every ≤ loads_of shape.now }
    ensures answer { IsTrue R.tells_contents → (v : Contents) → (R.view rack.old).contents ≡ v
        → SlotsAnswer shape.now v passes done every result }
    ensures fits { IfOk result (λ r. PartFits shape.now passes done every r.0 r.1) }
    ensures state { SameState (R.view rack.old) (R.view rack.new) }
    ensures counts { ReadsPages 0 4 (R.view rack.old) (R.view rack.new) }
    ensures none { every ≡ loads_of shape.now → ReadsPages 0 0 (R.view rack.old) (R.view rack.new) }
    ensures gates { IsTrue R.tells_contents → (v : Contents) → (R.view rack.old).contents ≡ v
        → every < loads_of shape.now → (one two : ℕ) → SlotReads v 0 one → SlotReads v 1 two
        → MakesPageCalls (IsOk result) (one + two) 0 (R.view rack.old) (R.view rack.new) }
    ensures keeps { Keeps (R.view rack.old) (R.view rack.new) }
    ensures cause { HasCause (IsErrOf result ControlError.Failed)
        (R.view rack.old) (R.view rack.new) }
{
    if every == shape.loads() {
        return Ok((0, NO_SLOT));
    }
    let first = read_slot(rack, shape, 0, passes, done)?;
    let second = read_slot(rack, shape, 1, passes, done)?;
    Ok(counted(first, second))
}
