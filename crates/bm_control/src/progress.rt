//! Progress within a pass.

ghost use Rattle.std.specs.Prelude.{◌≡◌, ◌+◌, ◌*◌, ◌<◌, IsTrue, IsOk, IsErr, OnOk};
ghost use Rattle.bm_base.specs.Contents.{page_at};
ghost use Rattle.bm_base.specs.Gate.{IsOpenGate, IsClosedGate};
ghost use Rattle.bm_rack.specs.RackView.{IsAttached, IsClean};
ghost use Rattle.bm_rack.specs.Frames.{RackCall, SameState, MakesPageCalls, CallCounts, Stays, RisesLeast};
ghost use Rattle.bm_rack.specs.Calls.{IsPage};
ghost use Rattle.bm_control.specs.Bodies.{part_page, PartBodyFits};
ghost use Rattle.bm_control.specs.Closing.{ClosesByZeros, IsShut};
ghost use Rattle.bm_control.specs.Moments.{PartIsMoved, IsCleanPage};
ghost use Rattle.bm_control.specs.PageCalls.{IsSlotPage};
ghost use Rattle.bm_control.specs.Pages as page;
ghost use Rattle.bm_control.specs.Sound.{IsSound};

use crate::durable::write_page_durably;
use crate::gates::{gate_page, is_gate};
use crate::pages::{slot_body, slot_gate};
use crate::part_body::encode_part;
use bm_base::{Failed, PAGE_BYTES, Shape};
use bm_rack::Rack;

/// Makes durable that the first `loads` loads of a pass are moved, in a slot, 0 or 1, that is not
/// the counted one. The pass is counted from 1, 254 at most; the loads are below N/M.
///
/// It closes the slot by 512 zeros where it is open, writes the body, and opens the slot, with a
/// sync after each. A gate that is closed already is not written, since its body may be anything.
/// At an exit where the gate is closed, and not dirty of a write that failed, it is those zeros, or
/// as it was. A rack that is sound stays sound at each exit.
pub fn mark_part<R: Rack>(
    rack: &mut R,
    shape: &Shape,
    slot: u8,
    pass: u16,
    loads: u64,
) -> Result<(), Failed>
    requires ready { IsAttached (R.view rack.old).attached }
    requires slot { slot < 2 }
    requires fits { PartBodyFits shape.now pass loads }
    ensures sound { IsTrue R.tells_stands → IsTrue R.tells_contents
        → IsSound (R.view rack.old) → IsCleanPage (page.slot_gate slot) (R.view rack.old)
        → PartIsMoved shape.now (R.view rack.old).contents pass loads
        → IsSound (R.view rack.new) }
    ensures clean { OnOk result (IsClean (R.view rack.new)) }
    ensures closed { IsTrue R.tells_contents
        → ClosesByZeros (page.slot_gate slot) (R.view rack.old) (R.view rack.new) }
    ensures opened { IsTrue R.tells_contents
        → OnOk result (IsOpenGate (page_at (R.view rack.new).contents (page.slot_gate slot))) }
    ensures body { IsTrue R.tells_contents
        → OnOk result
        (page_at (R.view rack.new).contents (page.slot_body slot) ≡ part_page pass loads) }
    ensures call { RackCall (IsSlotPage slot) (IsErr result) (R.view rack.old) (R.view rack.new) }
    ensures least { OnOk result (CallCounts Stays (RisesLeast 3) (RisesLeast 2)
        (R.view rack.old) (R.view rack.new)) }
    ensures most { MakesPageCalls ⊥ 4 3 (R.view rack.old) (R.view rack.new) }
    ensures from_closed { IsTrue R.tells_contents
        → IsClosedGate (page_at (R.view rack.old).contents (page.slot_gate slot))
        → MakesPageCalls (IsOk result) 3 2 (R.view rack.old) (R.view rack.new) }
    ensures from_open { IsTrue R.tells_contents
        → IsOpenGate (page_at (R.view rack.old).contents (page.slot_gate slot))
        → MakesPageCalls (IsOk result) 4 3 (R.view rack.old) (R.view rack.new) }
{
    close_slot(rack, slot)?;
    let body = encode_part(shape, pass, loads);
    write_page_durably(rack, slot_body(slot), &body)?;
    write_page_durably(rack, slot_gate(slot), &gate_page())
}

// Closes the slot's gate by zeros where it is open, and leaves it where it is not.
fn close_slot<R: Rack>(rack: &mut R, slot: u8) -> Result<(), Failed>
    requires ready { IsAttached (R.view rack.old).attached }
    requires slot { slot < 2 }
    ensures sound { IsTrue R.tells_stands → IsTrue R.tells_contents
        → IsSound (R.view rack.old) → IsSound (R.view rack.new) }
    ensures closed { IsTrue R.tells_contents
        → OnOk result (IsClosedGate (page_at (R.view rack.new).contents (page.slot_gate slot))) }
    ensures zeros { IsTrue R.tells_contents
        → ClosesByZeros (page.slot_gate slot) (R.view rack.old) (R.view rack.new) }
    ensures shut { IsTrue R.tells_contents
        → OnOk result (IsShut (page_at (R.view rack.old).contents (page.slot_gate slot))
        (page_at (R.view rack.new).contents (page.slot_gate slot))) }
    ensures kept { IsTrue R.tells_contents
        → IsClosedGate (page_at (R.view rack.old).contents (page.slot_gate slot))
        → SameState (R.view rack.old) (R.view rack.new) }
    ensures least { OnOk result (CallCounts Stays (RisesLeast 1) (RisesLeast 0)
        (R.view rack.old) (R.view rack.new)) }
    ensures settled { IsTrue R.tells_contents → IsCleanPage (page.slot_gate slot) (R.view rack.old)
        → OnOk result (IsCleanPage (page.slot_gate slot) (R.view rack.new)) }
    ensures call { RackCall (IsPage (page.slot_gate slot)) (IsErr result)
        (R.view rack.old) (R.view rack.new) }
    ensures most { MakesPageCalls ⊥ 2 1 (R.view rack.old) (R.view rack.new) }
    ensures from_closed { IsTrue R.tells_contents
        → IsClosedGate (page_at (R.view rack.old).contents (page.slot_gate slot))
        → MakesPageCalls (IsOk result) 1 0 (R.view rack.old) (R.view rack.new) }
    ensures from_open { IsTrue R.tells_contents
        → IsOpenGate (page_at (R.view rack.old).contents (page.slot_gate slot))
        → MakesPageCalls (IsOk result) 2 1 (R.view rack.old) (R.view rack.new) }
{
    let mut gate = [0; PAGE_BYTES];
    rack.read_page(slot_gate(slot), &mut gate)?;
    if !is_gate(&gate) {
        return Ok(());
    }
    write_page_durably(rack, slot_gate(slot), &[0; PAGE_BYTES])
}
