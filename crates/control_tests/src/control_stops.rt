//! What the control file says after a stop within each call that writes it.

ghost use Rattle.std.specs.Prelude.{◌≡◌};
ghost use Rattle.bm_rack.specs.RackView.{IsAttached};

use crate::stop_cases::{Case, is_on_one_disk, states_of, step_of, steps_of};
use bm_base::Shape;
use bm_control::{ControlError, SlateState, read_state};
use bm_factor::factor;
use bm_forms::Plan;
use bm_gf2::Affine;
use bm_memrack::MemRack;
use bm_named::bit_reversal;
use bm_rack::StopRack;
use run_helpers::{PICKS, has_made, have_made};
use std::alloc::Global;
use std::test::Fail;
use test_helpers::has_disks;

// The state before the call.
const B: u8 = 0;

// The state between, where the call closes an open slot first.
const M: u8 = 1;

// The state after the call.
const A: u8 = 2;

// Makes the calls before, then the call with a stop after so many of its device calls, and starts
// again: whether the call succeeded, and what is said then.
fn after_stop<R: StopRack>(
    rack: &mut R,
    shape: &Shape,
    map: &Affine,
    plan: &Plan,
    case: Case,
    calls: u64,
    pick: u64,
) -> Option<(bool, Result<SlateState, ControlError>)>
    requires ready { IsAttached (R.view rack.old).attached }
    requires plan { plan.now.shape ≡ shape.now }
{
    if !have_made(rack, shape, map, plan, steps_of(case)) {
        return None;
    }
    rack.stop_after(calls);
    let made = has_made(rack, shape, map, plan, step_of(case));
    rack.restart(pick);
    Some((made, read_state(rack)))
}

// The same on new disks, and what is to be said in the state of this letter.
fn stopped(
    alloc: Global,
    case: Case,
    calls: u64,
    pick: u64,
    letter: u8,
) -> Option<
    (
        (bool, Result<SlateState, ControlError>),
        Result<SlateState, ControlError>,
    ),
> {
    let (d, m, passes) = if is_on_one_disk(case) {
        (0, 2, 3)
    } else {
        (1, 3, 2)
    };
    let shape = Shape::new(4, 1, d, m, 1).ok()?;
    let map = bit_reversal(4);
    if map.a.n != shape.n() {
        return None;
    }
    let plan = factor(alloc, &shape, &map).ok()?;
    let mut rack = MemRack::new(alloc, Vec::new(alloc));
    if !has_disks(&mut rack, &shape) {
        return None;
    }
    let found = after_stop(&mut rack, &shape, &map, &plan, case, calls, pick)?;
    let (before, between, after) = states_of(case);
    let said = if letter == B {
        before
    } else if letter == M {
        between
    } else {
        after
    };
    Some((found, said.of(&shape, &map, passes)))
}

// For each call and each of its device calls k: the state that a stop after k of them leaves, by the
// four picks. The call succeeds where none of its device calls is stopped.
//
// A page whose write or sync is stopped is torn or not durable: a gate is then open where what stands
// or its first half is left, and closed where zeros or ones are.
const ROWS: [(Case, u64, bool, [u8; 4]); 55] = [
    // write 0, sync, write 1, sync
    (Case::OpenLoad, 0, false, [B, B, B, B]),
    (Case::OpenLoad, 1, false, [B, B, B, B]),
    (Case::OpenLoad, 2, false, [A, B, B, A]),
    (Case::OpenLoad, 3, false, [A, B, B, A]),
    (Case::OpenLoad, 4, true, [A, A, A, A]),
    // write 2, 4, 5, 6 and 7, sync, write 3, sync
    (Case::StartWhole, 0, false, [B, B, B, B]),
    (Case::StartWhole, 1, false, [B, B, B, B]),
    (Case::StartWhole, 2, false, [B, B, B, B]),
    (Case::StartWhole, 3, false, [B, B, B, B]),
    (Case::StartWhole, 4, false, [B, B, B, B]),
    (Case::StartWhole, 5, false, [B, B, B, B]),
    (Case::StartWhole, 6, false, [A, B, B, A]),
    (Case::StartWhole, 7, false, [A, B, B, A]),
    (Case::StartWhole, 8, true, [A, A, A, A]),
    // write 2, 4, 5, 6, 7, 513 and 515, sync, write 3, sync
    (Case::StartParts, 0, false, [B, B, B, B]),
    (Case::StartParts, 1, false, [B, B, B, B]),
    (Case::StartParts, 2, false, [B, B, B, B]),
    (Case::StartParts, 3, false, [B, B, B, B]),
    (Case::StartParts, 4, false, [B, B, B, B]),
    (Case::StartParts, 5, false, [B, B, B, B]),
    (Case::StartParts, 6, false, [B, B, B, B]),
    (Case::StartParts, 7, false, [B, B, B, B]),
    (Case::StartParts, 8, false, [A, B, B, A]),
    (Case::StartParts, 9, false, [A, B, B, A]),
    (Case::StartParts, 10, true, [A, A, A, A]),
    // sync, write 5, sync
    (Case::OpenGate, 0, false, [B, B, B, B]),
    (Case::OpenGate, 1, false, [A, B, B, A]),
    (Case::OpenGate, 2, false, [A, B, B, A]),
    (Case::OpenGate, 3, true, [A, A, A, A]),
    // sync, write 7, sync
    (Case::OpenLast, 0, false, [B, B, B, B]),
    (Case::OpenLast, 1, false, [A, B, B, A]),
    (Case::OpenLast, 2, false, [A, B, B, A]),
    (Case::OpenLast, 3, true, [A, A, A, A]),
    // read 513, write 512, sync, write 513, sync
    (Case::MarkClosed, 0, false, [B, B, B, B]),
    (Case::MarkClosed, 1, false, [B, B, B, B]),
    (Case::MarkClosed, 2, false, [B, B, B, B]),
    (Case::MarkClosed, 3, false, [A, B, B, A]),
    (Case::MarkClosed, 4, false, [A, B, B, A]),
    (Case::MarkClosed, 5, true, [A, A, A, A]),
    // read 513, write 513, sync, write 512, sync, write 513, sync
    (Case::MarkCounted, 0, false, [B, B, B, B]),
    (Case::MarkCounted, 1, false, [M, M, M, M]),
    (Case::MarkCounted, 2, false, [M, M, M, M]),
    (Case::MarkCounted, 3, false, [M, M, M, M]),
    (Case::MarkCounted, 4, false, [M, M, M, M]),
    (Case::MarkCounted, 5, false, [A, M, M, A]),
    (Case::MarkCounted, 6, false, [A, M, M, A]),
    (Case::MarkCounted, 7, true, [A, A, A, A]),
    // the same calls
    (Case::MarkOther, 0, false, [B, B, B, B]),
    (Case::MarkOther, 1, false, [B, B, B, B]),
    (Case::MarkOther, 2, false, [B, B, B, B]),
    (Case::MarkOther, 3, false, [B, B, B, B]),
    (Case::MarkOther, 4, false, [B, B, B, B]),
    (Case::MarkOther, 5, false, [A, B, B, A]),
    (Case::MarkOther, 6, false, [A, B, B, A]),
    (Case::MarkOther, 7, true, [A, A, A, A]),
];

// Each row of that table.
#[test]
fn stops_within_each_call(rt: HostRuntime) -> Result<(), Fail> {
    for (case, calls, made, letters) in ROWS {
        for (pick, letter) in PICKS.into_iter().zip(letters) {
            let (found, want) = stopped(rt.alloc(), case, calls, pick, letter).ok_or("disks")?;
            assert_eq!(rt; found, (made, want), "{case:?} {calls} {pick:x}");
        }
    }
    Ok(())
}
