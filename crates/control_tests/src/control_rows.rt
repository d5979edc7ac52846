//! What is said of a control file whose pages were changed.

ghost use Rattle.std.specs.Prelude.{◌≡◌};
ghost use Rattle.bm_rack.specs.RackView.{IsAttached};

use crate::bodies::{Body, ONE_PASS, REVERSAL, bytes_of, job, part};
use bm_base::Shape;
use bm_control::{ControlError, SlateState, read_state};
use bm_factor::factor;
use bm_memrack::MemRack;
use bm_named::bit_reversal;
use bm_rack::Rack;
use run_helpers::{Said, Step, have_made};
use std::alloc::Global;
use std::test::Fail;
use test_helpers::has_disks;

// An open job with checkpoints, with so many passes done, and the counted slot.
fn at(done: u16, part: u64, slot: u8) -> Said {
    Said::Working {
        done,
        every: 1,
        part,
        slot,
    }
}

// An open job without checkpoints, with so many passes done.
fn done(done: u16) -> Said {
    Said::Working {
        done,
        every: 2,
        part: 0,
        slot: 2,
    }
}

// Writes the pages, where none is beyond the last and no call fails, and reads what is said.
fn changed<R: Rack>(
    rack: &mut R,
    changes: [(u16, Body); 4],
) -> Option<Result<SlateState, ControlError>>
    requires { IsAttached (R.view rack.old).attached }
{
    for (page, body) in changes {
        if page > 515 || rack.write_page(page, &bytes_of(body)).is_err() {
            return None;
        }
    }
    Some(read_state(rack))
}

// Makes the calls and the changes on a rack of the shape, whose job is the bit reversal. The answer
// is what is said, and what `want` is whole.
fn said_after(
    alloc: Global,
    shape: &Shape,
    steps: [Step; 6],
    changes: [(u16, Body); 4],
    want: Said,
) -> Option<
    (
        Result<SlateState, ControlError>,
        Result<SlateState, ControlError>,
    ),
> {
    let map = bit_reversal(4);
    if map.a.n != shape.n() {
        return None;
    }
    let plan = factor(alloc, shape, &map).ok()?;
    let mut rack = MemRack::new(alloc, Vec::new(alloc));
    if !has_disks(&mut rack, shape) || !have_made(&mut rack, shape, &map, &plan, steps) {
        return None;
    }
    let found = changed(&mut rack, changes)?;
    Some((found, want.of(shape, &map, plan.len())))
}

// Two passes, both done, and then one page changed.
#[test]
fn one_page_of_a_done_job_changed(rt: HostRuntime) -> Result<(), Fail> {
    let shape = Shape::new(4, 1, 1, 3, 1).ok().ok_or("shape")?;
    let steps = [
        Step::OpenLoad,
        Step::StartJob { every: 2 },
        Step::OpenGate { k: 0 },
        Step::OpenGate { k: 1 },
        Step::Nothing,
        Step::Nothing,
    ];
    let rows = [
        (1u16, Body::Gate, done(2)),
        (1, Body::Zeros, Said::Closed),
        (0, Body::Zeros, Said::Bad { page: 0 }),
        (2, job(REVERSAL, 0), Said::Bad { page: 2 }),
        (2, job(REVERSAL, 3), Said::Bad { page: 8 }),
        (2, job(REVERSAL, 4), Said::Bad { page: 2 }),
        (2, job([1, 1, 4, 8], 2), Said::Bad { page: 2 }),
        (4, Body::Pass { cols: REVERSAL }, Said::Bad { page: 4 }),
        (4, Body::Pass { cols: ONE_PASS }, done(2)),
        (5, Body::Zeros, Said::Bad { page: 7 }),
        (6, Body::Pass { cols: ONE_PASS }, Said::Bad { page: 6 }),
        (7, Body::Zeros, done(1)),
        (3, Body::Zeros, Said::Loaded),
        // a job without checkpoints has no slots
        (513, Body::Gate, done(2)),
    ];
    for (page, body, want) in rows {
        let change = (page, body);
        let changes = [change, change, change, change];
        let (found, want) = said_after(rt.alloc(), &shape, steps, changes, want).ok_or("disks")?;
        assert_eq!(rt; found, want, "{page} {body:?}");
    }
    Ok(())
}

// The gate and the body of each slot.
fn slots(gate: Body, body: Body, other_gate: Body, other_body: Body) -> [(u16, Body); 4] {
    [
        (513, gate),
        (512, body),
        (515, other_gate),
        (514, other_body),
    ]
}

// The gate of pass 1, and this body in the first slot, which is open.
fn first_done(body: Body) -> [(u16, Body); 4] {
    [
        (5, Body::Gate),
        (513, Body::Gate),
        (512, body),
        (515, Body::Zeros),
    ]
}

// The same of an open job whose slots' pages are changed. On one disk it has three passes of four loads.
fn said_of_slots(
    alloc: Global,
    changes: [(u16, Body); 4],
    want: Said,
) -> Option<
    (
        Result<SlateState, ControlError>,
        Result<SlateState, ControlError>,
    ),
> {
    let shape = Shape::new(4, 1, 0, 2, 1).ok()?;
    let no = Step::Nothing;
    let steps = [Step::OpenLoad, Step::StartJob { every: 1 }, no, no, no, no];
    said_after(alloc, &shape, steps, changes, want)
}

// Which slot is counted.
#[test]
fn slots_that_count(rt: HostRuntime) -> Result<(), Fail> {
    let gate = Body::Gate;
    let zeros = Body::Zeros;
    let rows = [
        // no slot is open, whatever its body is
        (slots(zeros, zeros, zeros, zeros), at(0, 0, 2)),
        (slots(zeros, part(9, 9), zeros, part(1, 3)), at(0, 0, 2)),
        // one, or the other
        (slots(gate, part(1, 1), zeros, zeros), at(0, 1, 0)),
        (slots(zeros, zeros, gate, part(1, 1)), at(0, 1, 1)),
        // both: the one with more loads, and the first where both have one number
        (slots(gate, part(1, 1), gate, part(1, 1)), at(0, 1, 0)),
        (slots(gate, part(1, 1), gate, part(1, 3)), at(0, 3, 1)),
        (slots(gate, part(1, 3), gate, part(1, 2)), at(0, 3, 0)),
        // with the first pass done: its own count, which is no more, and the next one's
        (first_done(part(1, 3)), at(1, 0, 2)),
        (first_done(part(2, 3)), at(1, 3, 0)),
    ];
    for (changes, want) in rows {
        let (found, want) = said_of_slots(rt.alloc(), changes, want).ok_or("disks")?;
        assert_eq!(rt; found, want, "{changes:?}");
    }
    Ok(())
}

// Which body is wrong.
#[test]
fn slots_that_are_wrong(rt: HostRuntime) -> Result<(), Fail> {
    let gate = Body::Gate;
    let zeros = Body::Zeros;
    let rows = [
        // a body that is none
        (slots(gate, zeros, zeros, zeros), 512u16),
        (slots(zeros, zeros, gate, zeros), 514),
        (slots(gate, zeros, gate, zeros), 512),
        (slots(gate, part(1, 4), zeros, zeros), 512),
        // a pass after the one under way, or after the last
        (slots(gate, part(2, 1), zeros, zeros), 512),
        (slots(gate, part(1, 1), gate, part(2, 1)), 514),
        (slots(gate, part(4, 1), zeros, zeros), 512),
        // the same with the first pass done
        (first_done(part(3, 3)), 512),
    ];
    for (changes, page) in rows {
        let want = Said::Bad { page };
        let (found, want) = said_of_slots(rt.alloc(), changes, want).ok_or("disks")?;
        assert_eq!(rt; found, want, "{changes:?}");
    }
    Ok(())
}
