//! Batches of three jobs that are done, with each of ten seeds, and after a fault.

use crate::calling::{THREE, said};
use bm_memrack::{MemRack, SureRack};
use bm_rack::Rack;
use bm_top::Status;
use std::alloc::Global;
use std::test::Fail;
use test_helpers::{DONE, RACK_FAULT, THREE_OUTPUTS};

// A line of words for each of the seeds 0 to 9.
const LINES: [&str; 10] = [
    "batch 0 r g i",
    "batch 1 r g i",
    "batch 2 r g i",
    "batch 3 r g i",
    "batch 4 r g i",
    "batch 5 r g i",
    "batch 6 r g i",
    "batch 7 r g i",
    "batch 8 r g i",
    "batch 9 r g i",
];

// Three new bays.
fn three_bays(alloc: Global) -> Option<Vec<SureRack>> {
    let mut bays = Vec::new(alloc);
    for _bay in 0..3 {
        bays.push(SureRack::new(alloc)).ok()?;
    }
    Some(bays)
}

// Three new bays, of which bay 1 fails at this device call.
fn failing_bays(alloc: Global, call: u64) -> Option<Vec<MemRack>> {
    let mut bays = Vec::new(alloc);
    bays.push(MemRack::new(alloc, Vec::new(alloc))).ok()?;
    bays.push(MemRack::new(alloc, [call].to_vec(alloc).ok()?))
        .ok()?;
    bays.push(MemRack::new(alloc, Vec::new(alloc))).ok()?;
    Some(bays)
}

// The row calls of three bays.
fn rows_of<Y: Rack>(bays: &[Y]) -> Option<(u64, u64, u64)> {
    match bays {
        [one, two, three] => Some((one.rows(), two.rows(), three.rows())),
        _ => None,
    }
}

// Whether this line does the three jobs, in so many row calls.
fn is_done(alloc: Global, line: &str) -> Option<bool> {
    let mut bays = three_bays(alloc)?;
    let said = said(alloc, line, &THREE, 48, &mut bays)?;
    Some(
        said.status == Status::Done
            && said.out.taken() == THREE_OUTPUTS
            && said.err.taken() == DONE.as_bytes()
            && rows_of(&bays) == Some((24, 16, 16)),
    )
}

#[test]
fn any_seed(rt: HostRuntime) -> Result<(), Fail> {
    for line in LINES {
        assert_eq!(rt; is_done(rt.alloc(), line), Some(true), "{line}");
    }
    Ok(())
}

// What the batch says where bay 1 fails in its pass, and what `batch-run` says after it.
fn after_a_fault(alloc: Global) -> Option<bool> {
    let mut bays = failing_bays(alloc, 30)?;
    let first = said(alloc, "batch 3 r g i", &THREE, 48, &mut bays)?;
    let stopped = first.status == Status::RackFault
        && first.out.taken().is_empty()
        && first.err.taken() == RACK_FAULT.as_bytes();
    // The others are done: of their passes no row call is left, but those of the dump.
    let Some((one, _, three)) = rows_of(&bays) else {
        return None;
    };
    let next = said(alloc, "batch-run 8 r g i", &THREE, 0, &mut bays)?;
    let Some((again, _, last)) = rows_of(&bays) else {
        return None;
    };
    Some(
        stopped
            && (one, three) == (20, 12)
            && next.status == Status::Done
            && next.out.taken() == THREE_OUTPUTS
            && (again, last) == (24, 16),
    )
}

#[test]
fn goes_on_after_a_fault(rt: HostRuntime) -> Result<(), Fail> {
    assert_eq!(rt; after_a_fault(rt.alloc()), Some(true));
    Ok(())
}
