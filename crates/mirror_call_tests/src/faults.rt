//! A call that fails on one side, and on both.

use crate::calling::said;
use bm_top::Status;
use std::alloc::Global;
use std::test::Fail;
use test_helpers::{
    DONE_BOTH, DONE_LEFT, DONE_RIGHT, FAULT_LEFT, FAULT_RIGHT, INPUT, REVERSAL, REVERSED, rack_of,
};

// Whether this call of a `carry` reads a row or a page. Of its 62 calls the first two make the disks
// and attach them, 11 load, 36 run the job and 13 dump its records.
fn reads(call: u64) -> bool {
    match call {
        // The two gates that the load looks at.
        4 | 5 => true,
        // The pages that tell what is loaded and whether a job is open.
        15..=17 => true,
        // The body of each pass, and the two rows of each of its two loads.
        26..=28 | 31 | 32 => true,
        38..=40 | 43 | 44 => true,
        // The pages of the job that is done, and its rows.
        51..=62 => true,
        _ => false,
    }
}

// What a `carry` says on standard error where left fails at this call.
fn wanted(call: u64) -> (Status, &'static str) {
    if call == 1 {
        (Status::RackFault, FAULT_LEFT)
    } else if reads(call) || call > 62 {
        (Status::Done, DONE_BOTH)
    } else {
        (Status::Done, DONE_RIGHT)
    }
}

// Whether a `carry` over these fault lists says so.
fn carries(alloc: Global, left: &[u64], right: &[u64], want: (Status, &str)) -> Option<bool> {
    let (status, lines) = want;
    let left = rack_of(alloc, left)?;
    let right = rack_of(alloc, right)?;
    let said = said(alloc, "mirror left carry job", REVERSAL, INPUT, left, right)?;
    let out = if status == Status::Done {
        REVERSED
    } else {
        &[]
    };
    Some(said.status == status && said.out.taken() == out && said.err.taken() == lines.as_bytes())
}

// Each device call of the left side fails in turn. A read is asked of the right one then, and after
// a write or a sync it goes on alone. Left is the one that has to be made.
#[test]
fn faults_of_the_left_side(rt: HostRuntime) -> Result<(), Fail> {
    for call in 1..=63 {
        assert_eq!(rt;
            carries(rt.alloc(), &[call], &[], wanted(call)),
            Some(true),
            "call {call}"
        );
    }
    Ok(())
}

// Each of the 35 device calls of the right side, which is read by no call, fails in turn. Left goes
// on alone.
#[test]
fn faults_of_the_right_side(rt: HostRuntime) -> Result<(), Fail> {
    for call in 1..=36 {
        let lines = if call < 36 { DONE_LEFT } else { DONE_BOTH };
        assert_eq!(rt;
            carries(rt.alloc(), &[], &[call], (Status::Done, lines)),
            Some(true),
            "call {call}"
        );
    }
    Ok(())
}

// What a `carry` says whose first row write fails on both sides, and the run after it that trusts
// the side which is in.
fn both_fail(alloc: Global) -> Option<[(Status, bool); 2]> {
    let first = said(
        alloc,
        "mirror left carry job",
        REVERSAL,
        INPUT,
        rack_of(alloc, &[6])?,
        rack_of(alloc, &[4])?,
    )?;
    let stopped = first.out.taken().is_empty() && first.err.taken() == FAULT_RIGHT.as_bytes();
    let next = said(
        alloc,
        "mirror right run job",
        REVERSAL,
        &[],
        first.left,
        first.right,
    )?;
    let lines = b"bmmc: not loaded\nsides left right\n".as_slice();
    Some([
        (first.status, stopped),
        (next.status, next.err.taken() == lines),
    ])
}

#[test]
fn a_row_that_both_refuse(rt: HostRuntime) -> Result<(), Fail> {
    let want = [(Status::RackFault, true), (Status::NotLoaded, true)];
    assert_eq!(rt; both_fail(rt.alloc()), Some(want));
    Ok(())
}
