//! Commands over a mirror one after another, and the one side alone after them.

use crate::calling::said;
use bm_rack::Rack;
use bm_top::Status;
use std::alloc::Global;
use std::test::Fail;
use test_helpers::{DONE_BOTH, INPUT, REVERSAL, REVERSED, rack_of};

/// What a command without a mirror says over one rack: its status, and whether this is its output.
pub fn alone<R: Rack>(
    alloc: Global,
    line: &str,
    job: &str,
    input: &[u8],
    rack: &mut R,
    want: &[u8],
) -> Option<(Status, bool)> {
    let said = call_helpers::said(alloc, line, job, input, rack)?;
    Some((said.status, said.out.taken() == want))
}

// A job on the left side that is loaded there, done over a mirror whose right one is empty, and
// dumped of the right one alone.
fn run_in_two(alloc: Global) -> Option<[(Status, bool); 4]> {
    let mut left = rack_of(alloc, &[])?;
    let made = alone(alloc, "new job", REVERSAL, &[], &mut left, &[])?;
    let loaded = alone(alloc, "load job", REVERSAL, INPUT, &mut left, &[])?;
    let right = rack_of(alloc, &[])?;
    let ran = said(alloc, "mirror left run job", REVERSAL, &[], left, right)?;
    let report = b"passes 2\nbefore 0\nmoves 16\nbound 24\n".as_slice();
    let as_wanted = ran.out.taken() == report && ran.err.taken() == DONE_BOTH.as_bytes();
    let mut right = ran.right;
    let dumped = alone(alloc, "dump job", REVERSAL, &[], &mut right, REVERSED)?;
    Some([made, loaded, (ran.status, as_wanted), dumped])
}

#[test]
fn an_empty_side_is_filled(rt: HostRuntime) -> Result<(), Fail> {
    assert_eq!(rt; run_in_two(rt.alloc()), Some([(Status::Done, true); 4]));
    Ok(())
}

// A command, its status, its output, and its lines.
#[derive(Clone, Copy)]
struct Exchange {
    line: &'static str,
    status: Status,
    out: &'static [u8],
    err: &'static str,
}

// One after another over the same two racks, in turn with either side first.
const EACH_COMMAND: [Exchange; 11] = [
    Exchange {
        line: "mirror left status job",
        status: Status::NoDisks,
        out: &[],
        err: "bmmc: no disks\nsides left\n",
    },
    Exchange {
        line: "mirror right new job",
        status: Status::Done,
        out: &[],
        err: DONE_BOTH,
    },
    Exchange {
        line: "mirror right new job",
        status: Status::Exists,
        out: &[],
        err: "bmmc: disks exist\nsides right\n",
    },
    Exchange {
        line: "mirror left load job",
        status: Status::Done,
        out: &[],
        err: DONE_BOTH,
    },
    Exchange {
        line: "mirror right plan job",
        status: Status::Done,
        out: b"shape n=4 b=1 d=1 m=3 width=1\njob permute\nstep 1 butterflies 0 lower 1 high 1 passes 2 at-most 3\npasses 2\nmoves 16\nbound 24\n",
        err: "bmmc: done\nsides right\n",
    },
    Exchange {
        line: "mirror right run job",
        status: Status::Done,
        out: b"passes 2\nbefore 0\nmoves 16\nbound 24\n",
        err: DONE_BOTH,
    },
    Exchange {
        line: "mirror left status job",
        status: Status::Done,
        out: b"job permute\ngates 2 of 2\n",
        err: DONE_BOTH,
    },
    Exchange {
        line: "mirror right dump job",
        status: Status::Done,
        out: REVERSED,
        err: DONE_BOTH,
    },
    Exchange {
        line: "mirror left drop job",
        status: Status::Done,
        out: &[],
        err: DONE_BOTH,
    },
    Exchange {
        line: "mirror right dump job",
        status: Status::NoJob,
        out: &[],
        err: "bmmc: no job\nsides left right\n",
    },
    Exchange {
        line: "mirror left detect job",
        status: Status::JobMap {
            fault: bm_named::MapFault::Width,
        },
        out: &[],
        err: "bmmc: job map width\nsides left\n",
    },
];

// The number of the first of these commands that does not say what it is to say.
fn first_wrong(alloc: Global) -> Option<Option<usize>> {
    let mut left = rack_of(alloc, &[])?;
    let mut right = rack_of(alloc, &[])?;
    let mut at = 0usize;
    for step in EACH_COMMAND {
        let said = said(alloc, step.line, REVERSAL, INPUT, left, right)?;
        if said.status != step.status
            || said.out.taken() != step.out
            || said.err.taken() != step.err.as_bytes()
        {
            return Some(Some(at));
        }
        left = said.left;
        right = said.right;
        at = at.saturating_add(1);
    }
    Some(None)
}

#[test]
fn each_command(rt: HostRuntime) -> Result<(), Fail> {
    assert_eq!(rt; first_wrong(rt.alloc()), Some(None));
    Ok(())
}
