//! Jobs of the transform, from the words on.

use crate::steps::{first_wrong, step};
use bm_memrack::SureRack;
use bm_rack::Rack;
use call_helpers::said;
use std::alloc::Global;
use std::test::Fail;
use test_helpers::{DONE, records_of};

// Four numbers, two in memory, on one disk.
const FOUR: &str = "[shape]\nn = 2\nb = 0\nd = 0\nm = 1\nwidth = 8\n[map]\nkind = \"walsh\"\n";

// Sixteen numbers, eight in memory, on two disks.
const SIXTEEN: &str = "[shape]\nn = 4\nb = 1\nd = 1\nm = 3\nwidth = 8\n[map]\nkind = \"walsh\"\n";

const NARROW: &str = "[shape]\nn = 2\nb = 0\nd = 0\nm = 1\nwidth = 4\n[map]\nkind = \"walsh\"\n";

// Whether a carry of these numbers makes those, in so many row calls.
fn carries(alloc: Global, job: &str, input: &[u64], out: &[u64], moves: u64) -> Option<bool> {
    let mut rack = SureRack::new(alloc);
    let input = records_of(alloc, input)?;
    let want = records_of(alloc, out)?;
    let answer = said(alloc, "carry job", job, &input, &mut rack)?;
    Some(answer.out.taken() == want.as_slice() && rack.rows() == moves)
}

// Load and dump make 8 row calls beside those of the passes. The transform of a transform is the
// input, each number times N.
#[test]
fn transforms(rt: HostRuntime) -> Result<(), Fail> {
    let a = rt.alloc();
    let there = [10, 18446744073709551614, 18446744073709551612, 0];
    let ones = [1; 16];
    let sum = [16, 0, 0, 0, 0, 0, 0, 0, 0, 0, 0, 0, 0, 0, 0, 0];
    let carried = [
        carries(a, FOUR, &[1, 2, 3, 4], &there, 32 + 8),
        carries(a, FOUR, &there, &[4, 8, 12, 16], 32 + 8),
        carries(a, SIXTEEN, &ones, &sum, 32 + 8),
    ];
    assert_eq!(rt; carried, [Some(true); 3]);
    Ok(())
}

// In steps, with the width tested by each command that has a job.
#[test]
fn transform_in_steps(rt: HostRuntime) -> Result<(), Fail> {
    let mut rack = SureRack::new(rt.alloc());
    let input = records_of(rt.alloc(), &[1, 2, 3, 4]).ok_or("memory")?;
    said(rt.alloc(), "new job", FOUR, &[], &mut rack).ok_or("memory")?;
    said(rt.alloc(), "load job", FOUR, &input, &mut rack).ok_or("memory")?;
    let steps = [
        step(
            "run job",
            FOUR,
            0,
            b"passes 4\nbefore 0\nmoves 32\nbound 32\n",
            DONE,
        ),
        step("status job", FOUR, 0, b"job walsh\ngates 4 of 4\n", DONE),
        step(
            "dump job",
            FOUR,
            0,
            &[
                10, 0, 0, 0, 0, 0, 0, 0, 254, 255, 255, 255, 255, 255, 255, 255, 252, 255, 255,
                255, 255, 255, 255, 255, 0, 0, 0, 0, 0, 0, 0, 0,
            ],
            DONE,
        ),
        step("run job", NARROW, 7, &[], "bmmc: job map width\n"),
    ];
    assert_eq!(rt; first_wrong(rt.alloc(), &steps, &mut rack), None);
    Ok(())
}
