//! What `detect` writes for lists of addresses.

use crate::steps::{first_wrong, step};
use bm_memrack::SureRack;
use call_helpers::{Answer, said};
use std::alloc::Global;
use std::test::Fail;
use test_helpers::{DONE, records_of};

// Four numbers, two in memory, on one disk.
const FOUR: &str = "[shape]\nn = 2\nb = 0\nd = 0\nm = 1\nwidth = 8\n[map]\nkind = \"identity\"\n";

// Eight numbers on the same disk.
const EIGHT: &str = "[shape]\nn = 3\nb = 0\nd = 0\nm = 1\nwidth = 8\n[map]\nkind = \"walsh\"\n";

// What `detect` says of a list that is loaded on new disks.
fn detected(alloc: Global, job: &str, list: &[u64]) -> Option<Answer> {
    let mut rack = SureRack::new(alloc);
    let input = records_of(alloc, list)?;
    said(alloc, "new job", job, &[], &mut rack)?;
    said(alloc, "load job", job, &input, &mut rack)?;
    said(alloc, "detect job", job, &[], &mut rack)
}

// A list of four numbers, and the status, the output and the line on error that it is to have.
#[derive(Clone, Copy)]
struct Case {
    list: [u64; 4],
    code: u8,
    out: &'static str,
    line: &'static str,
}

fn case_of(list: [u64; 4], code: u8, out: &'static str, line: &'static str) -> Case {
    Case {
        list,
        code,
        out,
        line,
    }
}

// Affine permutations, and lists that are none.
#[test]
fn lists_of_four(rt: HostRuntime) -> Result<(), Fail> {
    let cases = [
        case_of(
            [0, 2, 1, 3],
            0,
            "[shape]\nn = 2\nb = 0\nd = 0\nm = 1\nwidth = 8\n\n[map]\nkind = \"rows\"\nrows = [2, 1]\ncomplement = 0\n",
            DONE,
        ),
        case_of(
            [0, 1, 3, 2],
            0,
            "[shape]\nn = 2\nb = 0\nd = 0\nm = 1\nwidth = 8\n\n[map]\nkind = \"rows\"\nrows = [3, 2]\ncomplement = 0\n",
            DONE,
        ),
        case_of(
            [3, 2, 1, 0],
            0,
            "[shape]\nn = 2\nb = 0\nd = 0\nm = 1\nwidth = 8\n\n[map]\nkind = \"rows\"\nrows = [1, 2]\ncomplement = 3\n",
            DONE,
        ),
        case_of([0, 1, 2, 2], 23, "", "bmmc: not affine 3 2 3\n"),
        case_of([1, 1, 1, 1], 24, "", "bmmc: not a permutation 1\n"),
        case_of([0, 3, 3, 0], 24, "", "bmmc: not a permutation 3\n"),
        case_of([0, 1, 2, 4], 22, "", "bmmc: out of range 3 4\n"),
        case_of([0, 2, 1, 4], 22, "", "bmmc: out of range 3 4\n"),
    ];
    for case in cases {
        let line = case.line;
        let answer = detected(rt.alloc(), FOUR, &case.list).ok_or("memory")?;
        let as_wanted = answer.says(case.code, case.out.as_bytes(), line);
        assert!(rt; as_wanted, "{line}");
    }
    Ok(())
}

// A number that is no address comes before a difference at a lower record.
#[test]
fn range_before_difference(rt: HostRuntime) -> Result<(), Fail> {
    for (last, line) in [
        (9, "bmmc: out of range 7 9\n"),
        (6, "bmmc: not affine 3 0 3\n"),
    ] {
        let answer = detected(rt.alloc(), EIGHT, &[0, 1, 2, 0, 4, 5, 6, last]).ok_or("memory")?;
        assert_eq!(rt; answer.err.taken(), line.as_bytes());
    }
    Ok(())
}

const NARROW: &str =
    "[shape]\nn = 2\nb = 0\nd = 0\nm = 1\nwidth = 4\n[map]\nkind = \"rows\"\nrows = [1, 1]\n";

const SINGULAR: &str =
    "[shape]\nn = 2\nb = 0\nd = 0\nm = 1\nwidth = 8\n[map]\nkind = \"rows\"\nrows = [1, 1]\n";

const TWO_DISKS: &str =
    "[shape]\nn = 2\nb = 0\nd = 1\nm = 1\nwidth = 8\n[map]\nkind = \"identity\"\n";

const MORE_MEMORY: &str =
    "[shape]\nn = 2\nb = 0\nd = 0\nm = 2\nwidth = 8\n[map]\nkind = \"identity\"\n";

// The width is tested before the map, and the map before the disks.
#[test]
fn other_refusals(rt: HostRuntime) -> Result<(), Fail> {
    let steps = [
        step("detect job", NARROW, 7, &[], "bmmc: job map width\n"),
        step("detect job", SINGULAR, 7, &[], "bmmc: job map singular 2\n"),
        step("detect job", FOUR, 12, &[], "bmmc: no disks\n"),
        step("new job", FOUR, 0, &[], DONE),
        step("detect job", FOUR, 15, &[], "bmmc: not loaded\n"),
        step("detect job", TWO_DISKS, 13, &[], "bmmc: wrong dims\n"),
    ];
    let mut rack = SureRack::new(rt.alloc());
    let wrong = first_wrong(rt.alloc(), &steps, &mut rack);
    let input = records_of(rt.alloc(), &[0, 1, 2, 3]).ok_or("memory")?;
    let loaded = said(rt.alloc(), "load job", FOUR, &input, &mut rack).ok_or("memory")?;
    let other = said(rt.alloc(), "detect job", MORE_MEMORY, &[], &mut rack).ok_or("memory")?;
    assert_eq!(rt; (wrong, loaded.code, other.code), (None, 0, 16));
    Ok(())
}
