//! Four numbers in two loads: what each kind makes of them, and texts that are refused.

use crate::calling::{FOUR, said};
use bm_base::FieldName;
use bm_memrack::SureRack;
use bm_named::MapFault;
use bm_rack::Rack;
use bm_top::Status;
use std::alloc::Global;
use std::test::Fail;
use test_helpers::{DONE, records_of, text_with};

// The lines of the map, four numbers, and what becomes of them.
const ROWS: [(&str, [u64; 4], [u64; 4]); 7] = [
    ("kind = \"sums\"\nset = [0, 1]", [1, 2, 3, 4], [1, 3, 4, 10]),
    (
        "kind = \"differences\"\nset = [0, 1]",
        [1, 3, 4, 10],
        [1, 2, 3, 4],
    ),
    ("kind = \"xors\"\nset = [0, 1]", [1, 2, 3, 4], [1, 3, 2, 4]),
    (
        "kind = \"walsh-bits\"\nset = [1]",
        [1, 2, 3, 4],
        [4, 6, 18446744073709551614, 18446744073709551614],
    ),
    ("kind = \"sums\"\nset = []", [1, 2, 3, 4], [1, 2, 3, 4]),
    ("kind = \"sums\"\nset = [0]", [1, 2, 3, 4], [1, 3, 3, 7]),
    ("kind = \"sums\"\nset = [1]", [1, 2, 3, 4], [1, 2, 4, 6]),
];

// Whether the call makes these numbers of those, in 40 row calls: 32 of four passes, and 8 of the
// load and the output.
fn makes(alloc: Global, map: &str, numbers: &[u64; 4], wanted: &[u64; 4]) -> Option<bool> {
    let text = text_with(alloc, FOUR, map)?;
    let input = records_of(alloc, numbers)?;
    let wanted = records_of(alloc, wanted)?;
    let mut rack = SureRack::new(alloc);
    let said = said(alloc, "kind job", text.as_str(), &input, 512, &mut rack)?;
    Some(
        said.status == Status::Done
            && said.out.taken() == wanted.as_slice()
            && said.err.taken() == DONE.as_bytes()
            && rack.rows() == 40,
    )
}

#[test]
fn rows_of_four_numbers(rt: HostRuntime) -> Result<(), Fail> {
    for (map, numbers, wanted) in ROWS {
        assert_eq!(rt;
            makes(rt.alloc(), map, &numbers, &wanted),
            Some(true),
            "{map}"
        );
    }
    Ok(())
}

const NARROW: &str = "n = 2\nb = 0\nd = 0\nm = 1\nwidth = 4";

const LARGE_BLOCK: &str = "n = 2\nb = 1\nd = 0\nm = 1\nwidth = 4";

// The shape, the lines of the map, the status and the line.
const FAULTS: [(&str, &str, Status, &str); 7] = [
    (
        FOUR,
        "kind = \"sums\"\nset = [0, 2]",
        Status::JobMap {
            fault: MapFault::Range { i: 1 },
        },
        "bmmc: job map range 1\n",
    ),
    (
        FOUR,
        "kind = \"sums\"\nset = [1, 1]",
        Status::JobMap {
            fault: MapFault::Twice { i: 0, j: 1 },
        },
        "bmmc: job map twice 0 1\n",
    ),
    (
        FOUR,
        "kind = \"gray\"\nset = [0]",
        Status::JobField {
            which: FieldName::Kind,
        },
        "bmmc: job field map.kind\n",
    ),
    (
        NARROW,
        "kind = \"sums\"\nset = [0]",
        Status::JobMap {
            fault: MapFault::Width,
        },
        "bmmc: job map width\n",
    ),
    (
        FOUR,
        "kind = \"sums\"",
        Status::JobField {
            which: FieldName::Set,
        },
        "bmmc: job field map.set\n",
    ),
    (
        LARGE_BLOCK,
        "kind = \"sums\"\nset = [9]",
        Status::JobShape { rule: 3 },
        "bmmc: job shape rule 3\n",
    ),
    (
        FOUR,
        "kind = \"sums\"\nset = [0",
        Status::JobText,
        "bmmc: job text\n",
    ),
];

// Whether the call refuses a text so, writes nothing and makes no disks.
fn refuses(alloc: Global, shape: &str, map: &str, status: Status, line: &str) -> Option<bool> {
    let text = text_with(alloc, shape, map)?;
    let input = records_of(alloc, &[1, 2, 3, 4])?;
    let mut rack = SureRack::new(alloc);
    let first = said(alloc, "kind job", text.as_str(), &input, 512, &mut rack)?;
    let sound = text_with(alloc, FOUR, "kind = \"sums\"\nset = []")?;
    let next = said(alloc, "kind job", sound.as_str(), &input, 512, &mut rack)?;
    Some(
        first.status == status
            && first.out.taken().is_empty()
            && first.err.taken() == line.as_bytes()
            && next.status == Status::Done,
    )
}

#[test]
fn refused_texts(rt: HostRuntime) -> Result<(), Fail> {
    for (shape, map, status, line) in FAULTS {
        let refused = refuses(rt.alloc(), shape, map, status, line);
        assert_eq!(rt; refused, Some(true), "{line}");
    }
    Ok(())
}
