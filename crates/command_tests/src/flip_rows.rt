//! What `flip` answers and writes.

use bm_memrack::{MemRack, MemSink, MemSource, SureRack, SureSource};
use bm_named::identity;
use bm_top::Status;
use call_helpers::{said, said_over};
use std::test::Fail;
use test_helpers::{DONE, FLIPPED, ONE_MORE, has_moved, pattern};

// A line of words, how many bytes of input there are, and what comes of it: the status, its code,
// how many bytes of output, and the line on standard error.
const ROWS: [(&str, usize, Status, u8, usize, &str); 11] = [
    ("flip 4 1 1 3 1 15", 16, Status::Done, 0, 16, DONE),
    (
        "flip 4 3 0 3 1 0",
        16,
        Status::JobShape { rule: 3 },
        6,
        0,
        "bmmc: job shape rule 3\n",
    ),
    (
        "flip 53 12 4 28 4 0",
        16,
        Status::JobShape { rule: 1 },
        6,
        0,
        "bmmc: job shape rule 1\n",
    ),
    (
        "flip 20 7 2 14 4097 0",
        16,
        Status::JobShape { rule: 6 },
        6,
        0,
        "bmmc: job shape rule 6\n",
    ),
    (
        "flip 52 8 0 18 4096 0",
        16,
        Status::JobShape { rule: 9 },
        6,
        0,
        "bmmc: job shape rule 9\n",
    ),
    ("run", 16, Status::Usage, 2, 0, "bmmc: usage\n"),
    (
        "flip 04 1 1 3 1 0",
        16,
        Status::Usage,
        2,
        0,
        "bmmc: usage\n",
    ),
    (
        "flip 4 1 1 3 1 16",
        16,
        Status::Usage,
        2,
        0,
        "bmmc: usage\n",
    ),
    (
        "flip 4 1 1 3 1 15",
        15,
        Status::DataShort { got: 15 },
        9,
        0,
        "bmmc: input short 15\n",
    ),
    (
        "flip 4 1 1 3 1 15",
        0,
        Status::DataShort { got: 0 },
        9,
        0,
        "bmmc: input short 0\n",
    ),
    (
        "flip 4 1 1 3 1 15",
        17,
        Status::DataLong,
        10,
        0,
        "bmmc: input long\n",
    ),
];

#[test]
fn rows_of_flip(rt: HostRuntime) -> Result<(), Fail> {
    for (words, input, status, code, out, line) in ROWS {
        let wanted = &FLIPPED[..out.min(16)];
        let mut rack = SureRack::new(rt.alloc());
        let said = said(rt.alloc(), words, "", &ONE_MORE[..input.min(17)], &mut rack).ok_or(
            "memory",
        )?;
        assert_eq!(rt;
            (
                said.status,
                said.code,
                said.out.taken() == wanted,
                said.err.taken() == line.as_bytes()
            ),
            (status, code, true, true),
            "{words}"
        );
    }
    Ok(())
}

// Whether each of the 2^n records at x lies at x XOR c.
fn is_flipped(moved: &[u8], records: &[u8], n: u8, c: u64, width: u16) -> bool {
    n >= 1 && n <= 52 && has_moved(moved, records, &identity(n).a, c, width)
}

// Shapes of every kind: one disk and many, blocks of one record, one load, wide records. Each
// source gives five bytes a read, and each sink takes seven a write.
#[test]
fn every_record_moves(rt: HostRuntime) -> Result<(), Fail> {
    let alloc = rt.alloc();
    let shapes = [
        ("flip 4 1 1 3 1 9", 4u8, 1u16, 9u64),
        ("flip 4 1 0 2 1 5", 4, 1, 5),
        ("flip 2 0 0 1 8 3", 2, 8, 3),
        ("flip 6 1 2 4 3 45", 6, 3, 45),
        ("flip 5 2 3 5 2 17", 5, 2, 17),
        ("flip 7 0 6 6 1 127", 7, 1, 127),
        ("flip 3 0 1 2 300 6", 3, 300, 6),
    ];
    for (words, n, width, c) in shapes {
        let records = pattern(alloc, (1usize << n) * usize::from(width)).ok_or("memory")?;
        let mut job = SureSource::new(Vec::new(alloc));
        let mut input = MemSource::new(records.clone()?, 5, Vec::new(alloc));
        let out = MemSink::new(alloc, 4096, 7, Vec::new(alloc)).map_err(|_| "memory")?;
        let mut rack = MemRack::new(alloc, Vec::new(alloc));
        let said = said_over(alloc, words, &mut job, &mut input, out, &mut rack).ok_or("memory")?;
        let moved = is_flipped(said.out.taken(), &records, n, c, width);
        assert_eq!(rt;
            (said.status, said.err.taken(), moved),
            (Status::Done, DONE.as_bytes(), true),
            "{words}"
        );
    }
    Ok(())
}

#[test]
fn a_second_flip_finds_disks(rt: HostRuntime) -> Result<(), Fail> {
    let mut rack = SureRack::new(rt.alloc());
    for (want, size) in [(Status::Done, 16), (Status::Exists, 0)] {
        let said = said(
            rt.alloc(),
            "flip 4 1 1 3 1 15",
            "",
            &ONE_MORE[..16],
            &mut rack,
        )
        .ok_or("memory")?;
        assert_eq!(rt;
            (said.status, said.out.taken()),
            (want, &FLIPPED[..size.min(16)])
        );
    }
    Ok(())
}
