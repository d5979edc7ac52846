//! Drills of sixteen records of 8 bytes.

use crate::drills::reversed;
use bm_base::{DrillReport, Shape, Stop, Stops};
use bm_memrack::MemRack;
use std::alloc::Global;
use std::test::Fail;

// The SHA-256 of the reversed records, as it was found apart from the code.
const DIGEST: [u8; 32] = [
    0xb1, 0x21, 0x32, 0xd6, 0x70, 0x51, 0xae, 0xf3, 0x79, 0xf2, 0xa1, 0xf5, 0x2a, 0x14, 0xfd, 0xa8,
    0x84, 0x03, 0x07, 0x86, 0xf8, 0x85, 0xf0, 0xbe, 0x56, 0x68, 0xe1, 0xd3, 0x11, 0xff, 0x2d, 0xc0,
];

// What a drill tells on new disks, and the row calls.
fn on_disks(alloc: Global, stops: Stops, every: u64) -> Option<(DrillReport, u64)> {
    let shape = Shape::new(4, 1, 1, 3, 8).ok()?;
    let mut rack = MemRack::new(alloc, Vec::new(alloc));
    reversed(alloc, &mut rack, &shape, 0, stops, every)
}

// A report of two passes.
fn report(restarts: u32, moves: u64) -> DrillReport {
    DrillReport {
        passes: 2,
        restarts,
        moves,
        bound: 24,
        digest: DIGEST,
    }
}

// With no stop. Four row calls load the input and four read the output.
#[test]
fn drill_without_stops(rt: HostRuntime) -> Result<(), Fail> {
    for every in [1, 2] {
        let found = on_disks(rt.alloc(), Stops::of(Vec::new(rt.alloc())), every);
        assert_eq!(rt; found, Some((report(0, 16), 24)));
    }
    Ok(())
}

// With a stop at the write of the first gate, which stays or is zeros.
#[test]
fn drill_with_a_stop(rt: HostRuntime) -> Result<(), Fail> {
    for (pick, moves, rows) in [(0, 16, 24), (0x5555_5555_5555_5555, 24, 32)] {
        let mut list = Vec::new(rt.alloc());
        list.push(Stop { after: 22, pick })?;
        let found = on_disks(rt.alloc(), Stops::of(list), 2);
        assert_eq!(rt; found, Some((report(1, moves), rows)), "{pick:x}");
    }
    Ok(())
}
