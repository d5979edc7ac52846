//! A drill of 64 MiB.

use crate::drills::reversed;
use bm_base::{DrillReport, Shape, Stops};
use bm_memrack::MemRack;
use std::test::Fail;

// The SHA-256 of the reversed records, as it was found apart from the code.
const DIGEST: [u8; 32] = [
    0x0a, 0xa5, 0x59, 0xf0, 0xb9, 0x35, 0xb3, 0x8f, 0x77, 0xd8, 0xdd, 0xf0, 0x51, 0x4e, 0xb2, 0x25,
    0xb1, 0x39, 0x6a, 0x88, 0xf9, 0x21, 0x4a, 0xe1, 0x48, 0x32, 0x69, 0xad, 0x86, 0xf2, 0x4d, 0x90,
];

// 2^22 records of 16 bytes from number 7 on, on 8 disks of 24 MiB each.
#[test]
fn drill_of_four_million_records(rt: HostRuntime) -> Result<(), Fail> {
    let shape = Shape::new(22, 8, 3, 14, 16).ok().ok_or("shape")?;
    let mut rack = MemRack::new(rt.alloc(), Vec::new(rt.alloc()));
    let stops = Stops::of(Vec::new(rt.alloc()));
    let found = reversed(rt.alloc(), &mut rack, &shape, 7, stops, 256);
    let want = DrillReport {
        passes: 3,
        restarts: 0,
        moves: 12288,
        bound: 16384,
        digest: DIGEST,
    };
    assert_eq!(rt; found, Some((want, 16384)));
    Ok(())
}
