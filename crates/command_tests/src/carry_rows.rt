//! What `carry` writes: each map, in one piece.

use bm_memrack::SureRack;
use bm_rack::Rack;
use call_helpers::said;
use std::test::Fail;
use test_helpers::{DONE, FLIPPED, GRAYED, INPUT, REVERSED};

const TWO_DISKS: &str = "n = 4\nb = 1\nd = 1\nm = 3\nwidth = 1";

const ONE_DISK: &str = "n = 4\nb = 1\nd = 0\nm = 2\nwidth = 1";

const ONE_LOAD: &str = "n = 4\nb = 1\nd = 1\nm = 4\nwidth = 1";

// The numbers of a shape, a map, how many transfers are made, and what the bytes 0 to 15 become. Of
// the transfers load and dump make 8 on two disks, and 16 on one.
const CASES: [(&str, &str, u64, &[u8]); 8] = [
    (TWO_DISKS, "kind = \"identity\"", 16, INPUT),
    (TWO_DISKS, "kind = \"bit-reversal\"", 24, REVERSED),
    (
        TWO_DISKS,
        "kind = \"rows\"\nrows = [1, 2, 4, 10]",
        16,
        &[0, 1, 10, 11, 4, 5, 14, 15, 8, 9, 2, 3, 12, 13, 6, 7],
    ),
    (TWO_DISKS, "kind = \"gray\"", 16, GRAYED),
    (
        TWO_DISKS,
        "kind = \"transpose\"\np = 2",
        24,
        &[0, 4, 8, 12, 1, 5, 9, 13, 2, 6, 10, 14, 3, 7, 11, 15],
    ),
    (ONE_DISK, "kind = \"bit-reversal\"", 64, REVERSED),
    (ONE_LOAD, "kind = \"bit-reversal\"", 16, REVERSED),
    (
        TWO_DISKS,
        "kind = \"identity\"\ncomplement = 15",
        16,
        FLIPPED,
    ),
];

#[test]
fn maps(rt: HostRuntime) -> Result<(), Fail> {
    for (shape, map, moves, out) in CASES {
        let mut rack = SureRack::new(rt.alloc());
        let job = format!(in rt.alloc(); "[shape]\n{shape}\n[map]\n{map}\n")?;
        let said = said(rt.alloc(), "carry job", job.as_str(), INPUT, &mut rack).ok_or("memory")?;
        assert_eq!(rt;
            (
                said.err.taken() == DONE.as_bytes(),
                said.out.taken() == out,
                rack.rows()
            ),
            (true, true, moves),
            "{shape} {map}"
        );
    }
    Ok(())
}
