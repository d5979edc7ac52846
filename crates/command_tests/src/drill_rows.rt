//! What `drill` writes.

use crate::steps::{Exchange, first_wrong, step};
use bm_memrack::SureRack;
use std::test::Fail;
use test_helpers::DONE;

// Drills with no stop, and with a stop at the write of the first gate, which stays or is zeros.
// The digests were found apart from the code.
fn drills() -> [Exchange; 5] {
    [
        step(
            "drill job",
            "[shape]\nn = 4\nb = 1\nd = 1\nm = 3\nwidth = 8\n[map]\nkind = \"bit-reversal\"\n",
            0,
            b"passes 2\nrestarts 0\nmoves 16\nbound 24\nsha256 b12132d67051aef379f2a1f52a14fda884030786f885f0be5668e1d311ff2dc0\n",
            DONE,
        ),
        step(
            "drill job",
            "[shape]\nn = 4\nb = 1\nd = 1\nm = 3\nwidth = 8\n[map]\nkind = \"bit-reversal\"\n[drill]\nstart = 0\nstops = [22, 0]\n",
            0,
            b"passes 2\nrestarts 1\nmoves 16\nbound 24\nsha256 b12132d67051aef379f2a1f52a14fda884030786f885f0be5668e1d311ff2dc0\n",
            DONE,
        ),
        step(
            "drill job",
            "[shape]\nn = 4\nb = 1\nd = 1\nm = 3\nwidth = 8\n[map]\nkind = \"bit-reversal\"\n[drill]\nstart = 0\nstops = [22, 6148914691236517205]\n",
            0,
            b"passes 2\nrestarts 1\nmoves 24\nbound 24\nsha256 b12132d67051aef379f2a1f52a14fda884030786f885f0be5668e1d311ff2dc0\n",
            DONE,
        ),
        step(
            "drill job",
            "[shape]\nn = 4\nb = 1\nd = 1\nm = 3\nwidth = 3\n[map]\nkind = \"gray\"\n[drill]\nstart = 5\n",
            0,
            b"passes 1\nrestarts 0\nmoves 8\nbound 16\nsha256 71f1974561ef4d23c2dfa0223e8eaf942061974afe7806d3d2beba7f10f1d5a8\n",
            DONE,
        ),
        step(
            "drill job",
            "[shape]\nn = 4\nb = 1\nd = 1\nm = 3\nwidth = 8\n[map]\nkind = \"walsh\"\n",
            0,
            b"passes 4\nrestarts 0\nmoves 32\nbound 48\nsha256 7bc52f95796ecd31f0477b2c40f68886bfb56eb1940135ae06b7d3ebe51780bd\n",
            DONE,
        ),
    ]
}

// An input of more than 2^26 bytes is refused before the map is, and by no other command. The
// disks that are handed in are not touched.
fn refusals() -> [Exchange; 5] {
    [
        step(
            "drill job",
            "[shape]\nn = 26\nb = 10\nd = 2\nm = 16\nwidth = 8\n[map]\nkind = \"bit-reversal\"\n",
            6,
            &[],
            "bmmc: job shape rule 8\n",
        ),
        step(
            "drill job",
            "[shape]\nn = 23\nb = 10\nd = 2\nm = 16\nwidth = 9\n[map]\nkind = \"walsh\"\n",
            6,
            &[],
            "bmmc: job shape rule 8\n",
        ),
        step(
            "plan job",
            "[shape]\nn = 23\nb = 10\nd = 2\nm = 16\nwidth = 9\n[map]\nkind = \"walsh\"\n",
            7,
            &[],
            "bmmc: job map width\n",
        ),
        step(
            "drill job",
            "[shape]\nn = 23\nb = 10\nd = 2\nm = 16\nwidth = 4\n[map]\nkind = \"walsh\"\n",
            7,
            &[],
            "bmmc: job map width\n",
        ),
        step(
            "run job",
            "[shape]\nn = 4\nb = 1\nd = 1\nm = 3\nwidth = 8\n[map]\nkind = \"bit-reversal\"\n",
            12,
            &[],
            "bmmc: no disks\n",
        ),
    ]
}

#[test]
fn reports(rt: HostRuntime) -> Result<(), Fail> {
    let mut rack = SureRack::new(rt.alloc());
    let drilled = first_wrong(rt.alloc(), &drills(), &mut rack);
    let refused = first_wrong(rt.alloc(), &refusals(), &mut rack);
    assert_eq!(rt; (drilled, refused), (None, None));
    Ok(())
}

// 2^22 records of 16 bytes, the largest input of a drill.
#[test]
fn largest_drill(rt: HostRuntime) -> Result<(), Fail> {
    let steps = [step(
        "drill job",
        "[shape]\nn = 22\nb = 8\nd = 3\nm = 14\nwidth = 16\n[map]\nkind = \"bit-reversal\"\n[drill]\nstart = 7\n",
        0,
        b"passes 3\nrestarts 0\nmoves 12288\nbound 16384\nsha256 0aa559f0b935b38f77d8ddf0514eb225b1396a88f9214ae1483269ad86f24d90\n",
        DONE,
    )];
    let mut rack = SureRack::new(rt.alloc());
    assert_eq!(rt; first_wrong(rt.alloc(), &steps, &mut rack), None);
    Ok(())
}
