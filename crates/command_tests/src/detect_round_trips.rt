//! What `detect` writes is a job text that undoes each kind of map.

use bm_memrack::SureRack;
use call_helpers::said;
use std::alloc::Global;
use std::test::Fail;
use test_helpers::counted;

const SHAPE: &str = "[shape]\nn = 4\nb = 1\nd = 1\nm = 3\nwidth = 8";

// The numbers 0 to 15 carried by a map, and then by the map that is detected of what came out.
fn there_and_back(alloc: Global, map: &str) -> Option<Vec<u8>> {
    let numbers = counted(alloc, 16)?;
    let job = format!(in alloc; "{SHAPE}\n[map]\n{map}\n").ok()?;
    let mut rack = SureRack::new(alloc);
    let there = said(alloc, "carry job", job.as_str(), &numbers, &mut rack)?;
    said(
        alloc,
        "load job",
        job.as_str(),
        there.out.taken(),
        &mut rack,
    )?;
    let found = said(alloc, "detect job", job.as_str(), &[], &mut rack)?;
    let text = std::str::from_utf8(found.out.taken()).ok()?;
    let mut other = SureRack::new(alloc);
    let back = said(alloc, "carry job", text, there.out.taken(), &mut other)?;
    back.out.taken().to_vec(alloc).ok()
}

// Record x of what a map leaves is the address that goes to x, so carrying it by that list puts
// each number at its own address again.
#[test]
fn each_kind_undone(rt: HostRuntime) -> Result<(), Fail> {
    let maps = [
        "kind = \"identity\"",
        "kind = \"reversal\"",
        "kind = \"bit-reversal\"",
        "kind = \"transpose\"\np = 1",
        "kind = \"gray\"",
        "kind = \"inverse-gray\"\ncomplement = 9",
        "kind = \"rotation\"\nby = 3",
        "kind = \"bits\"\nbits = [2, 0, 3, 1]",
        "kind = \"rows\"\nrows = [3, 6, 4, 10]\ncomplement = 5",
    ];
    let numbers = counted(rt.alloc(), 16).ok_or("memory")?;
    for map in maps {
        let back = there_and_back(rt.alloc(), map).ok_or("memory")?;
        assert_eq!(rt; back.as_slice(), numbers.as_slice(), "{map}");
    }
    Ok(())
}
