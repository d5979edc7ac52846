//! A million numbers over files: the map that they list, and their transform.

use bm_filerack::FileRack;
use bm_gf2::Affine;
use file_helpers::enter_empty_folder;
use session_helpers::said_of;
use std::alloc::Global;
use std::fs;
use std::test::Fail;
use test_helpers::{counted, draw_map, has_moved};

const LIST: &[u8] =
    b"[shape]\nn = 20\nb = 7\nd = 2\nm = 14\nwidth = 8\n[map]\nkind = \"identity\"\n";

const TRANSFORM: &[u8] =
    b"[shape]\nn = 20\nb = 7\nd = 2\nm = 14\nwidth = 8\n[map]\nkind = \"walsh\"\n";

// The images of all addresses under a map, as records of 8 bytes.
fn images(alloc: Global, map: &Affine) -> Option<Vec<u8>> {
    let mut bytes = Vec::new(alloc);
    for x in 0..1u64 << map.a.n {
        let image = map.a.apply(x) ^ map.c;
        bytes.extend_from_slice(&image.to_le_bytes()).ok()?;
    }
    Some(bytes)
}

// So many numbers that differ in all bits, each times `factor`, as records of 8 bytes.
fn mixed(alloc: Global, factor: u64) -> Option<Vec<u8>> {
    let mut bytes = Vec::new(alloc);
    for x in 0..1u64 << 20 {
        let number = (x ^ (x << 41)).wrapping_mul(0x9E37_79B9_7F4A_7C15);
        bytes
            .extend_from_slice(&number.wrapping_mul(factor).to_le_bytes())
            .ok()?;
    }
    Some(bytes)
}

// Removes the disks, so that others can be made.
fn remove_disks(rt: &HostRuntime) {
    for path in [
        "bmmc-slate",
        "bmmc-disk-00",
        "bmmc-disk-01",
        "bmmc-disk-02",
        "bmmc-disk-03",
    ] {
        let _ = fs::remove_file(rt, path);
    }
}

// The status of a command over the files, and what it wrote.
fn said_there(rt: &HostRuntime, line: &str, input: Vec<u8>) -> Option<(u8, Vec<u8>)> {
    let mut rack = FileRack::new(rt, rt.alloc()).ok()?;
    let said = said_of(rt, line, input, 8 << 20, &mut rack)?;
    Some((said.code, said.out.taken().to_vec(rt.alloc()).ok()?))
}

// The images of a random map are loaded, the map is found, and the job text that is written then
// carries records as that map does.
#[test]
fn a_map_is_found_and_carried(rt: HostRuntime) -> Result<(), Fail> {
    enter_empty_folder(&rt, "a_map_is_found_and_carried")?;
    let alloc = rt.alloc();
    let map = draw_map(alloc, &mut 20261201, 20).ok_or("memory")?;
    fs::write(&rt, "list.toml", LIST)?;
    let list = images(alloc, &map).ok_or("memory")?;
    let made = said_there(&rt, "new list.toml", Vec::new(alloc)).ok_or("memory")?;
    let loaded = said_there(&rt, "load list.toml", list).ok_or("memory")?;
    let found = said_there(&rt, "detect list.toml", Vec::new(alloc)).ok_or("memory")?;
    assert_eq!(rt; (made.0, loaded.0, found.0), (0, 0, 0));
    fs::write(&rt, "found.toml", found.1.as_slice())?;
    remove_disks(&rt);
    let input = counted(alloc, 1 << 20).ok_or("memory")?;
    let records = input.clone()?;
    let carried = said_there(&rt, "carry found.toml", input).ok_or("memory")?;
    let moved = has_moved(&carried.1, &records, &map.a, map.c, 8);
    assert_eq!(rt; (carried.0, moved), (0, true));
    Ok(())
}

// The transform of a transform is the input, each number times N.
#[test]
fn a_transform_twice(rt: HostRuntime) -> Result<(), Fail> {
    enter_empty_folder(&rt, "a_transform_twice")?;
    let alloc = rt.alloc();
    fs::write(&rt, "job.toml", TRANSFORM)?;
    let input = mixed(alloc, 1).ok_or("memory")?;
    let there = said_there(&rt, "carry job.toml", input).ok_or("memory")?;
    remove_disks(&rt);
    let back = said_there(&rt, "carry job.toml", there.1).ok_or("memory")?;
    let wanted = mixed(alloc, 1 << 20).ok_or("memory")?;
    let same = back.1.as_slice() == wanted.as_slice();
    assert_eq!(rt; (there.0, back.0, same), (0, 0, true));
    Ok(())
}
