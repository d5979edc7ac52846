//! Whole passes over racks in memory.

ghost use Rattle.std.specs.Prelude.{◌≡◌, ◌≤◌, Some};
ghost use Rattle.bm_base.specs.Shape.{dims_of};
ghost use Rattle.bm_bufs.specs.Bufs.{FitsShape};

use bm_base::{Area, Shape};
use bm_bufs::{Bufs, Placing};
use bm_factor::factor;
use bm_forms::{MldForm, PassForm};
use bm_gf2::Affine;
use bm_memrack::{MemRack, SureRack};
use bm_named::{bit_reversal, from_rows, gray, identity, rotation, transpose, with_complement};
use bm_pass::run_pass;
use bm_rack::Rack;
use bm_split::best_split;
use std::alloc::Global;
use std::test::Fail;
use test_helpers::{
    GRAYED, INPUT, areas_of, counted, draw_map, has_disks, has_moved, read_area, records_of,
    write_area,
};

// Does one pass by the map from the input to the first area. The number of its row calls, or
// nothing where it failed or the map has no form.
fn row_calls<R: Rack>(alloc: Global, rack: &mut R, shape: &Shape, map: &Affine) -> Option<u64>
    requires { (R.view rack.old).attached ≡ Some (dims_of shape.now) }
    ensures { (R.view rack.new).attached ≡ Some (dims_of shape.now) }
{
    if map.a.n != shape.n() {
        return None;
    }
    let pass = PassForm {
        low: 0,
        map: MldForm::of(shape, map).ok()?,
    };
    let mut bufs = Bufs::new(alloc, shape).ok()?;
    let before = rack.rows();
    run_pass(rack, shape, &pass, Area::Input, Area::One, &mut bufs).ok()?;
    rack.rows().checked_sub(before)
}

// The first area after one pass by the map over this input, and the row calls of the pass.
fn passed(alloc: Global, shape: &Shape, map: &Affine, input: &[u8]) -> Option<(Vec<u8>, u64)> {
    let mut rack = SureRack::new(alloc);
    if !has_disks(&mut rack, shape) || !write_area(&mut rack, shape, Area::Input, input) {
        return None;
    }
    let calls = row_calls(alloc, &mut rack, shape, map)?;
    let bytes = read_area(alloc, &mut rack, shape, Area::One)?;
    Some((bytes, calls))
}

// Three maps of one pass, with the permuted list of sixteen records of one byte.
#[test]
fn one_pass_of_sixteen_records(rt: HostRuntime) -> Result<(), Fail> {
    let shape = Shape::new(4, 1, 1, 3, 1).ok().ok_or("shape")?;
    let by_rows = from_rows(4, &[1, 2, 4, 10])?;
    let rows: [(Affine, &[u8]); 3] = [
        (identity(4), INPUT),
        (
            by_rows,
            &[0, 1, 10, 11, 4, 5, 14, 15, 8, 9, 2, 3, 12, 13, 6, 7],
        ),
        (gray(4), GRAYED),
    ];
    for (map, want) in rows {
        let (bytes, calls) = passed(rt.alloc(), &shape, &map, INPUT).ok_or("pass")?;
        assert_eq!(rt; (bytes.as_slice() == want, calls), (true, 8));
    }
    Ok(())
}

// Every width from 1 to 256 bytes, and the widest: record x goes to x XOR x / 2.
#[test]
fn every_width(rt: HostRuntime) -> Result<(), Fail> {
    let map = gray(6);
    for step in 1..=257u16 {
        let width = if step == 257 { 4096 } else { step };
        let shape = Shape::new(6, 1, 1, 3, width).ok().ok_or("shape")?;
        let size = usize::from(width);
        let mut input = Vec::new(rt.alloc());
        for i in 0..64 * size {
            input.push((i % 251) as u8)?;
        }
        let (bytes, calls) = passed(rt.alloc(), &shape, &map, &input).ok_or("pass")?;
        assert_eq!(rt; calls, 32, "{width}");
        for x in 0..64usize {
            let from = x.wrapping_mul(size);
            let to = (x ^ (x / 2)).wrapping_mul(size);
            let record = input.get(from..from.wrapping_add(size)).ok_or("input")?;
            let moved = bytes.get(to..to.wrapping_add(size)).ok_or("output")?;
            assert_eq!(rt; moved, record, "{width}");
        }
    }
    Ok(())
}

// A failing row call leaves the input and the area that is not the target.
//
// Create and attach are calls 1 and 2, the input is written by calls 3 to 6, the pass is calls 7 to 14.
#[test]
fn failing_row_calls(rt: HostRuntime) -> Result<(), Fail> {
    let shape = Shape::new(4, 1, 1, 3, 1).ok().ok_or("shape")?;
    for k in 7..=14u64 {
        let mut rack = MemRack::new(rt.alloc(), [k].to_vec(rt.alloc())?);
        if !has_disks(&mut rack, &shape) || !write_area(&mut rack, &shape, Area::Input, INPUT) {
            return Err(Fail::from("disks"));
        }
        assert_eq!(rt;
            row_calls(rt.alloc(), &mut rack, &shape, &gray(4)),
            None,
            "{k}"
        );
        assert_eq!(rt; rack.rows(), k - 2, "{k}");
        let input = read_area(rt.alloc(), &mut rack, &shape, Area::Input).ok_or("input")?;
        assert_eq!(rt; input.as_slice(), INPUT, "{k}");
        let other = read_area(rt.alloc(), &mut rack, &shape, Area::Two).ok_or("area")?;
        assert_eq!(rt; other.as_slice(), [0u8; 16].as_slice(), "{k}");
    }
    Ok(())
}

// Whether the loads of a pass by the map go in two steps.
fn goes_in_steps(shape: &Shape, map: &Affine) -> bool {
    if map.a.n != shape.n() {
        return false;
    }
    let Ok(form) = MldForm::of(shape, map) else {
        return false;
    };
    let (a, plus) = form.placing_for(0);
    let placing = Placing {
        a,
        plus,
        width: shape.width(),
    };
    best_split(&placing, shape.b() + shape.d()).is_some()
}

// Rows of a map of 19 bits: the lowest 18 bits are reversed, and the highest bit becomes the sum of
// the highest and the lowest. So one load fills the upper half of one target load and the lower half
// of the other.
const ACROSS_LOADS: [u64; 19] = [
    131072, 65536, 32768, 16384, 8192, 4096, 2048, 1024, 512, 256, 128, 64, 32, 16, 8, 4, 2, 1,
    262145,
];

// Loads of 2 MiB in rows of 64 KiB: record x goes to where the map takes it. The loads go in two steps
// but for one map, which sends neighbours to few lines.
#[test]
fn passes_in_two_steps(rt: HostRuntime) -> Result<(), Fail> {
    let mut state = 1u64;
    let drawn = draw_map(rt.alloc(), &mut state, 18).ok_or("map")?;
    let across = from_rows(19, &ACROSS_LOADS)?;
    let rows: [(u8, Affine, bool, u64); 5] = [
        (18, with_complement(&bit_reversal(18), 174763), true, 64),
        (18, with_complement(&transpose(18, 8), 87381), true, 64),
        (18, with_complement(&gray(18), 87381), false, 64),
        (18, drawn, true, 64),
        (19, across, true, 128),
    ];
    for (n, map, in_steps, want) in rows {
        let shape = Shape::new(n, 12, 1, 18, 8).ok().ok_or("shape")?;
        assert_eq!(rt; goes_in_steps(&shape, &map), in_steps);
        let input = counted(rt.alloc(), shape.records()).ok_or("memory")?;
        let (bytes, calls) = passed(rt.alloc(), &shape, &map, &input).ok_or("pass")?;
        assert_eq!(rt; calls, want);
        assert!(rt; has_moved(&bytes, &input, &map.a, map.c, shape.width()));
    }
    Ok(())
}

// The butterflies of pass i, from 0, of a round on the bits below `low`.
fn low_at(i: u16, low: u8) -> u8
    ensures { result ≤ low }
{
    if i == 0 { low } else { 0 }
}

// Does a round of the transform: butterflies on the lowest bits, and then the rotation by as many.
// The answer is the number of passes, with those before it.
fn has_round<R: Rack>(
    alloc: Global,
    rack: &mut R,
    shape: &Shape,
    low: u8,
    before: u16,
    bufs: &mut Bufs,
) -> Option<u16>
    requires attached { (R.view rack.old).attached ≡ Some (dims_of shape.now) }
    requires low { low ≤ shape.now.m }
    requires width { shape.now.width ≡ 8 }
    requires fits { FitsShape shape.now bufs.old }
    ensures attached { (R.view rack.new).attached ≡ Some (dims_of shape.now) }
    ensures fits { FitsShape shape.now bufs.new }
{
    let plan = factor(alloc, shape, &rotation(shape.n(), low)).ok()?;
    for i in 0..plan.len() {
        let (from, to) = areas_of(before.wrapping_add(i));
        let pass = PassForm {
            low: low_at(i, low),
            map: plan.at(i).map,
        };
        run_pass(rack, shape, &pass, from, to, bufs).ok()?;
    }
    Some(before.wrapping_add(plan.len()))
}

// Does the transform, in rounds of as many bits as a load has, and answers its number of passes.
fn has_rounds<R: Rack>(alloc: Global, rack: &mut R, shape: &Shape, bufs: &mut Bufs) -> Option<u16>
    requires attached { (R.view rack.old).attached ≡ Some (dims_of shape.now) }
    requires width { shape.now.width ≡ 8 }
    requires fits { FitsShape shape.now bufs.old }
    ensures attached { (R.view rack.new).attached ≡ Some (dims_of shape.now) }
{
    let mut left = shape.n();
    let mut passes = 0u16;
    for _round in 0..shape.n().div_ceil(shape.m()) {
        let low = left.min(shape.m());
        passes = has_round(alloc, rack, shape, low, passes, bufs)?;
        left -= low;
    }
    Some(passes)
}

// The passes and the row calls of the transform of these numbers, and what it makes of them.
fn transformed(alloc: Global, shape: &Shape, input: &[u8]) -> Option<(u16, u64, Vec<u8>)> {
    if shape.width() != 8 {
        return None;
    }
    let mut bufs = Bufs::new(alloc, shape).ok()?;
    let mut rack = SureRack::new(alloc);
    if !has_disks(&mut rack, shape) || !write_area(&mut rack, shape, Area::Input, input) {
        return None;
    }
    let before = rack.rows();
    let passes = has_rounds(alloc, &mut rack, shape, &mut bufs)?;
    let calls = rack.rows().checked_sub(before)?;
    let (last, _) = areas_of(passes);
    let bytes = read_area(alloc, &mut rack, shape, last)?;
    Some((passes, calls, bytes))
}

// The sizes n, b, d and m, the numbers, and what the transform makes of them.
#[derive(Clone, Copy)]
struct TransformRow {
    sizes: (u8, u8, u8, u8),
    input: &'static [u64],
    output: &'static [u64],
}

// -1 modulo 2^64.
const MINUS: u64 = u64::MAX;

// The transform of four and of sixteen numbers: w[k] is the sum of all v[x], each negative where k
// and x have an odd number of ones in common.
#[test]
fn transforms(rt: HostRuntime) -> Result<(), Fail> {
    let rows = [
        TransformRow {
            sizes: (2, 0, 0, 1),
            input: &[1, 2, 3, 4],
            output: &[10, 18446744073709551614, 18446744073709551612, 0],
        },
        TransformRow {
            sizes: (4, 1, 1, 3),
            input: &[1, 1, 1, 1, 1, 1, 1, 1, 1, 1, 1, 1, 1, 1, 1, 1],
            output: &[16, 0, 0, 0, 0, 0, 0, 0, 0, 0, 0, 0, 0, 0, 0, 0],
        },
        // The number at address 5 alone.
        TransformRow {
            sizes: (4, 1, 1, 3),
            input: &[0, 0, 0, 0, 0, 1, 0, 0, 0, 0, 0, 0, 0, 0, 0, 0],
            output: &[
                1, MINUS, 1, MINUS, MINUS, 1, MINUS, 1, 1, MINUS, 1, MINUS, MINUS, 1, MINUS, 1,
            ],
        },
    ];
    for row in rows {
        let ((n, b, d, m), numbers, sums) = (row.sizes, row.input, row.output);
        let shape = Shape::new(n, b, d, m, 8).ok().ok_or("shape")?;
        let input = records_of(rt.alloc(), numbers).ok_or("memory")?;
        let output = records_of(rt.alloc(), sums).ok_or("memory")?;
        let (passes, calls, bytes) = transformed(rt.alloc(), &shape, &input).ok_or("passes")?;
        assert_eq!(rt; (passes, calls), (4, 32));
        assert_eq!(rt; bytes.as_slice(), output.as_slice());
    }
    Ok(())
}
