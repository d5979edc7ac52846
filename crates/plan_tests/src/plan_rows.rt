//! Plans of maps, run pass after pass over racks in memory.

ghost use Rattle.std.specs.Prelude.{◌≡◌, Some};
ghost use Rattle.bm_base.specs.Shape.{dims_of};
ghost use Rattle.bm_bufs.specs.Bufs.{FitsShape};

use bm_base::{Area, Shape};
use bm_bufs::Bufs;
use bm_factor::{FactorError, factor};
use bm_forms::Plan;
use bm_gf2::{Affine, Matrix};
use bm_memrack::SureRack;
use bm_named::{bit_reversal, from_rows, gray, identity, transpose};
use bm_pass::run_pass;
use bm_rack::Rack;
use std::alloc::Global;
use std::test::Fail;
use test_helpers::{GRAYED, INPUT, REVERSED, areas_of, has_disks, read_area, write_area};

// Does the passes of a plan in order, where no call fails.
fn has_run<R: Rack>(rack: &mut R, shape: &Shape, plan: &Plan, bufs: &mut Bufs) -> bool
    requires attached { (R.view rack.old).attached ≡ Some (dims_of shape.now) }
    requires plan { plan.now.shape ≡ shape.now }
    requires fits { FitsShape shape.now bufs.old }
    ensures { (R.view rack.new).attached ≡ Some (dims_of shape.now) }
{
    for i in 0..plan.len() {
        let (from, to) = areas_of(i);
        if run_pass(rack, shape, plan.at(i), from, to, bufs).is_err() {
            return false;
        }
    }
    true
}

// How many passes the plan of the map has, and the records that they make of the input.
fn planned(alloc: Global, shape: &Shape, map: &Affine, input: &[u8]) -> Option<(u16, Vec<u8>)> {
    if map.a.n != shape.n() {
        return None;
    }
    let plan = factor(alloc, shape, map).ok()?;
    let mut bufs = Bufs::new(alloc, shape).ok()?;
    let mut rack = SureRack::new(alloc);
    if !has_disks(&mut rack, shape) || !write_area(&mut rack, shape, Area::Input, input) {
        return None;
    }
    if !has_run(&mut rack, shape, &plan, &mut bufs) {
        return None;
    }
    let (last, _) = areas_of(plan.len());
    let bytes = read_area(alloc, &mut rack, shape, last)?;
    Some((plan.len(), bytes))
}

// The number of passes of each map, and the permuted list of its sixteen records of one byte, or four.
#[test]
fn plans_of_small_maps(rt: HostRuntime) -> Result<(), Fail> {
    let by_rows = from_rows(4, &[1, 2, 4, 10])?;
    let rows: [((u8, u8, u8, u8), Affine, u16, &[u8]); 8] = [
        ((4, 1, 1, 3), identity(4), 1, INPUT),
        ((4, 1, 1, 3), bit_reversal(4), 2, REVERSED),
        (
            (4, 1, 1, 3),
            by_rows,
            1,
            &[0, 1, 10, 11, 4, 5, 14, 15, 8, 9, 2, 3, 12, 13, 6, 7],
        ),
        ((4, 1, 1, 3), gray(4), 1, GRAYED),
        (
            (4, 1, 1, 3),
            transpose(4, 2),
            2,
            &[0, 4, 8, 12, 1, 5, 9, 13, 2, 6, 10, 14, 3, 7, 11, 15],
        ),
        ((4, 1, 0, 2), bit_reversal(4), 3, REVERSED),
        ((4, 1, 1, 4), bit_reversal(4), 1, REVERSED),
        ((2, 0, 0, 1), bit_reversal(2), 2, &[0, 2, 1, 3]),
    ];
    for ((n, b, d, m), map, passes, want) in rows {
        let shape = Shape::new(n, b, d, m, 1).ok().ok_or("shape")?;
        let input = INPUT.get(..want.len()).ok_or("input")?;
        let (count, bytes) = planned(rt.alloc(), &shape, &map, input).ok_or("plan")?;
        assert_eq!(rt;
            (count, bytes.as_slice() == want),
            (passes, true),
            "n {n} b {b} d {d} m {m}"
        );
    }
    Ok(())
}

// A singular map, and two maps of many records, which are planned at once.
#[test]
fn plans_of_large_maps(rt: HostRuntime) -> Result<(), Fail> {
    let shape = Shape::new(4, 1, 1, 3, 1).ok().ok_or("shape")?;
    let singular = Affine {
        a: Matrix::from_rows(4, &[3, 3, 4, 8]),
        c: 0,
    };
    let refusal = factor(rt.alloc(), &shape, &singular)
        .err()
        .ok_or("singular")?;
    assert_eq!(rt; refusal, FactorError::Singular { x: 3 });
    for (n, b, d, m, width) in [(48, 10, 3, 26, 8), (52, 12, 4, 28, 4)] {
        let shape = Shape::new(n, b, d, m, width).ok().ok_or("shape")?;
        let map = bit_reversal(shape.n());
        let plan = factor(rt.alloc(), &shape, &map).ok().ok_or("plan")?;
        assert_eq!(rt; plan.len(), 3, "n {n}");
    }
    Ok(())
}
