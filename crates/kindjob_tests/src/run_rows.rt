//! Runs of the four kernels over four numbers in two loads.

ghost use Rattle.std.specs.Prelude.{◌≡◌, Some};
ghost use Rattle.bm_base.specs.Shape.{dims_of};

use bm_base::{Area, Shape, area_of};
use bm_bufs::Bufs;
use bm_kindjob::{KindError, KindName, kind_plan, run_kind};
use bm_kinds::{Differences, Kernel, Signs, Sums, Xors};
use bm_memrack::SureRack;
use bm_rack::Rack;
use std::alloc::Global;
use std::test::Fail;
use test_helpers::{has_disks, read_area, records_of, write_area};

// Runs a kernel on attached disks: the moves, and the bytes of the last area.
fn ran<K: Kernel, R: Rack>(
    alloc: Global,
    rack: &mut R,
    shape: &Shape,
    kernel: &K,
    set: u64,
) -> Option<(u64, Vec<u8>)>
    requires { (R.view rack.old).attached ≡ Some (dims_of shape.now) }
{
    if set >= 1 << shape.n() {
        return None;
    }
    let plan = kind_plan(alloc, shape).ok()?;
    let mut bufs = Bufs::new(alloc, shape).ok()?;
    let moves = run_kind(rack, shape, kernel, set, &plan, &mut bufs).ok()?;
    let bytes = read_area(alloc, rack, shape, area_of(plan.len()))?;
    Some((moves, bytes))
}

// The same of these numbers, on new disks.
fn made<K: Kernel>(
    alloc: Global,
    shape: &Shape,
    kernel: &K,
    set: u64,
    numbers: &[u64],
) -> Option<(u64, Vec<u8>)> {
    let input = records_of(alloc, numbers)?;
    let mut rack = SureRack::new(alloc);
    if !has_disks(&mut rack, shape) || !write_area(&mut rack, shape, Area::Input, &input) {
        return None;
    }
    ran(alloc, &mut rack, shape, kernel, set)
}

// A kernel, a set of bits of two, four numbers and what becomes of them.
const ROWS: [(KindName, u64, [u64; 4], [u64; 4]); 5] = [
    (KindName::Sums, 0b11, [1, 2, 3, 4], [1, 3, 4, 10]),
    (KindName::Differences, 0b11, [1, 3, 4, 10], [1, 2, 3, 4]),
    (KindName::Xors, 0b11, [1, 2, 3, 4], [1, 3, 2, 4]),
    (
        KindName::WalshBits,
        0b10,
        [1, 2, 3, 4],
        [4, 6, 18446744073709551614, 18446744073709551614],
    ),
    (KindName::Sums, 0, [1, 2, 3, 4], [1, 2, 3, 4]),
];

// The rows: four passes of eight parallel transfers each.
#[test]
fn runs_of_four_numbers(rt: HostRuntime) -> Result<(), Fail> {
    let alloc = rt.alloc();
    let shape = Shape::new(2, 0, 0, 1, 8).ok().ok_or("shape")?;
    for (name, set, numbers, expected) in ROWS {
        let result = match name {
            KindName::WalshBits => made(alloc, &shape, &Signs, set, &numbers),
            KindName::Sums => made(alloc, &shape, &Sums, set, &numbers),
            KindName::Differences => made(alloc, &shape, &Differences, set, &numbers),
            KindName::Xors => made(alloc, &shape, &Xors, set, &numbers),
        };
        let (moves, bytes) = result.ok_or("run")?;
        let records = records_of(alloc, &expected).ok_or("records")?;
        assert!(rt;
            bytes.as_slice() == records.as_slice(),
            "{name:?} over {set}"
        );
        assert_eq!(rt; moves, 32);
    }
    Ok(())
}

// Records that are no numbers of 8 bytes have no plan.
#[test]
fn other_widths_have_no_plan(rt: HostRuntime) -> Result<(), Fail> {
    let shape = Shape::new(2, 0, 0, 1, 4).ok().ok_or("shape")?;
    let refused = kind_plan(rt.alloc(), &shape).err();
    assert_eq!(rt; refused, Some(KindError::Width));
    Ok(())
}
