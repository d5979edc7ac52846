//! Lists of four addresses, in two loads of two.

ghost use Rattle.std.specs.Prelude.{◌≡◌, Some};
ghost use Rattle.bm_base.specs.Shape.{dims_of};

use bm_base::{Area, Shape};
use bm_bufs::Bufs;
use bm_detect::{DetectError, detect};
use bm_gf2::Affine;
use bm_memrack::SureRack;
use bm_named::{from_rows, identity, with_complement};
use bm_rack::Rack;
use bm_stripe::write_load;
use std::alloc::Global;
use std::test::Fail;
use test_helpers::has_disks;

// Writes a load of two small numbers.
fn has_written<R: Rack>(rack: &mut R, shape: &Shape, load: u64, one: u8, other: u8) -> bool
    requires { (R.view rack.old).attached ≡ Some (dims_of shape.now) }
    ensures { (R.view rack.new).attached ≡ Some (dims_of shape.now) }
{
    let bytes = [one, 0, 0, 0, 0, 0, 0, 0, other, 0, 0, 0, 0, 0, 0, 0];
    if load >= shape.loads() || bytes.len() != shape.load_bytes() {
        return false;
    }
    write_load(rack, shape, Area::Input, load, &bytes).is_ok()
}

// What is detected of a list on attached disks. Nothing where it could not be written.
fn detected<R: Rack>(
    alloc: Global,
    rack: &mut R,
    shape: &Shape,
    list: [u8; 4],
) -> Option<Result<Affine, DetectError>>
    requires attached { (R.view rack.old).attached ≡ Some (dims_of shape.now) }
    requires width { shape.now.width ≡ 8 }
{
    let [first, second, third, fourth] = list;
    if !has_written(rack, shape, 0, first, second) || !has_written(rack, shape, 1, third, fourth) {
        return None;
    }
    let Ok(mut bufs) = Bufs::new(alloc, shape) else {
        return None;
    };
    Some(detect(rack, shape, &mut bufs))
}

// The same on new disks.
fn found(alloc: Global, list: [u8; 4]) -> Option<Result<Affine, DetectError>> {
    let shape = Shape::new(2, 0, 0, 1, 8).ok()?;
    if shape.width() != 8 {
        return None;
    }
    let mut rack = SureRack::new(alloc);
    if !has_disks(&mut rack, &shape) {
        return None;
    }
    detected(alloc, &mut rack, &shape, list)
}

// What each list is, or why it is no affine permutation.
#[test]
fn lists_of_addresses(rt: HostRuntime) -> Result<(), Fail> {
    let rows = [
        ([0, 2, 1, 3], Ok(from_rows(2, &[2, 1])?)),
        ([0, 1, 3, 2], Ok(from_rows(2, &[3, 2])?)),
        ([1, 0, 3, 2], Ok(with_complement(&identity(2), 1))),
        (
            [0, 1, 2, 2],
            Err(DetectError::NotAffine {
                x: 3,
                y: 2,
                want: 3,
            }),
        ),
        ([1, 1, 1, 1], Err(DetectError::Singular { x: 1 })),
        ([0, 1, 2, 4], Err(DetectError::OutOfRange { x: 3, y: 4 })),
        ([0, 2, 1, 4], Err(DetectError::OutOfRange { x: 3, y: 4 })),
    ];
    for (list, want) in rows {
        assert_eq!(rt; found(rt.alloc(), list), Some(want), "{list:?}");
    }
    Ok(())
}
