//! Areas of a rack, written and read as one list of bytes.

ghost use Rattle.std.specs.Prelude.{◌≡◌, ◌≢◌, IsTrue, Some};
ghost use Rattle.bm_base.specs.Shape.{dims_of};

use bm_base::{Area, Shape};
use bm_rack::{Found, Rack};
use bm_stripe::{read_load, write_load};
use std::alloc::Global;

/// The areas that pass number i, from 0, reads and writes.
pub fn areas_of(i: u16) -> (Area, Area)
    ensures { result.0 ≢ result.1 }
{
    if i == 0 {
        (Area::Input, Area::One)
    } else if i % 2 == 1 {
        (Area::One, Area::Two)
    } else {
        (Area::Two, Area::One)
    }
}

/// Attaches the disks of a shape, where disks of its dims stand.
pub fn is_attached<R: Rack>(rack: &mut R, shape: &Shape) -> bool
    ensures attached { IsTrue result → (R.view rack.new).attached ≡ Some (dims_of shape.now) }
    ensures steady { IsTrue (R.view rack.old).steady → IsTrue (R.view rack.new).steady }
{
    match rack.attach(&shape.dims()) {
        Ok(Found::Ready) => true,
        _ => false,
    }
}

/// Makes the disks of a shape and attaches them.
pub fn has_disks<R: Rack>(rack: &mut R, shape: &Shape) -> bool
    ensures attached { IsTrue result → (R.view rack.new).attached ≡ Some (dims_of shape.now) }
    ensures steady { IsTrue (R.view rack.old).steady → IsTrue (R.view rack.new).steady }
{
    rack.create(&shape.dims()).is_ok() && is_attached(rack, shape)
}

/// Writes an area, where the bytes are those of its loads and no call fails.
pub fn write_area<R: Rack>(rack: &mut R, shape: &Shape, area: Area, bytes: &[u8]) -> bool
    requires { (R.view rack.old).attached ≡ Some (dims_of shape.now) }
    ensures attached { (R.view rack.new).attached ≡ Some (dims_of shape.now) }
    ensures steady { IsTrue (R.view rack.old).steady → IsTrue (R.view rack.new).steady }
{
    let mut rest = bytes;
    for load in 0..shape.loads() {
        let Some((part, later)) = rest.split_at_checked(shape.load_bytes()) else {
            return false;
        };
        if write_load(rack, shape, area, load, part).is_err() {
            return false;
        }
        rest = later;
    }
    rest.is_empty()
}

/// The bytes of an area, where memory is given and no call fails.
pub fn read_area<R: Rack>(alloc: Global, rack: &mut R, shape: &Shape, area: Area) -> Option<Vec<u8>>
    requires { (R.view rack.old).attached ≡ Some (dims_of shape.now) }
    ensures { (R.view rack.new).attached ≡ Some (dims_of shape.now) }
{
    let mut buf = vec![in alloc; 0u8; shape.load_bytes()].ok()?;
    let mut bytes = Vec::new(alloc);
    for load in 0..shape.loads() {
        if read_load(rack, shape, area, load, &mut buf).is_err() {
            return None;
        }
        bytes.extend_from_slice(&buf).ok()?;
    }
    Some(bytes)
}
