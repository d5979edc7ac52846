//! Passes over an area of one load, on disks in memory.

ghost use Rattle.std.specs.Prelude.{◌≡◌, ◌+◌, ◌-◌, ◌*◌, ◌^◌, ◌<◌, ◌≤◌, IfOk, Some, length};
ghost use Rattle.bm_base.specs.Shape.{dims_of};
ghost use Rattle.bm_bufs.specs.Bufs.{FitsShape};
ghost use Rattle.bm_forms.specs.PassForm.{IsOfShape};
ghost use Rattle.bm_speed.specs.Placed.{IsOneLoad};

use crate::map_name::MapName;
use crate::pattern::fill;
use crate::placed::buffers_for;
use crate::sizes::Sizes;
use crate::stopwatch::{nanoseconds_used, print_line};
use bm_base::{Area, Shape};
use bm_bufs::Bufs;
use bm_forms::{MldForm, PassForm};
use bm_memrack::SureRack;
use bm_pass::run_pass;
use bm_rack::{Found, Rack};
use bm_stripe::{read_load, write_load};
use std::io;
use std::io::ErrorKind;
use std::time::CpuClock;

// lg of the disks.
const DISK_BITS: u8 = 2;

// The shape of one load on four disks, for records of `2 ^ width_bits` bytes.
fn one_load(sizes: Sizes, width_bits: u8) -> io::Result<Shape>
    requires { width_bits ≤ 6 }
    ensures { IfOk result IsOneLoad }
{
    let m = sizes.load_bits - width_bits;
    let b = sizes.row_bits - width_bits - DISK_BITS;
    Shape::new(m, b, DISK_BITS, m, 1 << width_bits).map_err(|_| io::Error::from(
        ErrorKind::InvalidInput,
    ))
}

// The pass by a map.
fn pass_for(name: MapName, shape: &Shape) -> io::Result<PassForm>
    requires { IsOneLoad shape.now }
    ensures { IfOk result (IsOfShape shape.now) }
{
    let map = name.map(shape.n());
    match MldForm::of(shape, &map) {
        Ok(map) => Ok(PassForm { low: 0, map }),
        Err(_) => Err(io::Error::from(ErrorKind::InvalidInput)),
    }
}

// Makes the disks, and attaches them.
fn make_disks<R: Rack>(rack: &mut R, shape: &Shape) -> io::Result<()>
    ensures { IfOk result (λ _. (R.view rack.new).attached ≡ Some (dims_of shape.now)) }
{
    if rack.create(&shape.dims()).is_err() {
        return Err(io::Error::from(ErrorKind::OutOfMemory));
    }
    match rack.attach(&shape.dims()) {
        Ok(Found::Ready) => Ok(()),
        _ => Err(io::Error::from(ErrorKind::NotFound)),
    }
}

// Writes the pattern into the input.
fn write_input<R: Rack>(rack: &mut R, shape: &Shape, bytes: &mut [u8]) -> io::Result<()>
    requires attached { (R.view rack.old).attached ≡ Some (dims_of shape.now) }
    requires size { length bytes.old ≡ 2 ^ shape.now.m * shape.now.width }
    ensures attached { (R.view rack.new).attached ≡ Some (dims_of shape.now) }
    ensures size { length bytes.new ≡ length bytes.old }
{
    fill(bytes, 0);
    write_load(rack, shape, Area::Input, 0, bytes).map_err(|_| io::Error::from(ErrorKind::Other))
}

// Does the pass from the input to the first area, and returns the nanoseconds.
fn time_pass<R: Rack>(
    rt: &impl CpuClock,
    rack: &mut R,
    shape: &Shape,
    pass: &PassForm,
    bufs: &mut Bufs,
) -> io::Result<u64>
    requires attached { (R.view rack.old).attached ≡ Some (dims_of shape.now) }
    requires pass { IsOfShape shape.now pass.now }
    requires fits { FitsShape shape.now bufs.old }
    ensures attached { (R.view rack.new).attached ≡ Some (dims_of shape.now) }
{
    let start = nanoseconds_used(rt)?;
    let done = run_pass(rack, shape, pass, Area::Input, Area::One, bufs);
    let end = nanoseconds_used(rt)?;
    match done {
        Ok(()) => Ok(end.saturating_sub(start)),
        Err(_) => Err(io::Error::from(ErrorKind::Other)),
    }
}

// Does a pass over the pattern on new disks, and leaves what came out in `bytes`. Returns the
// nanoseconds of the pass.
fn pass_pattern<R: Rack>(
    rt: &impl CpuClock,
    rack: &mut R,
    shape: &Shape,
    pass: &PassForm,
    bufs: &mut Bufs,
    bytes: &mut [u8],
) -> io::Result<u64>
    requires pass { IsOfShape shape.now pass.now }
    requires fits { FitsShape shape.now bufs.old }
    requires size { length bytes.old ≡ 2 ^ shape.now.m * shape.now.width }
{
    make_disks(rack, shape)?;
    write_input(rack, shape, bytes)?;
    let spent = time_pass(rt, rack, shape, pass, bufs)?;
    match read_load(rack, shape, Area::One, 0, bytes) {
        Ok(()) => Ok(spent),
        Err(_) => Err(io::Error::from(ErrorKind::Other)),
    }
}

/// Does a pass over a load of records of `2 ^ width_bits` bytes, and prints its line.
pub fn pass(rt: &HostRuntime, sizes: Sizes, name: MapName, width_bits: u8) -> io::Result<()>
    requires { width_bits ≤ 6 }
{
    let shape = one_load(sizes, width_bits)?;
    let form = pass_for(name, &shape)?;
    let mut bufs = buffers_for(rt.alloc(), &shape)?;
    let mut bytes = vec![in rt.alloc(); 0u8; shape.load_bytes()]?;
    let mut rack = SureRack::new(rt.alloc());
    let spent = pass_pattern(rt, &mut rack, &shape, &form, &mut bufs, &mut bytes)?;
    print_line(
        rt,
        sizes,
        "pass",
        name,
        shape.width(),
        bytes.as_slice(),
        spent,
    )
}
