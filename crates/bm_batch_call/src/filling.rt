//! Bays that are made, and filled from one input.

ghost use Rattle.std.specs.Prelude.{◌≡◌, map, Some};
ghost use Rattle.bm_base.specs.Shape.{dims_of};
ghost use Rattle.bm_bufs.specs.Bufs.{FitsShape};
ghost use Rattle.bm_top.specs.Moment.{Tells, source_of};
ghost use Rattle.bm_batch_call.specs.Bays.{FillCall};
ghost use Rattle.bm_batch_call.specs.Filling.{DisksFilled, FillsCall};

use bm_base::Shape;
use bm_bufs::Bufs;
use bm_disks::{LoadError, read_loads, shut_gates};
use bm_rack::{Rack, Source};
use bm_top::{Status, disks_status, load_status, new_disks};

// Loads records into disks that were just made, and opens no gate.
fn fill_disks<Y: Rack, S: Source>(
    rack: &mut Y,
    shape: &Shape,
    input: &mut S,
    bufs: &mut Bufs,
) -> Result<(), LoadError>
    requires attached { (Y.view rack.old).attached ≡ Some (dims_of shape.now) }
    requires fits { FitsShape shape.now bufs.old }
    ensures call { DisksFilled S.tells Y.tells_stands Y.tells_contents shape.now
        (source_of (S.left input.old) (S.faults input.old)) (Y.view rack.old) result
        (source_of (S.left input.new) (S.faults input.new)) (Y.view rack.new) }
    ensures fits { FitsShape shape.now bufs.new }
{
    match shut_gates(rack) {
        Ok(()) => read_loads(rack, shape, input, bufs.load_mut()),
        Err(_) => Err(LoadError::Failed),
    }
}

// Makes the disks of a bay, and loads its part of the input. No gate is opened.
fn fill_bay<Y: Rack, S: Source>(
    rack: &mut Y,
    shape: &Shape,
    input: &mut S,
    bufs: &mut Bufs,
) -> Result<(), Status>
    requires { FitsShape shape.now bufs.old }
    ensures call { (t : Tells) → FillCall
        (record t { input = S.tells; stands = Y.tells_stands; contents = Y.tells_contents }) shape.now
        (source_of (S.left input.old) (S.faults input.old)) (Y.view rack.old) result
        (source_of (S.left input.new) (S.faults input.new)) (Y.view rack.new) }
    ensures fits { FitsShape shape.now bufs.new }
{
    match new_disks(rack, &shape.dims()) {
        Ok(()) => match fill_disks(rack, shape, input, bufs) {
            Ok(()) => Ok(()),
            Err(error) => Err(load_status(error)),
        },
        Err(error) => Err(disks_status(error)),
    }
}

/// Makes the disks of each bay in order, and loads its part of the one input. No gate is opened, and
/// no byte after the parts is asked for.
pub fn fill_bays<Y: Rack, S: Source>(
    bays: &mut [Y],
    shape: &Shape,
    input: &mut S,
    bufs: &mut Bufs,
) -> Result<(), Status>
    requires { FitsShape shape.now bufs.old }
    ensures call { (t : Tells) → FillsCall
        (record t { input = S.tells; stands = Y.tells_stands; contents = Y.tells_contents }) shape.now
        (source_of (S.left input.old) (S.faults input.old)) (map Y.view bays.old) result
        (source_of (S.left input.new) (S.faults input.new)) (map Y.view bays.new) }
    ensures fits { FitsShape shape.now bufs.new }
{
    for bay in 0..bays.len() {
        match fill_bay(&mut bays[bay], shape, input, bufs) {
            Ok(()) => {}
            Err(status) => return Err(status),
        }
    }
    Ok(())
}
