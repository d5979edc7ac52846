//! Bays that are made ready for their jobs.

ghost use Rattle.std.specs.Prelude.{◌≡◌, length, map};
ghost use Rattle.bm_bufs.specs.Bufs.{FitsShape};
ghost use Rattle.bm_top.specs.Moment.{Tells, source_of};
ghost use Rattle.bm_batch_call.specs.BatchCall.{PrepareCall};
ghost use Rattle.bm_batch_call.specs.Moment.{BatchDevices, Work};
ghost use Rattle.bm_batch_call.specs.declared.words.BatchVerb.{BatchVerb};

use crate::attaching::attach_bays;
use crate::filling::fill_bays;
use crate::opening::open_bays;
use crate::words::BatchVerb;
use bm_base::Shape;
use bm_bufs::Bufs;
use bm_disks::is_at_end;
use bm_rack::{Rack, Source};
use bm_top::Status;

// Makes and loads the bays. No load gate is opened before the byte after the whole input was asked
// for.
fn load_bays<Y: Rack, S: Source>(
    bays: &mut [Y],
    shape: &Shape,
    input: &mut S,
    bufs: &mut Bufs,
) -> Result<(), Status>
    requires { FitsShape shape.now bufs.old }
    ensures call { (t : Tells) (d : BatchDevices) (w : Work) → w.shape ≡ shape.now
        → w.count ≡ length bays.old → PrepareCall
        (record t { input = S.tells; stands = Y.tells_stands; contents = Y.tells_contents })
        BatchVerb.Batch w
        (record d { input = source_of (S.left input.old) (S.faults input.old); bays = map Y.view bays.old }) result
        (record d { input = source_of (S.left input.new) (S.faults input.new); bays = map Y.view bays.new }) }
    ensures fits { FitsShape shape.now bufs.new }
{
    match fill_bays(bays, shape, input, bufs) {
        Ok(()) => {}
        Err(status) => return Err(status),
    }
    match is_at_end(input) {
        Ok(true) => open_bays(bays, shape),
        Ok(false) => Err(Status::DataLong),
        Err(_) => Err(Status::DataFault),
    }
}

/// Makes the disks of each bay and loads it, or attaches them.
pub fn prepare_bays<Y: Rack, S: Source>(
    verb: BatchVerb,
    bays: &mut [Y],
    shape: &Shape,
    input: &mut S,
    bufs: &mut Bufs,
) -> Result<(), Status>
    requires { FitsShape shape.now bufs.old }
    ensures call { (t : Tells) (d : BatchDevices) (w : Work) → w.shape ≡ shape.now
        → w.count ≡ length bays.old → PrepareCall
        (record t { input = S.tells; stands = Y.tells_stands; contents = Y.tells_contents })
        verb w
        (record d { input = source_of (S.left input.old) (S.faults input.old); bays = map Y.view bays.old }) result
        (record d { input = source_of (S.left input.new) (S.faults input.new); bays = map Y.view bays.new }) }
    ensures fits { FitsShape shape.now bufs.new }
{
    match verb {
        BatchVerb::Batch => load_bays(bays, shape, input, bufs),
        BatchVerb::Run => attach_bays(bays, shape),
    }
}
