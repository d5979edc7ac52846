//! The last areas of bays, written in order.

ghost use Rattle.std.specs.Prelude.{◌≡◌, ◌<◌, length, map};
ghost use Rattle.bm_bufs.specs.Bufs.{FitsShape};
ghost use Rattle.bm_batch.specs.Batches.{AreAllAttached};
ghost use Rattle.bm_batch.specs.declared.bay_slot.BaySlot.{BaySlot};
ghost use Rattle.bm_top.specs.Moment.{sink_of};
ghost use Rattle.bm_batch_call.specs.Dumping.{AreFinished, DumpsCall, passes_at};

use bm_base::{Shape, area_of};
use bm_batch::Batch;
use bm_bufs::Bufs;
use bm_disks::{DumpError, dump_records};
use bm_rack::{Rack, Sink};

// The passes of a bay that is Finished: its loads are N/M for each of them.
fn passes_of(batch: &Batch, bay: u16, shape: &Shape) -> u16
    requires below { bay < length batch.now.slots }
    requires shape { batch.now.shape ≡ shape.now }
    requires finished { AreFinished batch.now.slots }
    ensures { (d : BaySlot) → result ≡ passes_at batch.now.slots d bay }
{
    (batch.moved(bay) / shape.loads()) as u16
}

/// Writes the records of the last area of each bay, in order of bays. Each is Finished, and attached
/// with the shape's dims.
pub fn dump_bays<Y: Rack, K: Sink>(
    batch: &Batch,
    shape: &Shape,
    bays: &mut [Y],
    out: &mut K,
    bufs: &mut Bufs,
) -> Result<(), DumpError>
    requires shape { batch.now.shape ≡ shape.now }
    requires many { length bays.old ≡ length batch.now.slots }
    requires finished { AreFinished batch.now.slots }
    requires attached { AreAllAttached shape.now (map Y.view bays.old) }
    requires fits { FitsShape shape.now bufs.old }
    ensures { (d : BaySlot) → DumpsCall K.tells Y.tells_contents shape.now
        (passes_at batch.now.slots d)
        (sink_of (K.taken out.old) (K.faults out.old)) (map Y.view bays.old) result
        (sink_of (K.taken out.new) (K.faults out.new)) (map Y.view bays.new) }
{
    for bay in 0..batch.count() {
        let area = area_of(passes_of(batch, bay, shape));
        match dump_records(&mut bays[usize::from(bay)], shape, area, out, bufs) {
            Ok(()) => {}
            Err(error) => return Err(error),
        }
    }
    Ok(())
}
