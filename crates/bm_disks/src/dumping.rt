//! The records of an area, load by load, to a sink.

ghost use Rattle.std.specs.Prelude.{◌≡◌, ℕ, ◌*◌, ◌^◌, ◌≤◌, ◌++◌, length, Some, IsTrue, IsOk};
ghost use Rattle.bm_base.specs.Count.{Rose};
ghost use Rattle.bm_base.specs.Shape.{dims_of, stripes};
ghost use Rattle.bm_bufs.specs.Bufs.{FitsShape};
ghost use Rattle.bm_rack.specs.Frames.{SameState, Keeps, HasCause};
ghost use Rattle.bm_rack.specs.Sink.{AppendsFront};
ghost use Rattle.bm_disks.specs.Dumping.{area_bytes};
ghost use Rattle.bm_base.specs.Shape.{load_size};
ghost use Rattle.bm_rack.specs.Frames.{MovesRows};

use bm_base::{Area, Shape};
use bm_bufs::Bufs;
use bm_rack::{Rack, Sink, write_all_of};
use bm_stripe::read_load;

/// Why an area was not written out.
#[derive(Clone, Copy, Debug, PartialEq, Eq)]
pub enum DumpError {
    /// The rack failed.
    Failed,
    /// A write of the sink failed.
    SinkFault,
}

// `dump_records` through a buffer of one load.
fn dump_loads<R: Rack, K: Sink>(
    rack: &mut R,
    shape: &Shape,
    area: Area,
    out: &mut K,
    buf: &mut [u8],
) -> Result<(), DumpError>
    requires attached { (R.view rack.old).attached ≡ Some (dims_of shape.now) }
    requires size { length buf.old ≡ load_size shape.now }

    ensures done { IsTrue K.tells → IsTrue R.tells_contents → IsOk result → K.taken out.new
        ≡ K.taken out.old ++ area_bytes (R.view rack.old).contents shape.now area }
    ensures front { IsTrue K.tells → IsTrue R.tells_contents
        → AppendsFront (K.taken out.old) (K.taken out.new)
        (area_bytes (R.view rack.old).contents shape.now area) }
    ensures sink_fault { result ≡ Err DumpError.SinkFault
        → Rose (K.faults out.old) (K.faults out.new) }
    ensures sink_faults { K.faults out.old ≤ K.faults out.new }

    ensures state { SameState (R.view rack.old) (R.view rack.new) }
    ensures moved { MovesRows (stripes shape.now) (IsOk result)
        (R.view rack.old) (R.view rack.new) }
    ensures keeps { Keeps (R.view rack.old) (R.view rack.new) }
    ensures cause { HasCause (result ≡ Err DumpError.Failed) (R.view rack.old) (R.view rack.new) }
{
    for load in 0..shape.loads() {
        if read_load(rack, shape, area, load, buf).is_err() {
            return Err(DumpError::Failed);
        }
        if write_all_of(out, buf).is_err() {
            return Err(DumpError::SinkFault);
        }
    }
    Ok(())
}

/// Writes the records of an area to the sink in order of address, each memory load as one piece.
///
/// The rack is attached with the shape's dims. It makes N/BD row calls and takes no memory. It
/// stops at the first call that fails; the sink then has a front of the records' bytes.
pub fn dump_records<R: Rack, K: Sink>(
    rack: &mut R,
    shape: &Shape,
    area: Area,
    out: &mut K,
    bufs: &mut Bufs,
) -> Result<(), DumpError>
    requires attached { (R.view rack.old).attached ≡ Some (dims_of shape.now) }
    requires fits { FitsShape shape.now bufs.old }

    // the sink
    ensures done { IsTrue K.tells → IsTrue R.tells_contents → IsOk result → K.taken out.new
        ≡ K.taken out.old ++ area_bytes (R.view rack.old).contents shape.now area }
    ensures front { IsTrue K.tells → IsTrue R.tells_contents
        → AppendsFront (K.taken out.old) (K.taken out.new)
        (area_bytes (R.view rack.old).contents shape.now area) }
    ensures sink_fault { result ≡ Err DumpError.SinkFault
        → Rose (K.faults out.old) (K.faults out.new) }
    ensures sink_faults { K.faults out.old ≤ K.faults out.new }

    // the rack
    ensures state { SameState (R.view rack.old) (R.view rack.new) }
    ensures moved { MovesRows (stripes shape.now) (IsOk result)
        (R.view rack.old) (R.view rack.new) }
    ensures keeps { Keeps (R.view rack.old) (R.view rack.new) }
    ensures cause { HasCause (result ≡ Err DumpError.Failed) (R.view rack.old) (R.view rack.new) }
    ensures fits { FitsShape shape.now bufs.new }
{
    dump_loads(rack, shape, area, out, bufs.load_mut())
}
