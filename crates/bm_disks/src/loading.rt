//! Loading records.

ghost use Rattle.std.specs.Prelude.{◌≡◌, ◌+◌, ◌*◌, ◌^◌, ◌≤◌, length, Some, IsTrue, IsOk, IsErrOf, OnOk, IfErr};
ghost use Rattle.bm_base.specs.Count.{Rose};
ghost use Rattle.bm_base.specs.Shape.{dims_of, stripes};
ghost use Rattle.bm_bufs.specs.Bufs.{FitsShape};
ghost use Rattle.bm_rack.specs.RackView.{IsClean};
ghost use Rattle.bm_rack.specs.Image.{InEveryImage};
ghost use Rattle.bm_rack.specs.Frames.{RackCall};
ghost use Rattle.bm_control.specs.Sound.{IsSound};
ghost use Rattle.bm_rack.specs.Frames.{MakesCalls};
ghost use Rattle.bm_base.specs.Shape.{input_size};
ghost use Rattle.bm_disks.specs.Input.{IsRead, InputAnswer, IsInputRefusal};
ghost use Rattle.bm_disks.specs.Loading.{AreGatesClosed, HasLoad, HoldsInput, IsLoadingUnit, LoadCalls};
ghost use Rattle.bm_disks.specs.Loading.{OpensWhole};

use crate::gate_closing::shut_gates;
use crate::input_loads::read_input;
use crate::load_error::LoadError;
use bm_base::Shape;
use bm_bufs::Bufs;
use bm_control::open_load;
use bm_rack::{Rack, Source};

/// Loads N records of the source into the area of the input, and makes them the rack's input.
///
/// The rack is attached with the shape's dims. It syncs, closes the job gate and the load gate
/// where they are open, moves the records through the load list, asks the source for one byte
/// more, and opens the load gate. No body of the control file is looked at, so it mends any slate.
/// It takes no memory.
///
/// `DataShort` exactly where the source ended before N records, `DataLong` exactly where a byte
/// came after them; `DataFault` and `Failed` only where a call of the source or the rack failed.
/// After the first three both gates are closed, and after all answers but `Failed` the rack is
/// sound, whatever stood there before. A rack that was sound is sound at each exit. An image of it
/// with the load gate open has the N records of an input that held just these; or it has the load
/// of before, and then the load gate was open in some image before.
pub fn load_records<R: Rack, S: Source>(
    rack: &mut R,
    shape: &Shape,
    input: &mut S,
    bufs: &mut Bufs,
) -> Result<(), LoadError>
    requires attached { (R.view rack.old).attached ≡ Some (dims_of shape.now) }
    requires fits { FitsShape shape.now bufs.old }

    // the source
    ensures answer { InputAnswer S.tells (input_size shape.now)
        (S.left input.old) (S.left input.new) result }
    ensures few { IsTrue S.tells
        → IsRead (input_size shape.now + 1) (S.left input.old) (S.left input.new) }
    ensures data_fault { result ≡ Err LoadError.DataFault
        → Rose (S.faults input.old) (S.faults input.new) }
    ensures data_faults { S.faults input.old ≤ S.faults input.new }

    // what stands then
    ensures records { IsTrue S.tells → IsTrue R.tells_contents
        → OnOk result (HoldsInput shape.now (S.left input.old) (R.view rack.new).contents) }
    ensures gates { IsTrue R.tells_contents
        → OnOk result (HasLoad shape.now (R.view rack.old).contents (R.view rack.new).contents) }
    ensures clean { OnOk result (IsClean (R.view rack.new)) }
    ensures closed { IsTrue R.tells_contents
        → IfErr result (λ e. IsInputRefusal e → AreGatesClosed (R.view rack.new)) }
    ensures sound { IsTrue R.tells_stands → IsTrue R.tells_contents
        → IsSound (R.view rack.old) → IsSound (R.view rack.new) }
    ensures mended { IsTrue R.tells_stands → IsTrue R.tells_contents
        → ¬ IsErrOf result LoadError.Failed → IsSound (R.view rack.new) }
    ensures opened { IsTrue S.tells → IsTrue R.tells_stands → IsTrue R.tells_contents
        → IsSound (R.view rack.old)
        → InEveryImage (OpensWhole shape.now (S.left input.old) (R.view rack.old))
        (R.view rack.new) }

    // the calls
    ensures call { RackCall (IsLoadingUnit shape.now) (IsErrOf result LoadError.Failed)
        (R.view rack.old) (R.view rack.new) }
    ensures counts { MakesCalls (IsOk result) (stripes shape.now) 6 5
        (R.view rack.old) (R.view rack.new) }
    ensures exact { IsTrue R.tells_contents → IsOk result
        → LoadCalls shape.now (R.view rack.old).contents (R.view rack.old) (R.view rack.new) }
    ensures fits { FitsShape shape.now bufs.new }

    // an input of the right length is loaded where no call failed
    ensures complete { IsTrue S.tells → length (S.left input.old) ≡ input_size shape.now
        → ¬ Rose (R.view rack.old).faults (R.view rack.new).faults
        → ¬ Rose (S.faults input.old) (S.faults input.new) → IsOk result }
{
    shut_gates(rack)?;
    match read_input(rack, shape, input, bufs.load_mut()) {
        Ok(()) => Ok(open_load(rack, shape)?),
        Err(error) => Err(error),
    }
}
