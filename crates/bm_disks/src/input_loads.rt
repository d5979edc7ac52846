//! Records from a source into the area of the input, load by load.

ghost use Rattle.std.specs.Prelude.{◌≡◌, ◌≢◌, ℕ, ◌+◌, ◌*◌, ◌^◌, ◌≤◌, length, drop, Some, IsTrue, IsOk};
ghost use Rattle.bm_base.specs.Count.{Rose};
ghost use Rattle.bm_base.specs.Shape.{dims_of, stripes};
ghost use Rattle.bm_rack.specs.Frames.{ChangesOnly, Keeps, HasCause};
ghost use Rattle.bm_stripe.specs.Units.{IsAreaUnit};
ghost use Rattle.bm_base.specs.Shape.{input_size, load_size};
ghost use Rattle.bm_disks.specs.Input.{EndsAfter, IsRead, InputAnswer};
ghost use Rattle.bm_disks.specs.Loading.{HoldsInput};
ghost use Rattle.bm_rack.specs.Frames.{MovesRows};

use crate::load_error::LoadError;
use crate::source_bytes::{FillError, fill, is_at_end};
use bm_base::{Area, Shape};
use bm_rack::{Rack, Source};
use bm_stripe::write_load;

/// Moves N records from the source to the area of the input, through a buffer of one load. No byte
/// after them is asked for, and no gate is touched.
pub fn read_loads<R: Rack, S: Source>(
    rack: &mut R,
    shape: &Shape,
    input: &mut S,
    buf: &mut [u8],
) -> Result<(), LoadError>
    requires attached { (R.view rack.old).attached ≡ Some (dims_of shape.now) }
    requires size { length buf.old ≡ load_size shape.now }

    // the source
    ensures whole { IsTrue S.tells → IsOk result
        → input_size shape.now ≤ length (S.left input.old) }
    ensures taken { IsTrue S.tells → IsOk result
        → S.left input.new ≡ drop (input_size shape.now) (S.left input.old) }
    ensures short { (got : ℕ) → result ≡ Err (LoadError.DataShort got)
        → EndsAfter S.tells (input_size shape.now) (S.left input.old) (S.left input.new) got }
    ensures long { result ≢ Err LoadError.DataLong }
    ensures few { IsTrue S.tells
        → IsRead (input_size shape.now) (S.left input.old) (S.left input.new) }
    ensures data_fault { result ≡ Err LoadError.DataFault
        → Rose (S.faults input.old) (S.faults input.new) }
    ensures faults { S.faults input.old ≤ S.faults input.new }

    // the rack
    ensures records { IsTrue S.tells → IsTrue R.tells_contents → IsOk result
        → HoldsInput shape.now (S.left input.old) (R.view rack.new).contents }
    ensures only { ChangesOnly (IsAreaUnit shape.now Area.Input)
        (R.view rack.old) (R.view rack.new) }
    ensures moved { MovesRows (stripes shape.now) (IsOk result)
        (R.view rack.old) (R.view rack.new) }
    ensures keeps { Keeps (R.view rack.old) (R.view rack.new) }
    ensures cause { HasCause (result ≡ Err LoadError.Failed) (R.view rack.old) (R.view rack.new) }
{
    let size = shape.load_bytes() as u64;
    for load in 0..shape.loads() {
        match fill(input, buf) {
            Ok(()) => {}
            Err(FillError::Fault) => return Err(LoadError::DataFault),
            Err(FillError::Short { got }) => {
                return Err(LoadError::DataShort {
                    got: load * size + got as u64,
                });
            }
        }
        if write_load(rack, shape, Area::Input, load, buf).is_err() {
            return Err(LoadError::Failed);
        }
    }
    Ok(())
}

/// Moves all bytes of the source to the area of the input, as N records, through a buffer of one
/// load. After them it asks for one byte more.
pub fn read_input<R: Rack, S: Source>(
    rack: &mut R,
    shape: &Shape,
    input: &mut S,
    buf: &mut [u8],
) -> Result<(), LoadError>
    requires attached { (R.view rack.old).attached ≡ Some (dims_of shape.now) }
    requires size { length buf.old ≡ load_size shape.now }

    // the source
    ensures answer { InputAnswer S.tells (input_size shape.now)
        (S.left input.old) (S.left input.new) result }
    ensures few { IsTrue S.tells
        → IsRead (input_size shape.now + 1) (S.left input.old) (S.left input.new) }
    ensures data_fault { result ≡ Err LoadError.DataFault
        → Rose (S.faults input.old) (S.faults input.new) }
    ensures faults { S.faults input.old ≤ S.faults input.new }

    // the rack
    ensures records { IsTrue S.tells → IsTrue R.tells_contents → IsOk result
        → HoldsInput shape.now (S.left input.old) (R.view rack.new).contents }
    ensures only { ChangesOnly (IsAreaUnit shape.now Area.Input)
        (R.view rack.old) (R.view rack.new) }
    ensures moved { MovesRows (stripes shape.now) (IsOk result)
        (R.view rack.old) (R.view rack.new) }
    ensures keeps { Keeps (R.view rack.old) (R.view rack.new) }
    ensures cause { HasCause (result ≡ Err LoadError.Failed) (R.view rack.old) (R.view rack.new) }
{
    read_loads(rack, shape, input, buf)?;
    match is_at_end(input) {
        Ok(true) => Ok(()),
        Ok(false) => Err(LoadError::DataLong),
        Err(_) => Err(LoadError::DataFault),
    }
}
