//! The steps of a drill: a new rack, its generated input, and the digest of an area.

ghost use Rattle.std.specs.Prelude.{◌≡◌, ℕ, ◌*◌, ◌^◌, length, Some, None, IsTrue, IsFalse, IsOk};
ghost use Rattle.std.specs.Prelude.{IsErr, IfOk, OnOk};
ghost use Rattle.bm_base.specs.declared.area.Area.TheVariants.{Input};
ghost use Rattle.bm_base.specs.Records.{record_at, bytes_of, SameRecords};
ghost use Rattle.bm_base.specs.Shape.{dims_of, stripes, load_size};
ghost use Rattle.bm_rack.specs.Frames.{ChangesOnly, SameState, SameCalls, MovesRows, Keeps, HasCause};
ghost use Rattle.bm_stripe.specs.Units.{IsAreaUnit};
ghost use Rattle.sha2.specs.Sha256.{sha256};
ghost use Rattle.bm_drill.specs.Generated.{generated};
ghost use Rattle.bm_base.specs.Count.{raised};
ghost use Rattle.bm_bufs.specs.Bufs.{FitsShape};
ghost use Rattle.bm_drill.specs.Steps.{IsNewRack, HasGenerated};

use crate::generator::fill_load;
use bm_base::{Area, Dims, Failed, OutOfMemory, Shape};
use bm_bufs::Bufs;
use bm_control::open_load;
use bm_rack::{AttachError, CreateError, Found, Rack};
use bm_stripe::{read_load, write_load};
use sha2::{Digest, Sha256};

/// Makes and attaches a rack of zeros where nothing stands, on a steady rack with no stop ahead.
pub fn create_rack<R: Rack>(rack: &mut R, dims: &Dims) -> Result<(), OutOfMemory>
    requires tells { IsTrue R.tells_stands }
    requires empty { (R.view rack.old).stands ≡ None }
    requires steady { IsTrue (R.view rack.old).steady }
    requires going { IsFalse (R.view rack.old).stopping }
    ensures made { OnOk result (IsNewRack R.tells_contents dims.now (R.view rack.new)) }
    ensures calls { SameCalls (R.view rack.old) (R.view rack.new) }
    ensures keeps { Keeps (R.view rack.old) (R.view rack.new) }
{
    match rack.create(dims) {
        Ok(()) => {}
        Err(CreateError::OutOfMemory) => return Err(OutOfMemory),
        Err(CreateError::Failed | CreateError::Present) => unreachable!(),
    }
    match rack.attach(dims) {
        Ok(Found::Ready) => Ok(()),
        Err(AttachError::OutOfMemory) => Err(OutOfMemory),
        Ok(Found::Absent | Found::Other) | Err(AttachError::Failed) => unreachable!(),
    }
}

/// Writes the generated records to the input, through a buffer of one load, in N/BD row calls.
pub fn write_input<R: Rack>(
    rack: &mut R,
    shape: &Shape,
    start: u64,
    buf: &mut [u8],
) -> Result<(), Failed>
    requires attached { (R.view rack.old).attached ≡ Some (dims_of shape.now) }
    requires size { length buf.old ≡ load_size shape.now }
    ensures records { IsTrue R.tells_contents → IsOk result → SameRecords (2 ^ shape.now.n)
        (record_at (R.view rack.new).contents shape.now Area.Input)
        (generated shape.now.width start) }
    ensures only { ChangesOnly (IsAreaUnit shape.now Area.Input)
        (R.view rack.old) (R.view rack.new) }
    ensures moved { MovesRows (stripes shape.now) (IsOk result)
        (R.view rack.old) (R.view rack.new) }
    ensures keeps { Keeps (R.view rack.old) (R.view rack.new) }
    ensures cause { HasCause (IsErr result) (R.view rack.old) (R.view rack.new) }
{
    for load in 0..shape.loads() {
        fill_load(shape, load, start, buf);
        if write_load(rack, shape, Area::Input, load, buf).is_err() {
            return Err(Failed);
        }
    }
    Ok(())
}

/// Loads the generated records on a new rack that is steady with no stop ahead.
pub fn load_generated<R: Rack>(rack: &mut R, shape: &Shape, start: u64, bufs: &mut Bufs)
    requires tells { IsTrue R.tells_stands }
    requires tells_contents { IsTrue R.tells_contents }
    requires made { IsNewRack R.tells_contents (dims_of shape.now) (R.view rack.old) }
    requires steady { IsTrue (R.view rack.old).steady }
    requires going { IsFalse (R.view rack.old).stopping }
    requires fits { FitsShape shape.now bufs.old }
    ensures loaded { HasGenerated shape.now start (R.view rack.new) }
    ensures moves { (R.view rack.new).moves ≡ raised (R.view rack.old).moves (stripes shape.now) }
    ensures keeps { Keeps (R.view rack.old) (R.view rack.new) }
    ensures fits { FitsShape shape.now bufs.new }
{
    if write_input(rack, shape, start, bufs.load_mut()).is_err() {
        unreachable!();
    }
    if open_load(rack, shape).is_err() {
        unreachable!();
    }
}

/// The SHA-256 of an area's records in order of address, read through a buffer of one load in N/BD
/// row calls.
pub fn hash_area<R: Rack>(
    rack: &mut R,
    shape: &Shape,
    area: Area,
    buf: &mut [u8],
) -> Result<[u8; 32], Failed>
    requires attached { (R.view rack.old).attached ≡ Some (dims_of shape.now) }
    requires size { length buf.old ≡ load_size shape.now }
    ensures digest { IsTrue R.tells_contents → IfOk result (λ digest. digest
        ≡ sha256 (bytes_of (2 ^ shape.now.n)
        (record_at (R.view rack.old).contents shape.now area))) }
    ensures state { SameState (R.view rack.old) (R.view rack.new) }
    ensures moved { MovesRows (stripes shape.now) (IsOk result)
        (R.view rack.old) (R.view rack.new) }
    ensures keeps { Keeps (R.view rack.old) (R.view rack.new) }
    ensures cause { HasCause (IsErr result) (R.view rack.old) (R.view rack.new) }
{
    let mut hasher = Sha256::new();
    for load in 0..shape.loads() {
        if read_load(rack, shape, area, load, buf).is_err() {
            return Err(Failed);
        }
        hasher.update(&*buf);
    }
    Ok(hasher.finalize())
}
