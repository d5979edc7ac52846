//! Making and attaching the disks of a shape.

ghost use Rattle.std.specs.Prelude.{◌≡◌, Some, None, IsOk, IsErr, IsTrue, IfErr};
ghost use Rattle.bm_rack.specs.Frames.{SameDisks, RaisesCounts, Keeps, HasCause};
ghost use Rattle.bm_top.specs.Disks.{NewDisks, AttachRefusal, CreateRefusal};
ghost use Rattle.bm_top.specs.Disks.{DisksRefusal, disks_status};

use crate::Status;
use bm_base::Dims;
use bm_rack::{AttachError, CreateError, Found, Rack};

/// Why the disks aren't ready.
#[derive(Clone, Copy, Debug, PartialEq, Eq)]
pub enum DisksError {
    /// The rack failed.
    RackFault,
    /// Memory was refused.
    OutOfMemory,
    /// Something stands where the disks were to be made.
    Exists,
    /// Nothing stands where the disks should be.
    NoDisks,
    /// Something else stands than disks of these sizes.
    WrongDims,
}

/// The answer of a command whose disks aren't ready.
pub fn disks_status(error: DisksError) -> Status
    ensures { result ≡ disks_status error }
{
    match error {
        DisksError::RackFault => Status::RackFault,
        DisksError::OutOfMemory => Status::OutOfMemory,
        DisksError::Exists => Status::Exists,
        DisksError::NoDisks => Status::NoDisks,
        DisksError::WrongDims => Status::WrongDims,
    }
}

/// Makes disks of zeros where nothing stands. They are not attached yet.
pub fn create_disks<R: Rack>(rack: &mut R, dims: &Dims) -> Result<(), DisksError>
    ensures made { IsOk result
        → NewDisks R.tells_stands R.tells_contents dims.now (R.view rack.old) (R.view rack.new) }
    ensures refusal { IfErr result (λ e. CreateRefusal R.tells_stands (R.view rack.old) e) }
    ensures same { IsErr result → SameDisks (R.view rack.old) (R.view rack.new) }
    ensures unattached { (R.view rack.new).attached ≡ None }
    ensures counts { RaisesCounts 0 0 0 (R.view rack.old) (R.view rack.new) }
    ensures keeps { Keeps (R.view rack.old) (R.view rack.new) }
    ensures cause { HasCause (result ≡ Err DisksError.RackFault) (R.view rack.old) (R.view rack.new) }
{
    match rack.create(dims) {
        Ok(()) => Ok(()),
        Err(CreateError::Failed) => Err(DisksError::RackFault),
        Err(CreateError::Present) => Err(DisksError::Exists),
        Err(CreateError::OutOfMemory) => Err(DisksError::OutOfMemory),
    }
}

/// Attaches the disks of these sizes that stand.
pub fn attach_disks<R: Rack>(rack: &mut R, dims: &Dims) -> Result<(), DisksError>
    ensures attached { IsOk result → (R.view rack.new).attached ≡ Some dims.now }
    ensures unattached { IsErr result → (R.view rack.new).attached ≡ None }
    ensures stood { IsTrue R.tells_stands → IsOk result → (R.view rack.old).stands ≡ Some dims.now }
    ensures refusal { IfErr result (λ e. AttachRefusal R.tells_stands dims.now (R.view rack.old) e) }
    ensures same { SameDisks (R.view rack.old) (R.view rack.new) }
    ensures counts { RaisesCounts 0 0 0 (R.view rack.old) (R.view rack.new) }
    ensures keeps { Keeps (R.view rack.old) (R.view rack.new) }
    ensures cause { HasCause (result ≡ Err DisksError.RackFault) (R.view rack.old) (R.view rack.new) }
{
    match rack.attach(dims) {
        Ok(Found::Ready) => Ok(()),
        Ok(Found::Absent) => Err(DisksError::NoDisks),
        Ok(Found::Other) => Err(DisksError::WrongDims),
        Err(AttachError::Failed) => Err(DisksError::RackFault),
        Err(AttachError::OutOfMemory) => Err(DisksError::OutOfMemory),
    }
}

/// Makes disks of zeros where nothing stands, and attaches them.
pub fn new_disks<R: Rack>(rack: &mut R, dims: &Dims) -> Result<(), DisksError>
    ensures made { IsOk result
        → NewDisks R.tells_stands R.tells_contents dims.now (R.view rack.old) (R.view rack.new) }
    ensures attached { IsOk result → (R.view rack.new).attached ≡ Some dims.now }
    ensures unattached { IsErr result → (R.view rack.new).attached ≡ None }
    ensures refusal { IfErr result (λ e.
        DisksRefusal R.tells_stands R.tells_contents dims.now (R.view rack.old) (R.view rack.new) e) }
    ensures counts { RaisesCounts 0 0 0 (R.view rack.old) (R.view rack.new) }
    ensures keeps { Keeps (R.view rack.old) (R.view rack.new) }
    ensures cause { HasCause (result ≡ Err DisksError.RackFault) (R.view rack.old) (R.view rack.new) }
{
    create_disks(rack, dims)?;
    attach_disks(rack, dims)
}
