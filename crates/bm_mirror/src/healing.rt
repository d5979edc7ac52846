//! Taking a side in again.

ghost use Rattle.std.specs.Prelude.{◌≡◌, ◌&&◌, ◌⊎◌, ◌≤◌, ◌*◌, length, true, false, IsTrue, IsFalse, Some, None, Ok};
ghost use Rattle.bm_base.specs.Count.{Rose};
ghost use Rattle.bm_rack.specs.Frames.{Keeps};
ghost use Rattle.bm_mirror.specs.TwoSides.{two_sides};
ghost use Rattle.bm_mirror.specs.Healing.{HealedFrom, HealedTo, MirrorHeal};

use crate::copying::{CopyFault, copy_all};
use crate::sides::Sides;
use bm_base::{Dims, OutOfMemory};
use bm_rack::{AttachError, CreateError, Found, Rack};

/// What a heal came to.
#[derive(Clone, Copy, Debug, PartialEq, Eq)]
pub enum Healed {
    /// Both sides are in.
    Level,
    /// The side that was out could not be filled, and is out still.
    Apart,
}

/// Why a heal came to no end.
#[derive(Clone, Copy, Debug, PartialEq, Eq)]
pub enum HealError {
    /// The side that is in failed.
    Failed,
    /// Memory was refused.
    OutOfMemory,
}

// Makes a rack where nothing stood when it was looked for, attaches it, and says whether it is.
fn make<T: Rack>(rack: &mut T, dims: &Dims) -> Result<bool, OutOfMemory>
    ensures ready { result ≡ Ok true → (T.view rack.new).attached ≡ Some dims.now }
    ensures keeps { Keeps (T.view rack.old) (T.view rack.new) }
    ensures apart { result ≡ Ok false → IsTrue T.tells_stands
        → (T.view rack.old).stands ≡ None
        → Rose (T.view rack.old).faults (T.view rack.new).faults }
{
    match rack.create(dims) {
        Ok(()) => {}
        Err(CreateError::OutOfMemory) => return Err(OutOfMemory),
        Err(CreateError::Present) => return Ok(false),
        Err(CreateError::Failed) => return Ok(false),
    }
    match rack.attach(dims) {
        Ok(Found::Ready) => Ok(true),
        Ok(Found::Absent) => Ok(false),
        Ok(Found::Other) => Ok(false),
        Err(AttachError::OutOfMemory) => Err(OutOfMemory),
        Err(AttachError::Failed) => Ok(false),
    }
}

// Attaches a rack, or makes it where nothing stands, and says whether it is attached.
fn attach_or_make<T: Rack>(rack: &mut T, dims: &Dims) -> Result<bool, OutOfMemory>
    ensures ready { result ≡ Ok true → (T.view rack.new).attached ≡ Some dims.now }
    ensures keeps { Keeps (T.view rack.old) (T.view rack.new) }
    ensures apart { result ≡ Ok false → IsTrue T.tells_stands
        → Rose (T.view rack.old).faults (T.view rack.new).faults
        ⊎ ((¬ ((T.view rack.old).stands ≡ None))
        × (¬ ((T.view rack.old).stands ≡ Some dims.now))) }
{
    match rack.attach(dims) {
        Ok(Found::Ready) => Ok(true),
        Ok(Found::Absent) => make(rack, dims),
        Ok(Found::Other) => Ok(false),
        Err(AttachError::OutOfMemory) => Err(OutOfMemory),
        Err(AttachError::Failed) => Ok(false),
    }
}

// Fills the other side from the one that is in, which it syncs first.
fn fill<F: Rack, T: Rack>(
    from: &mut F,
    to: &mut T,
    dims: &Dims,
    row: &mut [u8],
) -> Result<Healed, HealError>
    requires ready { (F.view from.old).attached ≡ Some dims.now }
    requires few { dims.now.disks ≤ 64 }
    requires fits { length row.old ≡ dims.now.disks * dims.now.block }
    ensures from { HealedFrom result (F.view from.old) (F.view from.new) }
    ensures to { HealedTo T.tells_stands (F.tells_contents && T.tells_contents) dims.now result
        (T.view to.old) (T.view to.new) (F.view from.new) }
{
    if from.sync().is_err() {
        return Err(HealError::Failed);
    }
    match attach_or_make(to, dims) {
        Ok(true) => {}
        Ok(false) => return Ok(Healed::Apart),
        Err(OutOfMemory) => return Err(HealError::OutOfMemory),
    }
    match copy_all(from, to, dims, row) {
        Ok(()) => Ok(Healed::Level),
        Err(CopyFault::Read) => Err(HealError::Failed),
        Err(CopyFault::Write) => Ok(Healed::Apart),
    }
}

/// Fills the side that is out, where one is, and takes it in where it is level.
pub fn fill_sides<L: Rack, G: Rack>(
    left: &mut L,
    right: &mut G,
    sides: &mut Sides,
    dims: &Dims,
    row: &mut [u8],
) -> Result<Healed, HealError>
    requires some_in { IsFalse sides.old.left → IsTrue sides.old.right }
    requires left_ready { IsTrue sides.old.left → (L.view left.old).attached ≡ Some dims.now }
    requires right_ready { IsTrue sides.old.right → (G.view right.old).attached ≡ Some dims.now }
    requires few { dims.now.disks ≤ 64 }
    requires fits { length row.old ≡ dims.now.disks * dims.now.block }
    ensures { MirrorHeal L.tells_stands L.tells_contents G.tells_stands G.tells_contents
        dims.now result
        (two_sides (L.view left.old) (G.view right.old) sides.old)
        (two_sides (L.view left.new) (G.view right.new) sides.new) }
{
    if !sides.left {
        let healed = fill(right, left, dims, row);
        sides.left = healed == Ok(Healed::Level);
        return healed;
    }
    if !sides.right {
        let healed = fill(left, right, dims, row);
        sides.right = healed == Ok(Healed::Level);
        return healed;
    }
    Ok(Healed::Level)
}
