//! Making both sides.

ghost use Rattle.std.specs.Prelude.{◌≡◌, ◌⊎◌, ◌&&◌, true, false, IsTrue, IsFalse, None, Ok, Err};
ghost use Rattle.bm_base.specs.Count.{Rose};
ghost use Rattle.bm_rack.specs.Frames.{Keeps};
ghost use Rattle.bm_mirror.specs.TwoSides.{two_sides};
ghost use Rattle.bm_mirror.specs.Creating.{IsMade, PreferredCreated, OtherCreated, MirrorCreate, Starves};

use crate::sides::Sides;
use bm_base::{Dims, OutOfMemory};
use bm_rack::{CreateError, Rack};

// Makes the other side, which is out, and says whether it was made.
fn create_other<R: Rack>(other: &mut R, dims: &Dims) -> Result<bool, OutOfMemory>
    ensures made { result ≡ Ok true
        → IsMade R.tells_stands R.tells_contents dims.now (R.view other.new) }
    ensures kept { ¬ (result ≡ Ok true) → (R.view other.new).stands ≡ (R.view other.old).stands }
    ensures refused { result ≡ Ok false
        → Rose (R.view other.old).faults (R.view other.new).faults
        ⊎ (IsTrue R.tells_stands → ¬ ((R.view other.old).stands ≡ None)) }
    ensures keeps { Keeps (R.view other.old) (R.view other.new) }
{
    match other.create(dims) {
        Ok(()) => Ok(true),
        Err(CreateError::OutOfMemory) => Err(OutOfMemory),
        Err(CreateError::Present) => Ok(false),
        Err(CreateError::Failed) => Ok(false),
    }
}

// Makes the other side, which is out, and then the one that is asked first. The other is in exactly
// where both were made. Where it was made and then memory is refused, no create is begun any more.
fn create_sides<P: Rack, O: Rack>(
    preferred: &mut P,
    other: &mut O,
    other_in: &mut bool,
    starved: &mut bool,
    dims: &Dims,
) -> Result<(), CreateError>
    requires { IsFalse other_in.old }
    ensures preferred { PreferredCreated P.tells_stands P.tells_contents dims.now result
        (P.view preferred.old) (P.view preferred.new) }
    ensures other { OtherCreated O.tells_stands O.tells_contents dims.now result
        other_in.new starved.new (O.view other.old) (O.view other.new) }
    ensures rests { IsTrue starved.old → (P.view preferred.new ≡ P.view preferred.old)
        × (O.view other.new ≡ O.view other.old)
        × IsTrue starved.new × (result ≡ Err CreateError.OutOfMemory) }
    ensures starved { IsFalse starved.old → IsTrue starved.new
        → IsMade O.tells_stands O.tells_contents dims.now (O.view other.new)
        × (result ≡ Err CreateError.OutOfMemory) }
{
    if *starved {
        return Err(CreateError::OutOfMemory);
    }
    let made = match create_other(other, dims) {
        Ok(made) => made,
        Err(OutOfMemory) => return Err(CreateError::OutOfMemory),
    };
    match preferred.create(dims) {
        Ok(()) => {
            *other_in = made;
            Ok(())
        }
        Err(CreateError::OutOfMemory) => {
            *starved = made;
            Err(CreateError::OutOfMemory)
        }
        Err(error) => Err(error),
    }
}

/// Makes both: the one that is out, and then the one that is asked first. Something stands where
/// both are in.
pub fn create_both<L: Rack, G: Rack>(
    left: &mut L,
    right: &mut G,
    sides: &mut Sides,
    starved: &mut bool,
    dims: &Dims,
) -> Result<(), CreateError>
    ensures created { MirrorCreate L.tells_stands L.tells_contents
        G.tells_stands G.tells_contents dims.now result starved.new
        (two_sides (L.view left.old) (G.view right.old) sides.old)
        (two_sides (L.view left.new) (G.view right.new) sides.new) }
    ensures starved { Starves L.tells_stands L.tells_contents
        G.tells_stands G.tells_contents dims.now result starved.old starved.new
        (two_sides (L.view left.old) (G.view right.old) sides.old)
        (two_sides (L.view left.new) (G.view right.new) sides.new) }
{
    if sides.left && sides.right {
        return Err(CreateError::Present);
    }
    if sides.left {
        create_sides(left, right, &mut sides.right, starved, dims)
    } else {
        create_sides(right, left, &mut sides.left, starved, dims)
    }
}
