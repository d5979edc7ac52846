//! Attaching both sides.

ghost use Rattle.std.specs.Prelude.{◌≡◌, ◌⊎◌, ◌&&◌, IsTrue, IsFalse, Some, Ok, IsErrOf};
ghost use Rattle.bm_base.specs.Count.{Rose};
ghost use Rattle.bm_rack.specs.Frames.{Keeps, RaisesCounts, SameDisks};
ghost use Rattle.bm_rack.specs.Calls.{attached_after};
ghost use Rattle.bm_mirror.specs.TwoSides.{two_sides};
ghost use Rattle.bm_mirror.specs.SideCalls.{MirrorCall};
ghost use Rattle.bm_mirror.specs.Attaching.{Lapses, AttachedSides};

use crate::sides::Sides;
use bm_base::Dims;
use bm_rack::{AttachError, Found, Rack};

// Attaches the right side after the left one is ready. It goes out where it does not follow, and
// has lapsed where it did not fail.
fn attach_second<R: Rack>(
    rack: &mut R,
    is_in: &mut bool,
    lapsed: &mut bool,
    dims: &Dims,
) -> Result<Found, AttachError>
    requires { IsTrue is_in.old }
    ensures answer { (result ≡ Ok Found.Ready) ⊎ (result ≡ Err AttachError.OutOfMemory) }
    ensures ready { result ≡ Ok Found.Ready → IsTrue is_in.new
        → (R.view rack.new).attached ≡ Some dims.now }
    ensures same { SameDisks (R.view rack.old) (R.view rack.new) }
    ensures out { IsFalse is_in.new → result ≡ Ok Found.Ready }
    ensures fell { IsFalse is_in.new
        → Rose (R.view rack.old).faults (R.view rack.new).faults
        ⊎ (IsTrue lapsed.new
        × (IsTrue R.tells_stands → ¬ ((R.view rack.old).stands ≡ Some dims.now))) }
    ensures stays_lapsed { IsTrue lapsed.old → IsTrue lapsed.new }
    ensures lapsed { IsTrue lapsed.new → IsTrue lapsed.old ⊎ (IsFalse is_in.new
        × (IsTrue R.tells_stands → ¬ ((R.view rack.old).stands ≡ Some dims.now))) }
    ensures counts { RaisesCounts 0 0 0 (R.view rack.old) (R.view rack.new) }
    ensures keeps { Keeps (R.view rack.old) (R.view rack.new) }
{
    match rack.attach(dims) {
        Err(AttachError::OutOfMemory) => return Err(AttachError::OutOfMemory),
        Ok(Found::Ready) => {}
        Ok(_) => {
            *is_in = false;
            *lapsed = true;
        }
        Err(AttachError::Failed) => *is_in = false,
    }
    Ok(Found::Ready)
}

/// Attaches each side that is in, left first. One that fails goes out where the other is in, and
/// right goes out where it does not follow a left one that is ready: it has lapsed, if it did not
/// fail.
pub fn attach_sides<L: Rack, G: Rack>(
    left: &mut L,
    right: &mut G,
    sides: &mut Sides,
    lapsed: &mut bool,
    dims: &Dims,
) -> Result<Found, AttachError>
    requires some_in { IsFalse sides.old.left → IsTrue sides.old.right }
    requires level { IsTrue sides.old.left → IsTrue sides.old.right
        → IsTrue (L.tells_stands && G.tells_stands)
        → (L.view left.old).stands ≡ (G.view right.old).stands }
    ensures attached { AttachedSides (L.tells_stands && G.tells_stands) dims.now result
        (two_sides (L.view left.old) (G.view right.old) sides.old)
        (two_sides (L.view left.new) (G.view right.new) sides.new) }
    ensures lapsed { Lapses (L.tells_stands && G.tells_stands) result lapsed.old lapsed.new
        sides.old sides.new }
    ensures call { MirrorCall 0 0 0 (IsErrOf result AttachError.Failed) (IsTrue lapsed.new)
        (two_sides (L.view left.old) (G.view right.old) sides.old)
        (two_sides (L.view left.new) (G.view right.new) sides.new) }
{
    if !sides.left {
        return right.attach(dims);
    }
    let answer = left.attach(dims);
    if !sides.right {
        return answer;
    }
    match answer {
        Ok(Found::Ready) => attach_second(right, &mut sides.right, lapsed, dims),
        Err(AttachError::Failed) => {
            sides.left = false;
            right.attach(dims)
        }
        other => other,
    }
}

/// What is attached after the answer.
pub fn attached_by(answer: Result<Found, AttachError>, dims: &Dims) -> Option<Dims>
    ensures { result ≡ attached_after dims.now answer }
{
    match answer {
        Ok(Found::Ready) => Some(*dims),
        Ok(_) => None,
        Err(_) => None,
    }
}
