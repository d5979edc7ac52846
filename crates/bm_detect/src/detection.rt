//! The detection of an affine permutation.

ghost use Rattle.std.specs.Prelude.{◌≡◌, ◌≢◌, ℕ, ◌^◌, ◌≤◌, IsTrue, IsOk, Some};
ghost use Rattle.bm_base.specs.Shape.{dims_of, stripes};
ghost use Rattle.bm_base.specs.Count.{Rose};
ghost use Rattle.bm_bufs.specs.Bufs.{FitsShape};
ghost use Rattle.bm_gf2.specs.declared.affine.Affine.{Affine};
ghost use Rattle.bm_gf2.specs.Matrix.{IsNonsingular};
ghost use Rattle.bm_rack.specs.Frames.{Keeps, MovesRows, HasCause, SameState};
ghost use Rattle.bm_detect.specs.Candidate.{input_number, IsAffineBy};
ghost use Rattle.bm_detect.specs.Answer.{DetectAnswer};
ghost use Rattle.bm_detect.specs.Scan.{IsScan, Knows};

use crate::detect_error::DetectError;
use crate::scan_loads::scan_input;
use crate::scan_state::{Difference, Scan};
use bm_base::Shape;
use bm_bufs::Bufs;
use bm_gf2::Affine;
use bm_rack::Rack;
use bm_rank::kernel_least;

// What a scan of all numbers says.
fn judge(scan: Scan) -> Result<Affine, DetectError>
    ensures read { result ≢ Err DetectError.Failed }
    ensures answer { (n : ℕ) (ys : ℕ → ℕ) → IsScan n scan → Knows n ys (2 ^ n) scan
        → DetectAnswer n ys result }
{
    if let Some(Difference { x, y, want }) = scan.first {
        return Err(DetectError::NotAffine { x, y, want });
    }
    match kernel_least(&scan.map.a) {
        Some(x) => Err(DetectError::Singular { x }),
        None => Ok(scan.map),
    }
}

/// The affine permutation that the input lists: the number of record x is the image of x.
///
/// The records have 8 bytes, little-endian numbers. The candidate has the constant c = y(0) and the
/// columns y(2^i) XOR c, where y(x) is the number of record x. It is answered where it is a
/// permutation and has all numbers for its values. One scan in ascending order meets each unit
/// address before it is needed: N/BD row reads, or fewer where it refuses.
pub fn detect<R: Rack>(rack: &mut R, shape: &Shape, bufs: &mut Bufs) -> Result<Affine, DetectError>
    requires attached { (R.view rack.old).attached ≡ Some (dims_of shape.now) }
    requires width { shape.now.width ≡ 8 }
    requires fits { FitsShape shape.now bufs.old }

    ensures answer { IsTrue R.tells_contents
        → DetectAnswer shape.now.n (input_number (R.view rack.old).contents shape.now) result }
    // where such a map exists and no call failed, it is found
    ensures complete { IsTrue R.tells_contents → (f : Affine)
        → IsAffineBy shape.now.n (input_number (R.view rack.old).contents shape.now) f
        → IsNonsingular f.a → ¬ Rose (R.view rack.old).faults (R.view rack.new).faults
        → IsOk result }
    ensures fits { FitsShape shape.now bufs.new }
    ensures state { SameState (R.view rack.old) (R.view rack.new) }
    ensures moved { MovesRows (stripes shape.now) (IsOk result) (R.view rack.old) (R.view rack.new) }
    ensures keeps { Keeps (R.view rack.old) (R.view rack.new) }
    ensures cause { HasCause (result ≡ Err DetectError.Failed) (R.view rack.old) (R.view rack.new) }
{
    match scan_input(rack, shape, bufs) {
        Ok(scan) => judge(scan),
        Err(refusal) => Err(refusal),
    }
}
