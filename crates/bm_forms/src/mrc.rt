//! Matrices that send each load to one load.

ghost use Rattle.std.specs.Prelude.{◌≡◌, ◌↔◌, ℕ, ◌/◌, ◌^◌, ◌<◌, IsTrue};
ghost use Rattle.bm_forms.specs.Mld.{HasNoTop};

use bm_base::Shape;
use bm_gf2::Matrix;

/// Whether rows m to n-1 of columns 0 to m-1 are 0, as in an MRC matrix (Cormen, Sundquist,
/// Wisniewski). Then all records of a load go to one load.
pub fn is_mrc(shape: &Shape, a: &Matrix) -> bool
    requires { a.now.n ≡ shape.now.n }
    ensures { IsTrue result ↔ HasNoTop a.now shape.now.m }
{
    for j in 0..shape.m() {
        if a.cols[usize::from(j)] >> shape.m() != 0 {
            return false;
        }
    }
    true
}
