//! Affine maps.

ghost use Rattle.std.specs.Prelude.{◌≡◌, ℕ, ◌^◌, ◌<◌};

use crate::matrix::Matrix;

/// An affine map: x goes to `a x XOR c`, for x and c below `2 ^ n`.
#[derive(Clone, Copy, Debug, PartialEq, Eq)]
pub struct Affine {
    /// The matrix.
    pub a: Matrix,
    /// The constant, below `2 ^ n`.
    pub c: u64,
    ghost below: { c < 2 ^ a.n },
}

impl Affine {
    ghost use Rattle.bm_gf2.specs.Affine.{affine_image};

    /// The image of x.
    pub fn apply(&self, x: u64) -> u64
        requires { x < 2 ^ self.now.a.n }
        ensures value { result ≡ affine_image self.now x }
        ensures below { result < 2 ^ self.now.a.n }
    {
        self.c ^ self.a.apply(x)
    }

    /// This map after `first`, both of one n.
    pub fn after(&self, first: &Affine) -> Affine
        requires { self.now.a.n ≡ first.now.a.n }
        ensures size { result.a.n ≡ self.now.a.n }
        ensures composes { (x : ℕ)
            → affine_image result x ≡ affine_image self.now (affine_image first.now x) }
    {
        let c = self.apply(first.c);
        Affine {
            a: self.a.mul(&first.a),
            c,
        }
    }
}
