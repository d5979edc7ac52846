//! What a step of a plan costs.

ghost use Rattle.std.specs.Prelude.{◌≡◌, ◌≤◌};
ghost use Rattle.bm_text.specs.StepCost.{cost_of, rotation_cost};

use bm_base::Shape;
use bm_forms::{map_limit, map_passes};
use bm_gf2::Matrix;
use bm_rank::rank_of;

/// The ranks of a step's permutation and the passes that they ask for.
#[derive(Clone, Copy, Debug, PartialEq, Eq)]
pub struct StepCost {
    /// The rank of rows b and above of columns 0 to b-1.
    pub lower: u8,
    /// The rank of rows m and above of columns 0 to m-1.
    pub high: u8,
    /// The passes of the step.
    pub passes: u8,
    /// The most passes that a permutation of this lower rank takes.
    pub at_most: u8,
}

/// What the permutation by a matrix costs.
pub fn cost_of(shape: &Shape, a: &Matrix) -> StepCost
    requires { a.now.n ≡ shape.now.n }
    ensures { result ≡ cost_of shape.now a.now.cols }
{
    StepCost {
        lower: rank_of(a, shape.b(), shape.b()),
        high: rank_of(a, shape.m(), shape.m()),
        passes: map_passes(shape, a),
        at_most: map_limit(shape, a),
    }
}

/// What the rotation by `by` costs.
pub fn rotation_cost(shape: &Shape, by: u8) -> StepCost
    requires { by ≤ shape.now.n }
    ensures { result ≡ rotation_cost shape.now by }
{
    cost_of(shape, &Matrix::rotation(shape.n(), by))
}
