//! The most passes that a job's plan has.

ghost use Rattle.std.specs.Prelude.{◌≡◌, ℕ, ◌+◌, ◌-◌, ◌*◌, ◌<◌, ◌≤◌};
ghost use Rattle.bm_forms.specs.PassLimit.{map_limit, rotation_limit, limit_of};
ghost use Rattle.bm_forms.specs.Job.{HasBits};

use crate::job::Job;
use crate::rounds::{last_bits, over_rounds};
use bm_base::Shape;
use bm_gf2::Matrix;
use bm_rank::rank_of;

/// The most passes that the permutation by a matrix takes: the rank of rows b to n-1 of columns 0
/// to b-1, over lg(M/B) and rounded up, and 2.
pub fn map_limit(shape: &Shape, a: &Matrix) -> u8
    requires { a.now.n ≡ shape.now.n }
    ensures limit { result ≡ map_limit a.now.cols shape.now.b shape.now.m }
    ensures few { result ≤ shape.now.b + 2 }
{
    rank_of(a, shape.b(), shape.b()).div_ceil(shape.m() - shape.b()) + 2
}

// The limit of the rotation by `by`.
fn rotation_limit(shape: &Shape, by: u8) -> u8
    requires by { by ≤ shape.now.n }
    ensures limit { result ≡ rotation_limit shape.now by }
    ensures few { result ≤ shape.now.b + 2 }
{
    map_limit(shape, &Matrix::rotation(shape.n(), by))
}

/// The most passes that the job's plan has, 256 at most.
///
/// A permutation's is the rank of rows b to n-1 of columns 0 to b-1, over lg(M/B) and rounded up,
/// and 2 (after the upper bound of Cormen, Sundquist and Wisniewski). The transform has n/m rounds,
/// rounded up, and a rotation in each; its limit is the sum of theirs.
pub fn pass_limit(shape: &Shape, job: &Job) -> u16
    requires { HasBits shape.now.n job.now }
    ensures limit { result ≡ limit_of shape.now job.now }
    ensures few { result ≤ 256 }
{
    match job {
        Job::Permute(map) => u16::from(map_limit(shape, &map.a)),
        Job::Walsh => {
            let whole = rotation_limit(shape, shape.m());
            let last = rotation_limit(shape, last_bits(shape));
            over_rounds(shape, whole, last)
        }
    }
}
