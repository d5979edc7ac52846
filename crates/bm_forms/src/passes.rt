//! How many passes a job's plan has.

ghost use Rattle.std.specs.Prelude.{◌≡◌, ℕ, ◌+◌, ◌-◌, ◌≤◌};
ghost use Rattle.std.specs.Int.{div_ceil};
ghost use Rattle.bm_rank.specs.Rank.{rank_of_rows};
ghost use Rattle.bm_forms.specs.Job.{HasBits};
ghost use Rattle.bm_forms.specs.Mld.{IsMld};
ghost use Rattle.bm_forms.specs.PassCount.{map_passes, rotation_passes, passes_of};

use crate::job::Job;
use crate::mld_form::MldForm;
use crate::rounds::{last_bits, over_rounds};
use bm_base::Shape;
use bm_gf2::{Affine, Matrix};
use bm_rank::rank_of;

/// How many passes the permutation by a matrix takes: one where it is MLD, else the rank of rows m
/// to n-1 of columns 0 to m-1, over lg(M/B) and rounded up, and one.
pub fn map_passes(shape: &Shape, a: &Matrix) -> u8
    requires { a.now.n ≡ shape.now.n }
    ensures passes { result ≡ map_passes shape.now a.now.cols }
    ensures one { IsMld a.now shape.now.b shape.now.m → result ≡ 1 }
    ensures several { ¬ IsMld a.now shape.now.b shape.now.m
        → result ≡ div_ceil (rank_of_rows a.now.cols shape.now.m shape.now.m)
        (shape.now.m - shape.now.b) + 1 }
    ensures few { result ≤ shape.now.b + 2 }
{
    if MldForm::of(shape, &Affine { a: *a, c: 0 }).is_ok() {
        return 1;
    }
    rank_of(a, shape.m(), shape.m()).div_ceil(shape.m() - shape.b()) + 1
}

/// How many passes the rotation by `by` takes.
pub fn rotation_passes(shape: &Shape, by: u8) -> u8
    requires { by ≤ shape.now.n }
    ensures passes { result ≡ rotation_passes shape.now by }
    ensures few { result ≤ shape.now.b + 2 }
{
    map_passes(shape, &Matrix::rotation(shape.n(), by))
}

/// How many passes the job's plan has, 256 at most. For the transform that is the sum over its
/// rounds.
pub fn pass_count(shape: &Shape, job: &Job) -> u16
    requires { HasBits shape.now.n job.now }
    ensures count { result ≡ passes_of shape.now job.now }
    ensures few { result ≤ 256 }
{
    match job {
        Job::Permute(map) => u16::from(map_passes(shape, &map.a)),
        Job::Walsh => {
            let whole = rotation_passes(shape, shape.m());
            let last = rotation_passes(shape, last_bits(shape));
            over_rounds(shape, whole, last)
        }
    }
}
