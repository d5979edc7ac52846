//! Whether two values that the control file names are the same.

ghost use Rattle.std.specs.Prelude.{◌≡◌, ◌↔◌, IsTrue};

use bm_base::Shape;
use bm_forms::Job;
use bm_gf2::Affine;

/// Whether the shapes are the same.
pub fn same_shape(one: &Shape, other: &Shape) -> bool
    ensures { IsTrue result ↔ (one.now ≡ other.now) }
{
    *one == *other
}

// Whether the maps are the same.
fn same_map(one: &Affine, other: &Affine) -> bool
    ensures { IsTrue result ↔ (one.now ≡ other.now) }
{
    *one == *other
}

/// Whether the jobs are the same.
pub fn same_job(one: &Job, other: &Job) -> bool
    ensures { IsTrue result ↔ (one.now ≡ other.now) }
{
    match (one, other) {
        (Job::Permute(one), Job::Permute(other)) => same_map(one, other),
        (Job::Walsh, Job::Walsh) => true,
        _ => false,
    }
}
