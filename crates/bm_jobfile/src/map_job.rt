//! The job that a text's map stands for.

ghost use Rattle.std.specs.Prelude.{◌≡◌, ◌<◌, ◌≤◌, ℕ, OnOk, IfOk, IfErr};
ghost use Rattle.bm_base.specs.declared.shape.Shape.{Shape};
ghost use Rattle.bm_gf2.specs.Matrix.{IsNonsingular};
ghost use Rattle.bm_gf2.specs.Affine.{affine_image};
ghost use Rattle.bm_forms.specs.Job.{JobFits};
ghost use Rattle.bm_jobfile.specs.MapJob.{IsNamedMap, NamedFaultIs, NamedIsFaultless};
ghost use Rattle.bm_jobfile.specs.MapJob.{IsJobOf, MapFaultIs, MapIsFaultless};

use crate::map_table::{MapText, NamedMap};
use bm_base::Shape;
use bm_forms::Job;
use bm_gf2::Affine;
use bm_named::{
    MapFault, bit_reversal, bits, from_rows, gray, identity, inverse_gray, reversal, rotation,
    transpose, with_complement,
};

/// The job of the text for records of this shape, or the first fault of the map.
pub fn job_of(shape: &Shape, text: &MapText) -> Result<Job, MapFault>
    ensures job { IfOk result (λ job. IsJobOf shape.now text.now job) }
    ensures faultless { OnOk result (MapIsFaultless shape.now text.now) }
    ensures fault { IfErr result (λ e. MapFaultIs shape.now text.now e) }
    ensures fits { IfOk result (λ job. JobFits shape.now job) }
{
    match text {
        MapText::Walsh => walsh_job(shape),
        MapText::Permute { named, complement } => permute_job(shape, named, *complement),
    }
}

// The transform, of numbers of 8 bytes.
fn walsh_job(shape: &Shape) -> Result<Job, MapFault>
    ensures job { IfOk result (λ job. IsJobOf shape.now MapText.Walsh job) }
    ensures faultless { OnOk result (MapIsFaultless shape.now MapText.Walsh) }
    ensures fault { IfErr result (λ e. MapFaultIs shape.now MapText.Walsh e) }
    ensures fits { IfOk result (λ job. JobFits shape.now job) }
{
    if shape.width() != 8 {
        return Err(MapFault::Width);
    }
    Ok(Job::Walsh)
}

// The named map, followed by XOR with the complement.
fn permute_job(shape: &Shape, named: &NamedMap, complement: u64) -> Result<Job, MapFault>
    ensures job { let text = MapText.Permute named.now complement in
        IfOk result (λ job. IsJobOf shape.now text job) }
    ensures faultless { let text = MapText.Permute named.now complement in
        OnOk result (MapIsFaultless shape.now text) }
    ensures fault { let text = MapText.Permute named.now complement in
        IfErr result (λ e. MapFaultIs shape.now text e) }
    ensures fits { IfOk result (λ job. JobFits shape.now job) }
{
    let map = affine_of(shape.n(), named)?;
    if complement >= shape.records() {
        return Err(MapFault::Complement { c: complement });
    }
    Ok(Job::Permute(with_complement(&map, complement)))
}

// The named map for addresses of n bits.
fn affine_of(n: u8, named: &NamedMap) -> Result<Affine, MapFault>
    requires some { 1 ≤ n }
    requires few { n ≤ 52 }
    ensures size { IfOk result (λ map. map.a.n ≡ n) }
    ensures nonsingular { IfOk result (λ map. IsNonsingular map.a) }
    ensures value { IfOk result (λ map. IsNamedMap n named.now (affine_image map)) }
    ensures faultless { OnOk result (NamedIsFaultless n named.now) }
    ensures fault { IfErr result (λ e. NamedFaultIs n named.now e) }
{
    match named {
        NamedMap::Identity => Ok(identity(n)),
        NamedMap::Reversal => Ok(reversal(n)),
        NamedMap::BitReversal => Ok(bit_reversal(n)),
        NamedMap::Transpose { p } => transposed(n, *p),
        NamedMap::Gray => Ok(gray(n)),
        NamedMap::InverseGray => Ok(inverse_gray(n)),
        NamedMap::Rotation { by } => Ok(rotation(n, *by)),
        NamedMap::Bits { list } => bits(n, list.as_slice()),
        NamedMap::Rows { rows } => from_rows(n, rows.as_slice()),
    }
}

// The transposition, whose side has at most n bits.
fn transposed(n: u8, p: u8) -> Result<Affine, MapFault>
    requires some { 1 ≤ n }
    requires few { n ≤ 52 }
    ensures size { IfOk result (λ map. map.a.n ≡ n) }
    ensures nonsingular { IfOk result (λ map. IsNonsingular map.a) }
    ensures value { IfOk result (λ map. IsNamedMap n (NamedMap.Transpose p) (affine_image map)) }
    ensures side { OnOk result (p ≤ n) }
    ensures fault { IfErr result (λ e. (e ≡ MapFault.Side p) × (n < p)) }
{
    if p > n {
        return Err(MapFault::Side { p });
    }
    Ok(transpose(n, p))
}
