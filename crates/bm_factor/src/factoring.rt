//! The plan of a permutation.

ghost use Rattle.std.specs.Prelude.{◌≡◌, ℕ, ◌+◌, ◌-◌, ◌^◌, ◌<◌, ◌≤◌, [], ◌∷◌, ◌++◌, length, IfOk, IfErr, OnOk};
ghost use Rattle.std.specs.Int.{div_ceil};
ghost use Rattle.bm_gf2.specs.Matrix.{column, image, IsNonsingular};
ghost use Rattle.bm_rank.specs.Rank.{rank_of_rows};
ghost use Rattle.bm_rank.specs.RowSolution.{IsCovered};
ghost use Rattle.bm_forms.specs.declared.job.Job.TheVariants.{Permute};
ghost use Rattle.bm_forms.specs.Mld.{IsMld};
ghost use Rattle.bm_forms.specs.Plan.{StandsFor};
ghost use Rattle.bm_forms.specs.PassCount.{passes_of};
ghost use Rattle.bm_forms.specs.PassLimit.{limit_of};
ghost use Rattle.bm_factor.specs.Columns.{HasTrailingBlock, top_count};
ghost use Rattle.bm_factor.specs.Factoring.{AreWithoutButterflies, AreLinearButLast};
ghost use Rattle.bm_factor.specs.Factoring.{FactorErrorIs, AppendsPass, IsFactored};

use crate::erasing::eraser;
use crate::error::FactorError;
use crate::reducing::reducer;
use crate::swapping::swapper;
use crate::trailing::trailer;
use bm_base::{OutOfMemory, Shape};
use bm_forms::{FormError, MldForm, PassForm, Plan};
use bm_gf2::{Affine, Matrix};
use bm_rank::{inverse, rank_of};
use std::alloc::Global;

/// The plan of the permutation by the map: one pass where its matrix A is MLD, else g + 1 passes
/// with g the rank of rows m to n-1 of columns 0 to m-1, over lg(M/B) and rounded up.
///
/// `A T R S1 E1 .. Sg Eg = F` with T the trailer, R the reducer, Si and Ei the swapper and the
/// eraser of round i; all but R are their own inverses. Pass 1 has the matrix `E1 S1 R' T` with R'
/// the inverse of R, pass i from 2 to g `Ei Si`, the last one F and the map's constant (after the
/// factoring of Cormen, Sundquist and Wisniewski). `Singular` comes exactly where A is, with the
/// least vector that A sends to 0.
pub fn factor(alloc: Global, shape: &Shape, map: &Affine) -> Result<Plan, FactorError>
    requires size { map.now.a.n ≡ shape.now.n }
    ensures stands { IfOk result (λ plan. StandsFor plan shape.now (Permute map.now)) }
    ensures length { IfOk result (λ plan.
        length plan.forms ≡ passes_of shape.now (Permute map.now)) }
    ensures few { IfOk result (λ plan.
        length plan.forms ≤ limit_of shape.now (Permute map.now)) }
    ensures bound { IsNonsingular map.now.a → rank_of_rows map.now.a.cols shape.now.m shape.now.m
        ≤ rank_of_rows map.now.a.cols shape.now.b shape.now.b + (shape.now.m - shape.now.b) }
    ensures low { IfOk result (λ plan. AreWithoutButterflies plan.forms) }
    ensures linear { IfOk result (λ plan. AreLinearButLast plan.forms) }
    ensures nonsingular { OnOk result (IsNonsingular map.now.a) }
    ensures error { IfErr result (λ e. FactorErrorIs map.now.a e) }
{
    match MldForm::of(shape, map) {
        Ok(form) => one_pass(alloc, shape, form).map_err(|_| FactorError::OutOfMemory),
        Err(FormError::Singular { x }) => Err(FactorError::Singular { x }),
        Err(FormError::NotMld { .. }) => {
            several_passes(alloc, shape, map).map_err(|_| FactorError::OutOfMemory)
        }
    }
}

// The plan of one pass.
fn one_pass(alloc: Global, shape: &Shape, form: MldForm) -> Result<Plan, OutOfMemory>
    requires addresses { form.map.a.n ≡ shape.now.n }
    requires sizes { (form.b ≡ shape.now.b) × (form.m ≡ shape.now.m) }
    ensures shape { IfOk result (λ plan. plan.shape ≡ shape.now) }
    ensures pass { IfOk result (λ plan. AppendsPass shape.now [] plan.forms form.map) }
{
    let mut plan = Plan::empty(alloc, shape);
    push_form(&mut plan, shape, form)?;
    Ok(plan)
}

// Puts the pass of the form at the end.
fn push_form(plan: &mut Plan, shape: &Shape, form: MldForm) -> Result<(), OutOfMemory>
    requires shape { plan.old.shape ≡ shape.now }
    requires room { length plan.old.forms < 256 }
    requires addresses { form.map.a.n ≡ shape.now.n }
    requires sizes { (form.b ≡ shape.now.b) × (form.m ≡ shape.now.m) }
    ensures shape { plan.new.shape ≡ plan.old.shape }
    ensures pushed { OnOk result (AppendsPass shape.now plan.old.forms plan.new.forms form.map) }
{
    plan.push(PassForm { low: 0, map: form })
}

// The form of an MLD map.
fn form_of(shape: &Shape, map: &Affine) -> MldForm
    requires size { map.now.a.n ≡ shape.now.n }
    requires mld { IsMld map.now.a shape.now.b shape.now.m }
    ensures map { result.map ≡ map.now }
    ensures sizes { (result.b ≡ shape.now.b) × (result.m ≡ shape.now.m) }
{
    match MldForm::of(shape, map) {
        Ok(form) => form,
        Err(_) => unreachable!(),
    }
}

// A matrix as a product: `rest` after `done`.
#[derive(Clone, Copy)]
struct Factored {
    rest: Matrix,
    done: Matrix,
}

// The plan of several passes.
fn several_passes(alloc: Global, shape: &Shape, map: &Affine) -> Result<Plan, OutOfMemory>
    requires size { map.now.a.n ≡ shape.now.n }
    requires nonsingular { IsNonsingular map.now.a }
    requires apart { ¬ IsMld map.now.a shape.now.b shape.now.m }
    ensures stands { IfOk result (λ plan. StandsFor plan shape.now (Permute map.now)) }
    ensures length { IfOk result (λ plan. length plan.forms
        ≡ div_ceil (rank_of_rows map.now.a.cols shape.now.m shape.now.m)
        (shape.now.m - shape.now.b) + 1) }
    ensures low { IfOk result (λ plan. AreWithoutButterflies plan.forms) }
    ensures linear { IfOk result (λ plan. AreLinearButLast plan.forms) }
{
    let rank = rank_of(&map.a, shape.m(), shape.m());
    let rounds = rank.div_ceil(shape.m() - shape.b());
    let mut plan = Plan::empty(alloc, shape);
    let Factored { mut rest, mut done } = reduced(shape, &map.a);
    for _round in 0..rounds {
        let next = erased(shape, &rest);
        let a = next.done.mul(&done);
        push_form(&mut plan, shape, form_of(shape, &Affine { a, c: 0 }))?;
        rest = next.rest;
        done = Matrix::identity(shape.n());
    }
    let last = Affine { a: rest, c: map.c };
    push_form(&mut plan, shape, form_of(shape, &last))?;
    Ok(plan)
}

// `a T R`, and `R' T`, which undoes `T R`, with R' the inverse of R.
fn reduced(shape: &Shape, a: &Matrix) -> Factored
    requires size { a.now.n ≡ shape.now.n }
    requires nonsingular { IsNonsingular a.now }
    ensures split { IsFactored a.now result.rest result.done }
    ensures stays { (x : ℕ) → x < 2 ^ shape.now.m → image result.done x < 2 ^ shape.now.m }
    ensures trailing { HasTrailingBlock (column result.rest) a.now.n shape.now.m }
    ensures count { top_count (column result.rest) shape.now.m shape.now.m
        ≡ rank_of_rows a.now.cols shape.now.m shape.now.m }
{
    let t = trailer(shape, a);
    let with_block = a.mul(&t);
    let r = reducer(shape, &with_block);
    let Ok(undo) = inverse(&r) else {
        unreachable!()
    };
    Factored {
        rest: with_block.mul(&r),
        done: undo.mul(&t),
    }
}

// `a S E`, and `E S`, which undoes `S E`: m - b columns fewer have anything in rows m and above.
fn erased(shape: &Shape, a: &Matrix) -> Factored
    requires size { a.now.n ≡ shape.now.n }
    requires nonsingular { IsNonsingular a.now }
    requires trailing { HasTrailingBlock (column a.now) a.now.n shape.now.m }
    ensures split { IsFactored a.now result.rest result.done }
    ensures covered { IsCovered result.done shape.now.b shape.now.m }
    ensures trailing { HasTrailingBlock (column result.rest) a.now.n shape.now.m }
    ensures count { top_count (column result.rest) shape.now.m shape.now.m
        ≡ top_count (column a.now) shape.now.m shape.now.m - (shape.now.m - shape.now.b) }
{
    let s = swapper(shape, a);
    let swapped = a.mul(&s);
    let e = eraser(shape, &swapped);
    Factored {
        rest: swapped.mul(&e),
        done: e.mul(&s),
    }
}
