//! Maps that send each block of a load to one load.

ghost use Rattle.std.specs.Prelude.{◌≡◌, ◌↔◌, ℕ, ◌+◌, ◌-◌, ◌*◌, ◌/◌, ◌%◌, ◌^◌, ◌<◌, ◌≤◌, IsOk, IfOk, IfErr, length, slice_index, bit_xor};
ghost use Rattle.bm_gf2.specs.Matrix.{image, IsNonsingular};
ghost use Rattle.bm_gf2.specs.Affine.{affine_image};
ghost use Rattle.bm_gf2.specs.Spread.{spread_value};
ghost use Rattle.bm_rank.specs.RowSolution.{IsSolution, IsCut};

use bm_base::Shape;
use bm_gf2::{Affine, Matrix, RowMap, Spread};
use bm_rank::{cut_rows, kernel_least, solve_rows};

/// An affine map that one pass can do: its matrix is nonsingular, and rows m to n-1 of the image of
/// a vector below `2 ^ m` are a linear map k of rows b to m-1.
///
/// So a memory load fills whole blocks of its target loads. The class is that of the MLD matrices
/// of Cormen, Sundquist and Wisniewski, in our own wording.
#[derive(Clone, Copy, Debug, PartialEq, Eq)]
pub struct MldForm {
    map: Affine,
    k: RowMap,
    b: u8,
    m: u8,
    pub ghost nonsingular: { IsNonsingular map.a },
    pub ghost block: { b < m },
    pub ghost memory: { m ≤ map.a.n },
    pub ghost solved: { IsSolution map.a b m k },
}

/// Why a map has no form.
#[derive(Clone, Copy, Debug, PartialEq, Eq)]
pub enum FormError {
    /// The matrix sends x to 0, the least such but 0.
    Singular { x: u64 },
    /// The matrix is nonsingular. The image of x, below `2 ^ m`, is 0 in rows b to m-1 and not in
    /// rows m to n-1; x is the least such.
    NotMld { x: u64 },
}

impl MldForm {
    ghost use Rattle.bm_forms.specs.Mld.{IsMld, FormErrorIs};

    /// The form of a map for the shape's blocks and loads, or why it has none.
    pub fn of(shape: &Shape, map: &Affine) -> Result<MldForm, FormError>
        requires { map.now.a.n ≡ shape.now.n }
        ensures exact { IsOk result ↔ IsMld map.now.a shape.now.b shape.now.m }
        ensures form { IfOk result (λ f. (f.map ≡ map.now)
            × (f.b ≡ shape.now.b) × (f.m ≡ shape.now.m)) }
        ensures error { IfErr result (λ e. FormErrorIs map.now.a shape.now.b shape.now.m e) }
    {
        if let Some(x) = kernel_least(&map.a) {
            return Err(FormError::Singular { x });
        }
        match solve_rows(&map.a, shape.b(), shape.m()) {
            Ok(k) => Ok(MldForm {
                map: *map,
                k,
                b: shape.b(),
                m: shape.m(),
            }),
            Err(outside) => Err(FormError::NotMld { x: outside.x }),
        }
    }

    /// The map.
    pub fn affine(&self) -> &Affine
        ensures { result.now ≡ self.now.map }
    {
        &self.map
    }

    /// How the places in a load become places in the target loads: record i of load `load` goes to
    /// place `matrix i XOR constant` of its target load. The matrix is the leading m by m block.
    pub fn placing_for(&self, load: u64) -> (Matrix, u64)
        requires { load < 2 ^ (self.now.map.a.n - self.now.m) }
        ensures size { result.0.n ≡ self.now.m }
        ensures block { IsCut self.now.map.a self.now.m 0 self.now.m result.0.cols }
        ensures nonsingular { IsNonsingular result.0 }
        ensures places { (i : ℕ) → i < 2 ^ self.now.m
            → affine_image self.now.map (2 ^ self.now.m * load + i) % 2 ^ self.now.m
            ≡ bit_xor result.1 (image result.0 i) }
        ensures below { result.1 < 2 ^ self.now.m }
    {
        let from = self.map.apply(load << self.m);
        (leading_block(&self.map.a, self.m), from % (1 << self.m))
    }

    /// The target loads: a record of load `load` whose place in its target load is p goes to load
    /// `spread.at(p / B)`.
    pub fn spread_for(&self, load: u64) -> Spread
        requires { load < 2 ^ (self.now.map.a.n - self.now.m) }
        ensures count { result.map.count ≡ self.now.m - self.now.b }
        ensures loads { (i : ℕ) → i < 2 ^ self.now.m
            → affine_image self.now.map (2 ^ self.now.m * load + i) / 2 ^ self.now.m
            ≡ spread_value result
            (affine_image self.now.map (2 ^ self.now.m * load + i)
            % 2 ^ self.now.m / 2 ^ self.now.b) }
        ensures below { (t : ℕ) → spread_value result t < 2 ^ (self.now.map.a.n - self.now.m) }
    {
        let from = self.map.apply(load << self.m);
        let low = from % (1 << self.m);
        let served = self.k.apply(low >> self.b);
        Spread {
            map: self.k,
            plus: (from >> self.m) ^ served,
        }
    }
}

// Rows 0 to m-1 of columns 0 to m-1.
fn leading_block(a: &Matrix, m: u8) -> Matrix
    requires some { 1 ≤ m }
    requires few { m ≤ a.now.n }
    ensures size { result.n ≡ m }
    ensures block { IsCut a.now m 0 m result.cols }
{
    Matrix {
        n: m,
        cols: cut_rows(a, m, 0, m),
    }
}
