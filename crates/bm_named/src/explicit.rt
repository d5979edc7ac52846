//! Maps by a list of bits, by a list of rows, and with a constant.

ghost use Rattle.std.specs.Prelude.{◌≡◌, ◌≢◌, ℕ, ◌-◌, ◌^◌, ◌<◌, ◌≤◌, min, length, slice_index, bit_xor};
ghost use Rattle.std.specs.Prelude.{OnOk, OnErr, IfOk, IfErr, IfSome, IfNone};
ghost use Rattle.std.specs.Int.{bit_at};
ghost use Rattle.bm_gf2.specs.Matrix.{column, image, IsNonsingular};
ghost use Rattle.bm_gf2.specs.Affine.{affine_image};
ghost use Rattle.bm_named.specs.BitOrder.{IsBitOrder, IsFirstNoBit, IsFirstRepeat, BitsFaultIs};
ghost use Rattle.bm_named.specs.RowList.{AreRows, IsFirstWide, RowsFaultIs};

use crate::map_fault::MapFault;
use bm_gf2::{Affine, Matrix, no_columns};
use bm_rank::kernel_least;

/// The permutation of the address bits by a list: target bit i is source bit `list[i]`.
///
/// Refused in this order: a list that has not n entries, the first entry that is no bit, the first
/// entry that repeats an earlier one.
pub fn bits(n: u8, list: &[u8]) -> Result<Affine, MapFault>
    requires some { 1 ≤ n }
    requires few { n ≤ 52 }
    ensures order { OnOk result (IsBitOrder n list.now) }
    ensures size { IfOk result (λ map. map.a.n ≡ n) }
    ensures bits { IfOk result (λ map. (x i : ℕ) → x < 2 ^ n → i < n
        → bit_at (affine_image map x) i ≡ bit_at x (slice_index list.now i)) }
    ensures nonsingular { IfOk result (λ map. IsNonsingular map.a) }
    ensures fault { IfErr result (λ e. BitsFaultIs n list.now e) }
{
    check_length(n, list.len())?;
    if let Some(i) = first_outside(n, list) {
        return Err(MapFault::Range { i });
    }
    if let Some((i, j)) = first_repeat(n, list) {
        return Err(MapFault::Twice { i, j });
    }
    Ok(Affine {
        a: by_sources(n, list),
        c: 0,
    })
}

/// The linear map by the rows of its matrix: bit j of `rows[i]` is the entry at row i, column j.
///
/// Refused in this order: a list that has not n rows, the first row that is `2 ^ n` or more, a
/// singular matrix, with the least vector but 0 that it sends to 0.
pub fn from_rows(n: u8, rows: &[u64]) -> Result<Affine, MapFault>
    requires some { 1 ≤ n }
    requires few { n ≤ 52 }
    ensures rows { OnOk result (AreRows n rows.now) }
    ensures size { IfOk result (λ map. map.a.n ≡ n) }
    ensures entries { IfOk result (λ map. (i j : ℕ) → i < n → j < n
        → bit_at (column map.a j) i ≡ bit_at (slice_index rows.now i) j) }
    ensures constant { IfOk result (λ map. map.c ≡ 0) }
    ensures nonsingular { IfOk result (λ map. IsNonsingular map.a) }
    ensures fault { IfErr result (λ e. RowsFaultIs n rows.now e) }
{
    check_length(n, rows.len())?;
    if let Some(i) = first_wide(n, rows) {
        return Err(MapFault::Wide { i });
    }
    let a = Matrix::from_rows(n, rows);
    match kernel_least(&a) {
        Some(x) => Err(MapFault::Singular { x }),
        None => Ok(Affine { a, c: 0 }),
    }
}

/// The map, then XOR c: an address goes to its image with the bits of c turned over.
pub fn with_complement(map: &Affine, c: u64) -> Affine
    requires { c < 2 ^ map.now.a.n }
    ensures matrix { result.a ≡ map.now.a }
    ensures value { (x : ℕ) → affine_image result x ≡ bit_xor (affine_image map.now x) c }
    ensures nonsingular { IsNonsingular map.now.a → IsNonsingular result.a }
{
    Affine {
        a: map.a,
        c: map.c ^ c,
    }
}

// Refuses a list that has not n entries.
fn check_length(n: u8, length: usize) -> Result<(), MapFault>
    ensures ok { OnOk result (length ≡ n) }
    ensures wrong { OnErr result (length ≢ n) }
    ensures got { IfErr result (λ e. e ≡ MapFault.Length (min length (2 ^ 32 - 1))) }
{
    if length == usize::from(n) {
        return Ok(());
    }
    let got = u32::try_from(length).unwrap_or(u32::MAX);
    Err(MapFault::Length { got })
}

// The first entry that is no bit below n.
fn first_outside(n: u8, list: &[u8]) -> Option<u8>
    requires { length list.now ≡ n }
    ensures some { IfSome result (λ i. IsFirstNoBit n list.now i) }
    ensures none { IfNone result ((k : ℕ) → k < n → slice_index list.now k < n) }
{
    for i in 0..n {
        if list[usize::from(i)] >= n {
            return Some(i);
        }
    }
    None
}

// The first entry that repeats an earlier one, after that one.
fn first_repeat(n: u8, list: &[u8]) -> Option<(u8, u8)>
    requires { length list.now ≡ n }
    ensures some { IfSome result (λ at. IsFirstRepeat n list.now at.0 at.1) }
    ensures none { IfNone result ((i j : ℕ) → i < j → j < n
        → slice_index list.now i ≢ slice_index list.now j) }
{
    for j in 0..n {
        if let Some(i) = earlier(list, j) {
            return Some((i, j));
        }
    }
    None
}

/// An entry before entry j that is the same, if there is one.
pub fn earlier(list: &[u8], j: u8) -> Option<u8>
    requires { j < length list.now }
    ensures some { IfSome result (λ i. (i < j) × (slice_index list.now i ≡ slice_index list.now j)) }
    ensures none { IfNone result ((i : ℕ) → i < j
        → slice_index list.now i ≢ slice_index list.now j) }
{
    for i in 0..j {
        if list[usize::from(i)] == list[usize::from(j)] {
            return Some(i);
        }
    }
    None
}

// Row i has bit `list[i]` alone.
#[tactic(auto, using(bm_gf2::proofs::VectorLemmas::unit_below))]
fn by_sources(n: u8, list: &[u8]) -> Matrix
    requires some { 1 ≤ n }
    requires few { n ≤ 52 }
    requires long { length list.now ≡ n }
    requires below { (i : ℕ) → i < n → slice_index list.now i < n }
    ensures size { result.n ≡ n }
    ensures entries { (i j : ℕ) → i < n → j < n
        → bit_at (column result j) i ≡ bit_at (2 ^ slice_index list.now i) j }
{
    let mut rows = no_columns();
    for i in 0..n {
        rows[usize::from(i)] = 1 << list[usize::from(i)];
    }
    Matrix::from_rows(n, &rows[..usize::from(n)])
}

// The first row that is too wide.
fn first_wide(n: u8, rows: &[u64]) -> Option<u8>
    requires few { n ≤ 52 }
    requires long { length rows.now ≡ n }
    ensures some { IfSome result (λ i. IsFirstWide n rows.now i) }
    ensures none { IfNone result ((k : ℕ) → k < n → slice_index rows.now k < 2 ^ n) }
{
    for i in 0..n {
        if rows[usize::from(i)] >= 1 << n {
            return Some(i);
        }
    }
    None
}
