//! Independent vectors, found by elimination.

ghost use Rattle.std.specs.Prelude.{◌≡◌, ◌≢◌, ℕ, ◌+◌, ◌-◌, ◌^◌, ◌<◌, ◌≤◌, ◌↔◌, ◌++◌, ◌∷◌, [], true, false, not, if◌then◌else◌, IfSome, IfNone, IsSome, take, length, slice_index, bit_xor, IsTrue};
ghost use Rattle.bm_gf2.specs.Vector.{xor_sum};
ghost use Rattle.bm_rank.specs.Echelon.{IsRowEchelon, IsReduced};
ghost use Rattle.bm_rank.specs.Span.{in_span, sum_of};

use bm_gf2::{MOST_COLUMNS, no_columns, sum_of_columns};
use std::marker::Model;

/// Independent vectors below `2 ^ n`, n at most 52, in order of insertion.
///
/// Beside them stand rows with distinct leading bits that have the same span, and for each row
/// the set of vectors whose sum it is.
#[derive(Drop)]
pub struct Echelon {
    n: u8,
    count: u8,
    kept: [u64; MOST_COLUMNS],
    rows: [u64; MOST_COLUMNS],
    marks: [u64; MOST_COLUMNS],
}

impl Model for Echelon {
    ghost use Rattle.std.specs.Prelude.{take};
    ghost use Rattle.bm_rank.specs.Echelon.{Basis, IsEchelon};

    ghost Value = { Basis };

    ghost view = { λ e. record { n = e.n; kept = take e.count e.kept } };

    ghost invariant = { λ e. IsEchelon e.n e.count e.kept e.rows e.marks };
}

impl Echelon {
    /// No vectors yet, of n bits.
    pub fn new(n: u8) -> Echelon
        requires { n ≤ 52 }
        ensures size { result.n ≡ n }
        ensures empty { result.kept ≡ [] }
    {
        let none = no_columns();
        Echelon {
            n,
            count: 0,
            kept: none,
            rows: none,
            marks: none,
        }
    }

    /// What is left of v less a sum of the vectors: 0 exactly where v is such a sum.
    pub fn reduce(&self, v: u64) -> u64
        requires { v < 2 ^ self.now.n }
        ensures none { (result ≡ 0) ↔ IsTrue (in_span self.now.kept v) }
        ensures rest { IsTrue (in_span self.now.kept (bit_xor v result)) }
        ensures below { result < 2 ^ self.now.n }
    {
        reduction(self.n, &self.rows, v).0
    }

    /// Which of the vectors have the sum v, by their bits in order of insertion.
    ///
    /// None where no set of them has. As the vectors are independent, no two sets have.
    pub fn combination(&self, v: u64) -> Option<u64>
        requires { v < 2 ^ self.now.n }
        ensures some { IsSome result ↔ IsTrue (in_span self.now.kept v) }
        ensures sum { IfSome result (λ x. sum_of self.now.kept x ≡ v) }
        ensures below { IfSome result (λ x. x < 2 ^ length self.now.kept) }
        ensures only { IfSome result (λ x. (y : ℕ) → y < 2 ^ length self.now.kept
            → sum_of self.now.kept y ≡ v → y ≡ x) }
        ensures none { IfNone result ((y : ℕ) → sum_of self.now.kept y ≢ v) }
        ensures full { length self.now.kept ≡ self.now.n → IsSome result }
    {
        let (rest, used) = reduction(self.n, &self.rows, v);
        if rest == 0 {
            Some(sum_of_columns(self.n, &self.marks, used))
        } else {
            None
        }
    }

    /// Keeps v and answers true where it is no sum of the vectors so far; else leaves all as it was.
    pub fn insert(&mut self, v: u64) -> bool
        requires { v < 2 ^ self.old.n }
        ensures fresh { result ≡ not (in_span self.old.kept v) }
        ensures size { self.new.n ≡ self.old.n }
        ensures kept { self.new.kept
            ≡ (if result then self.old.kept ++ v ∷ [] else self.old.kept) }
    {
        let (rest, used) = reduction(self.n, &self.rows, v);
        if rest == 0 {
            return false;
        }
        let mark = sum_of_columns(self.n, &self.marks, used) ^ (1 << self.count);
        let lead = usize::from(top_bit(rest));
        self.kept[usize::from(self.count)] = v;
        self.rows[lead] = rest;
        self.marks[lead] = mark;
        self.count += 1;
        true
    }
}

// v less the rows whose leading bits it has, and which rows those are.
fn reduction(n: u8, rows: &[u64; MOST_COLUMNS], v: u64) -> (u64, u64)
    requires few { n ≤ 52 }
    requires below { v < 2 ^ n }
    requires stairs { IsRowEchelon rows.now n }
    ensures sum { result.0 ≡ bit_xor v (xor_sum (slice_index rows.now) n result.1) }
    ensures used { result.1 < 2 ^ n }
    ensures reduced { IsReduced rows.now n result.0 }
    ensures below { result.0 < 2 ^ n }
{
    let mut rest = v;
    let mut used = 0;
    for i in (0..n).rev() {
        let row = rows[usize::from(i)];
        if row != 0 && (rest >> i) & 1 == 1 {
            rest ^= row;
            used ^= 1 << i;
        }
    }
    (rest, used)
}

// The place of the highest bit.
fn top_bit(v: u64) -> u8
    requires { v ≢ 0 }
    ensures high { 2 ^ result ≤ v }
    ensures highest { v < 2 ^ (result + 1) }
{
    63 - v.leading_zeros() as u8
}
