//! What a scan knows.

use bm_gf2::Affine;

/// A record whose number is not the candidate's value.
#[derive(Clone, Copy, Debug, PartialEq, Eq)]
pub struct Difference {
    /// The address of the record.
    pub x: u64,
    /// The number that it holds.
    pub y: u64,
    /// The candidate's value at x.
    pub want: u64,
}

/// What the numbers of the first records say.
#[derive(Clone, Copy, Debug, PartialEq, Eq)]
pub struct Scan {
    /// The candidate, as far as it is known.
    pub map: Affine,
    /// How many columns are known: those of the unit addresses that were met.
    pub bits: u8,
    /// The first number that is not the candidate's value.
    pub first: Option<Difference>,
}
