//! Jobs.

use bm_gf2::Affine;

/// What is to be done with the N records.
#[derive(Clone, Copy, Debug, PartialEq, Eq)]
pub enum Job {
    /// The record at x goes to the image of x.
    Permute(Affine),
    /// The Walsh-Hadamard transform, of records that are numbers of 8 bytes.
    Walsh,
}
