//! Where the records of a load go.

use bm_gf2::Matrix;

/// The map of a load's records: the record of number x goes to the place `a x XOR plus`.
#[derive(Clone, Copy, Debug, PartialEq, Eq)]
pub struct Placing {
    pub a: Matrix,
    pub plus: u64,
    /// The bytes of a record.
    pub width: u16,
}
