//! Why no map was detected.

/// Why the numbers of the input are no affine permutation of their addresses.
#[derive(Clone, Copy, Debug, PartialEq, Eq)]
pub enum DetectError {
    /// A row call failed.
    Failed,
    /// Some number is no address. These are the least such x and its number.
    OutOfRange {
        /// The address of the record.
        x: u64,
        /// The number that it holds, N or more.
        y: u64,
    },
    /// All are addresses, and some number is not the candidate's value. This is the least such x.
    NotAffine {
        /// The address of the record.
        x: u64,
        /// The number that it holds.
        y: u64,
        /// The candidate's value at x.
        want: u64,
    },
    /// All numbers are the candidate's values, and its matrix is singular.
    Singular {
        /// The least vector but 0 that the matrix sends to 0.
        x: u64,
    },
}
