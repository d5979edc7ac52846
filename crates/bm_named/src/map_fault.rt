//! What can be wrong with a map.

/// Why a map of a job is refused.
#[derive(Clone, Copy, Debug, PartialEq, Eq)]
pub enum MapFault {
    /// The records are no numbers of 8 bytes.
    Width,
    /// The side of a transposition has p bits, more than an address.
    Side { p: u8 },
    /// The list has `got` entries and not n; `2 ^ 32 - 1` stands for all greater lengths.
    Length { got: u32 },
    /// Entry i of a list of bits is the first that is no bit of an address.
    Range { i: u8 },
    /// Entry j of a list of bits is the first that repeats an earlier one, entry i.
    Twice { i: u8, j: u8 },
    /// Row i is the first with a bit past the addresses.
    Wide { i: u8 },
    /// The matrix sends x to 0, the least such but 0.
    Singular { x: u64 },
    /// The constant c has a bit past the addresses.
    Complement { c: u64 },
}
