//! The sixteen records of one byte of the small example, and what its maps make of them.

/// The bytes 0 to 15.
pub const INPUT: &[u8] = &[0, 1, 2, 3, 4, 5, 6, 7, 8, 9, 10, 11, 12, 13, 14, 15];

/// The same with the bits of each address reversed.
pub const REVERSED: &[u8] = &[0, 8, 4, 12, 2, 10, 6, 14, 1, 9, 5, 13, 3, 11, 7, 15];

/// The same in Gray code: the byte at x moved to x XOR x / 2.
pub const GRAYED: &[u8] = &[0, 1, 3, 2, 7, 6, 4, 5, 15, 14, 12, 13, 8, 9, 11, 10];

/// The bytes 15 to 0.
pub const FLIPPED: &[u8] = &[15, 14, 13, 12, 11, 10, 9, 8, 7, 6, 5, 4, 3, 2, 1, 0];

/// The bytes 0 to 16: one record more than the example has.
pub const ONE_MORE: &[u8] = &[0, 1, 2, 3, 4, 5, 6, 7, 8, 9, 10, 11, 12, 13, 14, 15, 16];

/// What the bit reversal, the Gray code and the identity make of the bytes 0 to 15, one after
/// another.
pub const THREE_OUTPUTS: &[u8] = &[
    0, 8, 4, 12, 2, 10, 6, 14, 1, 9, 5, 13, 3, 11, 7, 15, 0, 1, 3, 2, 7, 6, 4, 5, 15, 14, 12, 13,
    8, 9, 11, 10, 0, 1, 2, 3, 4, 5, 6, 7, 8, 9, 10, 11, 12, 13, 14, 15,
];
