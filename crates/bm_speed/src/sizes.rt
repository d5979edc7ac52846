//! How much a run of the program moves, and what it prints.

ghost use Rattle.std.specs.Prelude.{◌≡◌, ◌+◌, ◌<◌, ◌≤◌};

/// The sizes of a move.
#[derive(Clone, Copy, Debug)]
pub struct Sizes {
    /// Whether the lines have times.
    pub measured: bool,
    /// lg of the bytes of a load.
    pub load_bits: u8,
    /// lg of the bytes of a row.
    pub row_bits: u8,
    pub ghost load_in: { load_bits ≤ 26 },
    pub ghost row_least: { 12 ≤ row_bits },
    pub ghost row_in: { row_bits < load_bits },
}
