//! The sizes of a rack.

/// The sizes of a rack of disks, as in the parallel disk model of Vitter and Shriver.
#[derive(Clone, Copy, Debug, PartialEq, Eq)]
pub struct Dims {
    /// D: the number of disks.
    pub disks: u32,
    /// The blocks of each disk.
    pub places: u64,
    /// The bytes of a block.
    pub block: u32,
}
