//! The two sides of a mirror.

/// One of the two racks of a mirror.
#[derive(Clone, Copy, Debug, PartialEq, Eq)]
pub enum Side {
    /// The left rack, which is asked first.
    Left,
    /// The right rack.
    Right,
}

/// Which sides of a mirror are in: they hold what the mirror holds, and are asked.
#[derive(Clone, Copy, Debug, PartialEq, Eq)]
pub struct Sides {
    /// The left rack is in.
    pub left: bool,
    /// The right rack is in.
    pub right: bool,
}
