//! Lines that commands say.

/// The line of a command that is done.
pub const DONE: &str = "bmmc: done\n";

/// The line of a command whose rack failed.
pub const RACK_FAULT: &str = "bmmc: rack fault\n";

/// The lines of a command over a mirror that is done with both sides in.
pub const DONE_BOTH: &str = "bmmc: done\nsides left right\n";

/// The lines of one that is done with the left side in.
pub const DONE_LEFT: &str = "bmmc: done\nsides left\n";

/// The lines of one that is done with the right side in.
pub const DONE_RIGHT: &str = "bmmc: done\nsides right\n";

/// The lines of a command over a mirror that failed with the left side in.
pub const FAULT_LEFT: &str = "bmmc: rack fault\nsides left\n";

/// The lines of one that failed with the right side in.
pub const FAULT_RIGHT: &str = "bmmc: rack fault\nsides right\n";
