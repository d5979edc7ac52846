//! The commands over a mirror of two racks, and the one call that carries them out.

#![tactic(auto)]

mod healing;
mod mirror_call;
mod sides_line;
mod words;

pub use mirror_call::mirror_top;
pub use words::{is_mirror_word, mirror_job};
