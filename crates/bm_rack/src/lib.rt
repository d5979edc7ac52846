//! The devices as their callers see them: a rack of disks with a slate of pages, a source and a sink of bytes.

#![tactic(auto)]

mod places;
mod rack;
mod sink;
mod source;
mod stop_rack;

pub use places::same_places;
pub use rack::{AttachError, CreateError, Found, Rack};
pub use sink::{Sink, write_all_of};
pub use source::Source;
pub use stop_rack::StopRack;
