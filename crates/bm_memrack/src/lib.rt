//! Devices in memory: racks that never fail or fail as told, sources and sinks of bytes.

#![tactic(auto)]

mod block_copy;
mod crash_choice;
mod fault_list;
mod mem_rack;
mod mem_sink;
mod mem_source;
mod store;
mod sure_rack;
mod told_call;
mod untold_rack;

pub use mem_rack::MemRack;
pub use mem_sink::MemSink;
pub use mem_source::{MemSource, SureSource};
pub use sure_rack::SureRack;
pub use untold_rack::UntoldRack;
