//! The devices over files and the standard streams. What they hold is not told.

#![tactic(auto)]

mod disk_files;
mod fault_count;
mod file_error;
mod file_lengths;
mod file_lock;
mod file_path;
mod file_rack;
mod file_source;
mod folder;
mod std_streams;
mod synced_file;

pub use file_lock::LockFile;
pub use file_rack::FileRack;
pub use file_source::FileSource;
pub use std_streams::{StdSink, StdSource};
