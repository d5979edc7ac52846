//! What the tests of several layers share: areas as lists of bytes, lists of records, random maps,
//! a large matrix, the small example, words and texts of jobs, lines, devices in memory.

#![tactic(auto)]

mod areas;
mod devices;
mod lines;
mod matrices;
mod random_maps;
mod record_lists;
mod sixteen_bytes;
mod texts;

pub use areas::{areas_of, has_disks, is_attached, read_area, write_area};
pub use devices::{bytes_source, rack_of, text_source};
pub use lines::{DONE, DONE_BOTH, DONE_LEFT, DONE_RIGHT, FAULT_LEFT, FAULT_RIGHT, RACK_FAULT};
pub use matrices::is_transposed;
pub use random_maps::{draw, draw_map};
pub use record_lists::{counted, has_moved, pattern, records_of};
pub use sixteen_bytes::{FLIPPED, GRAYED, INPUT, ONE_MORE, REVERSED, THREE_OUTPUTS};
pub use texts::{
    GRAY, IDENTITY, MARKED_GRAY, MARKED_REVERSAL, ONE_DISK, REVERSAL, SMALL_MEMORY, TRANSPOSE,
    text_with, words_of,
};
