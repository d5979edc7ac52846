//! The control file on a rack's slate: its pages, each with one spelling, and writes after each of
//! which a stop is harmless.

#![tactic(auto)]

mod durable;
mod gates;
mod job_body;
mod job_gate;
mod job_start;
mod load_body;
mod load_gate;
mod map_body;
mod page_reader;
mod page_writer;
pub mod pages;
mod part_body;
mod pass_body;
mod pass_gate;
mod pass_pages;
mod progress;
mod same;
mod slots;
mod state;
mod state_reading;

pub use gates::{gate_page, is_gate};
pub use job_body::{decode_job, encode_job};
pub use job_gate::close_job;
pub use job_start::start_job;
pub use load_body::{decode_load, encode_load};
pub use load_gate::{close_load, open_load};
pub use part_body::{decode_part, encode_part};
pub use pass_body::{decode_pass, encode_pass};
pub use pass_gate::open_gate;
pub use progress::mark_part;
pub use same::{same_job, same_shape};
pub use state::{ControlError, SlateState};
pub use state_reading::{read_pass, read_state};
