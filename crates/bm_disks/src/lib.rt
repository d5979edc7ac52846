//! What the commands do on attached disks: they load records, dump an area, drop a job, and look at
//! the one that is open.

#![tactic(auto)]

mod dropping;
mod dumping;
mod gate_closing;
mod input_loads;
mod job_opening;
mod load_error;
mod loading;
mod source_bytes;

pub use dropping::{DropError, drop_job};
pub use dumping::{DumpError, dump_records};
pub use gate_closing::shut_gates;
pub use input_loads::read_loads;
pub use job_opening::{OpenError, OpenJob, open_job};
pub use load_error::LoadError;
pub use loading::load_records;
pub use source_bytes::{FillError, fill, is_at_end};
