//! The job text: a shape, a job, and what a drill and a run are told, read from a TOML document.

#![tactic(auto)]

mod drill_table;
mod fields;
mod job_file;
mod key_tables;
mod kinds;
mod map_job;
mod map_table;
mod number_lists;
mod reading;
mod run_table;
mod shape_table;

pub use fields::{FieldError, array_field, table_field, value_at};
pub use job_file::{JobError, JobFile};
pub use key_tables::{TableName, has_known_keys};
pub use kinds::Kind;
pub use number_lists::{ByteList, bytes_of};
pub use reading::{document_in, read_job};
pub use shape_table::{ShapeNumbers, shape_numbers};
