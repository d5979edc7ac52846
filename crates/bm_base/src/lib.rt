//! The words that every layer shares: shapes, dims, limits, areas, faults, fields, numbers and reports.

#![tactic(auto)]

mod area;
mod dims;
mod fault;
mod field_name;
mod limits;
mod numbers;
mod power;
mod report;
mod shape;
mod stops;

pub use area::{Area, area_of};
pub use dims::Dims;
pub use fault::{Failed, OutOfMemory};
pub use field_name::FieldName;
pub use limits::{
    MOST_ADDRESS_BITS, MOST_CHECKPOINT_PASSES, MOST_DISK_BITS, MOST_DISK_BYTES_BITS, MOST_DISKS,
    MOST_LOAD_BITS, MOST_PASSES, MOST_TEXT_BYTES, MOST_WIDTH, NO_SLOT, NUMBER_BYTES, PAGE_BYTES,
    SLATE_BYTES, SLATE_PAGES, TEXT_ROOM,
};
pub use numbers::number_at;
pub use power::log2_of;
pub use report::{DrillReport, RunReport, SessionsReport};
pub use shape::{Shape, ShapeRule};
pub use stops::{Stop, Stops};
