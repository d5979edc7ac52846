//! The texts that the commands print.

#![tactic(auto)]

mod drill_text;
mod job_text;
mod line;
mod number;
mod plan_text;
mod report_text;
mod status_text;
mod step_cost;

pub use drill_text::write_drill;
pub use job_text::write_job;
pub use line::write_line;
pub use number::push_number;
pub use plan_text::write_plan;
pub use report_text::write_report;
pub use status_text::write_status;
