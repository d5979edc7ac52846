//! Forms of maps that a pass can do, jobs, passes and plans, and what they mean.

#![tactic(auto)]

mod bound;
mod job;
mod mld_form;
mod mrc;
mod pass_form;
mod passes;
mod plan;
mod rounds;

pub use bound::{map_limit, pass_limit};
pub use job::Job;
pub use mld_form::{FormError, MldForm};
pub use mrc::is_mrc;
pub use pass_form::PassForm;
pub use passes::{map_passes, pass_count, rotation_passes};
pub use plan::Plan;
pub use rounds::{last_bits, round_count};
