//! Jobs of the further kernels: their text, and the plan of their passes.

#![tactic(auto)]

mod error;
mod key_pairs;
mod kind_file;
mod kind_names;
mod one_load;
mod plans;
mod reading;
mod runs;
mod set_list;
mod whole_pass;

pub use error::KindError;
pub use kind_file::KindFile;
pub use kind_names::KindName;
pub use plans::{KindPlan, kind_plan};
pub use reading::read_kind;
pub use runs::run_kind;
