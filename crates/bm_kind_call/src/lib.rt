//! Transforms over chosen bits and of further kinds, and the one call that carries them out.

#![tactic(auto)]

mod kind_call;
mod named_run;
mod text_reading;
mod words;

pub use kind_call::kind_top;
pub use words::{is_kind_word, kind_job};
