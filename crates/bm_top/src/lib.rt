//! The commands, and the one call that carries them out.

#![tactic(auto)]

mod answer_line;
mod commands;
mod disk_status;
mod disks;
mod job_reading;
mod job_words;
mod planning;
mod source_text;
mod status;
mod status_words;
mod task;
mod top_call;
mod words;

pub use answer_line::write_answer;
pub use disk_status::{dump_status, load_status, run_status};
pub use disks::{DisksError, attach_disks, create_disks, disks_status, new_disks};
pub use job_reading::read_task;
pub use planning::make_plan;
pub use source_text::job_text;
pub use status::Status;
pub use task::Task;
pub use top_call::bmmc_top;
pub use words::{Command, Flip, Verb, command_of, job_word, word_number};
