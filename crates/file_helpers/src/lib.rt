//! What tests over real files share: a folder for each test, files that note and fail, and the
//! words of a call.

#![tactic(auto)]

mod call_notes;
mod double;
mod folders;

pub use call_notes::Notes;
pub use double::{Watched, WatchedFile};
pub use folders::enter_empty_folder;
