//! Calls of the top call over the files of the current folder, for tests.

#![tactic(auto)]

mod calling;

pub use calling::{clear, loaded, said, said_of, stored};
