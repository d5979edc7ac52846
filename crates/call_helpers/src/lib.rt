//! Calls of the program from a line of words, over devices in memory, for the tests of each call.

#![tactic(auto)]

mod answers;
mod calling;

pub use answers::{Answer, line_sink, output_sink};
pub use calling::{said, said_over};
