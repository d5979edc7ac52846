//! The printed texts, byte for byte.

#![tactic(auto)]

#[cfg(test)]
mod text_rows;
