//! Worked rows of detection.

#![tactic(auto)]

#[cfg(test)]
mod lists;
