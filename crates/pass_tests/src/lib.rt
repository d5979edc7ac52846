//! Worked passes and placings over devices in memory.

#![tactic(auto)]

#[cfg(test)]
mod pass_rows;
#[cfg(test)]
mod placing_rows;
