//! Worked batches over devices in memory.

#![tactic(auto)]

#[cfg(test)]
mod batch_rows;
#[cfg(test)]
mod calling;
#[cfg(test)]
mod refusals;
