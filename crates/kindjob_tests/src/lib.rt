//! Worked rows of jobs of the further kernels.

#![tactic(auto)]

#[cfg(test)]
mod file_rows;
#[cfg(test)]
mod run_rows;
