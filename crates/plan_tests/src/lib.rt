//! Worked plans, run pass after pass over devices in memory.

#![tactic(auto)]

#[cfg(test)]
mod plan_rows;
