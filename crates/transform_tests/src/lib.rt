//! Worked rows of the transform's plan.

#![tactic(auto)]

#[cfg(test)]
mod plans;
