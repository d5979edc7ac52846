//! Worked rows of vectors, matrices, named maps and forms.

#![tactic(auto)]

#[cfg(test)]
mod algebra_rows;
