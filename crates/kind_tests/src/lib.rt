//! Worked rows of kernels over chosen bits.

#![tactic(auto)]

#[cfg(test)]
mod kernel_rows;
#[cfg(test)]
mod lists;
#[cfg(test)]
mod radix_rows;
