//! Kernels on pairs of numbers, over chosen address bits of records in memory.

#![tactic(auto)]

mod at_places;
mod few_bits;
mod group;
mod low_run;
mod lowest;

pub use at_places::kernel_at;
pub use bm_butter::{Differences, Kernel, Signs, Sums, Xors};
pub use few_bits::radix;
