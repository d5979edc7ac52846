//! The butterflies of the Walsh-Hadamard transform, and other kernels on pairs of numbers, on
//! records in memory.

#![tactic(auto)]

mod at_places;
mod blocks;
mod in_place;
mod kernels;
mod lone;
mod low_bits;
mod on_bit;
mod on_two_bits;
mod pair;
mod quad;
mod without;

pub use at_places::{one_at, two_at};
pub use in_place::butterflies;
pub use kernels::{Differences, Kernel, Signs, Sums, Xors};
pub use lone::lone_bit;
pub use low_bits::{butterflies_at, lowest_at};
pub use pair::set_number;
