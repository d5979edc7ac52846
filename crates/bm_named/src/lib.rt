//! Address maps by name: reversals, transpositions, Gray codes, and maps by lists of bits or rows.

#![tactic(auto)]

mod explicit;
mod gray_code;
mod map_fault;
mod reversals;
mod shuffles;

pub use explicit::{bits, earlier, from_rows, with_complement};
pub use gray_code::{gray, inverse_gray};
pub use map_fault::MapFault;
pub use reversals::{bit_reversal, identity, reversal};
pub use shuffles::{rotation, transpose};
