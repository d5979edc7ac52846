//! The plan of the Walsh-Hadamard transform.

#![tactic(auto)]

mod error;
mod rounds;

pub use error::WalshError;
pub use rounds::walsh_plan;
