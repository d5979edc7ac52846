//! Ranks, inverses, kernels and solutions of matrices over GF(2), by elimination.

#![tactic(auto)]

mod column_rank;
mod echelon;
mod inversion;
mod kernel;
mod row_solution;

pub use column_rank::rank_of;
pub use echelon::Echelon;
pub use inversion::{Singular, inverse};
pub use kernel::kernel_least;
pub use row_solution::{Outside, cut_rows, solve_rows};
