//! Vectors, matrices and affine maps over GF(2), as numbers of at most 52 bits.

#![tactic(auto)]

mod affine;
mod column_change;
mod matrix;
mod row_map;
mod spread;
mod stepper;
mod vector;

pub use affine::Affine;
pub use matrix::Matrix;
pub use row_map::RowMap;
pub use spread::Spread;
pub use stepper::Stepper;
pub use vector::{MOST_COLUMNS, no_columns, sum_of_columns};
