//! The linear program that an MPS program is, in its own numbering.
#![tactic(auto)]

mod by_place;
mod columns;
mod forms;
pub mod laws;
mod mps_fault;
mod program;
mod rows;
mod sides;
mod terms;
mod variables;

pub use columns::{Columns, sides_and_kinds};
pub use mps_fault::MpsFault;
pub use program::linear_of;
pub use rows::{constraint_sides, is_bounded_kind, objective_row, right_side, with_one};
pub use terms::is_zero;
pub use variables::first_empty;
