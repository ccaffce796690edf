// Rows and an objective times their factors, as decimals, the program that they are exported as,
// and its text.
#![tactic(auto)]

mod bound_lines;
mod bounds;
mod column_lines;
mod columns;
mod decimals;
mod entry_lines;
mod export;
mod factors;
mod fraction_sides;
mod heads;
mod heads_of;
pub mod laws;
mod listed_rows;
mod names;
mod numbers;
mod objectives;
mod pieces;
mod plain_sides;
mod program_columns;
mod row;
mod row_lines;
mod rows;
mod scale;
mod scale_fault;
mod scaled;
mod scaled_rows;
mod scaled_terms;
mod side_lines;
mod sides;
mod tied;
mod written;

pub use export::program;
pub use row::{FactoredRow, ScaledObjective, ScaledRow, Tie};
pub use scale::{scale_program, scale_rows};
pub use scale_fault::ScaleFault;
pub use scaled::Scaled;
pub use written::{text_in_pieces, write_exported};
