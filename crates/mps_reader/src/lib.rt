//! Reading MPS texts, one line after the other: the program, or the first fault.
#![tactic(auto)]

mod bounds;
mod columns;
mod fault;
mod front_bounds;
mod front_columns;
mod front_lines;
mod front_pairs;
mod front_rows;
mod grammar;
pub mod laws;
mod pairs;
mod reader;
mod rows;
mod sections;
mod side_lines;
mod sides;
mod state;

pub use fault::{MpsFault, MpsReason};
pub use grammar::MpsGrammar;
pub use reader::MpsReader;
