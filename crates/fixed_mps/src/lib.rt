//! Reading MPS texts of fixed columns: each line is read as its free form.
#![tactic(auto)]

mod fields;
mod grammar;
pub mod laws;
mod reader;

pub use grammar::FixedGrammar;
pub use reader::FixedReader;
