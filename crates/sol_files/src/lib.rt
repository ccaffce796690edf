//! Reading and writing .sol files, and building their values.
#![tactic(auto)]

mod awaited;
mod builder;
mod fault;
mod grammar;
pub mod laws;
mod number_lines;
mod parts;
mod reader;
mod rows;
mod sol;
mod suffix;
mod suffix_rows;
mod tail_lines;
mod write;

pub use builder::SolBuilder;
pub use fault::{Refusal, SolFault, SolReason, told};
pub use grammar::SolGrammar;
pub use reader::SolReader;
pub use sol::Sol;
pub use suffix::SolSuffix;
pub use write::write_sol;
