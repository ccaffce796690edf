//! Files of names of rows and columns, and programs with these names.
#![tactic(auto)]

mod fault;
mod grammar;
pub mod laws;
mod new_names;
mod reader;
mod renaming;

pub use fault::{NameFault, NameReason};
pub use grammar::NameGrammar;
pub use mps_model::{NameList, numbered};
pub use reader::NameReader;
pub use renaming::rename;
