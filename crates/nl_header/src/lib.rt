// The header of an .nl file, read a line at a time by the table of its fields, and the kinds of its
// variables.
#![tactic(auto)]

mod fault;
mod first_line;
mod number_line;
mod reader;
mod rules;

pub use fault::HeadFault;
pub use nl_model::kinds_of;
pub use reader::HeaderReader;
