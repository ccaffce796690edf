// Reading .nl files: their segments, one line after the other.
#![tactic(auto)]

mod binaries;
mod body;
mod body_columns;
mod body_fronts;
mod body_heads;
mod body_intervals;
mod body_leaves;
mod body_lines;
mod body_nodes;
mod body_operands;
mod body_pairs;
mod body_pieces;
mod body_terms;
mod closing;
mod current;
mod ending;
mod grammar;
pub mod laws;
mod nl_read;
mod nl_reader;
mod places;
mod seen;
mod stage;

pub use grammar::NlGrammar;
pub use nl_lines::{NlFault, NlReason};
pub use nl_read::NlRead;
pub use nl_reader::{NlReader, fault_of, read_nl};
pub use places::Places;
