// Reading the answers of solvers: lines of values by the names of columns and rows.
#![tactic(auto)]

mod answer;
mod fault;
mod grammar;
mod group;
mod keyword;
pub mod laws;
mod named_places;
mod naming;
mod parts;
mod reader;
mod scope;
mod suffixes;
mod table;
mod target;
mod values;
mod words;

pub use answer::Answer;
pub use fault::{AnswerFault, AnswerReason};
pub use grammar::AnswerGrammar;
pub use reader::{AnswerReader, read_answer};
pub use scope::Scope;
