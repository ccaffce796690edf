// MPS programs, their meaning and written text, and lists of names.
#![tactic(auto)]

mod builder;
mod kinds;
pub mod laws;
mod list;
mod numerals;
mod parts;
mod program;

pub use builder::MpsBuilder;
pub use kinds::{BoundKind, RowKind};
pub use list::NameList;
pub use numerals::numbered;
pub use parts::{MpsColumn, MpsRow};
pub use program::Mps;
