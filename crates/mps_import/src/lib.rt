//! An MPS program as an .nl file that means the same.
#![tactic(auto)]

mod build;
mod imported;
pub mod laws;
mod places;
mod rows;
mod terms;
mod variables;

pub use build::import;
pub use imported::{Imported, Order};
pub use mps_program::MpsFault as ImportFault;
