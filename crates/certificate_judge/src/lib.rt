//! What a certificate of a solver's answer shows of a linear program.
#![tactic(auto)]

mod check;
mod given;
pub mod laws;
mod leaf;
mod outcome;
mod path;
mod plane;
mod point;
mod ray;
mod sides;
mod walk;

pub use check::check_certificate;
pub use given::numbers_of;
pub use outcome::{Cause, LeafFault, Outcome, PointFault, RayFault};
pub use walk::check_tree;
