// A solver's answer as a .sol file: duals of the file's own rows, in its own sense.
#![tactic(auto)]

mod duals;
mod fault;
pub mod laws;
mod parts;
mod returned;

pub use fault::ReturnFault;
pub use parts::options_of;
pub use returned::{solution, solution_by_header};
