// What is written is read as itself: .nl files, exported programs, imported programs.
#![tactic(auto)]

pub mod export_laws;
pub mod import_laws;
pub mod nl_laws;
