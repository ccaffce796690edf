// Scaled linear programs and the MPS programs of them, and that they mean the same. There is no
// code.
#![tactic(auto)]

pub mod exported_laws;
pub mod laws;
