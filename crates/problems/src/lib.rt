// The problems that .nl files and MPS programs state, and what a verdict on their linear programs
// says of them. There is no code.
#![tactic(auto)]

pub mod mps_laws;
pub mod nl_laws;
