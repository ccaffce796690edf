//! The answer that a certificate shows, as a .sol file.
#![tactic(auto)]

pub mod laws;
mod numbers;
mod parts;
mod solution;

pub use solution::certified_solution;
