//! Texts that the tests of several crates share.
#![tactic(auto)]

pub mod certificate_texts;
pub mod mps_texts;
pub mod nl_texts;
pub mod proof_texts;
