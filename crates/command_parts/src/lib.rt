// What the commands of the bridge are made of, by formats: files opened through the desk, the
// stages, and the lines that tell refusals and verdicts.
#![tactic(auto)]

mod answer_input;
mod answer_told;
mod certificate_input;
mod certificate_told;
mod import_told;
mod input;
pub mod laws;
mod mps_input;
mod name_input;
mod nl_input;
mod nl_told;
mod proof_input;
mod proof_told;
mod sol_input;
mod stages;
mod verdict_told;

pub use answer_input::{open_answer, open_named};
pub use answer_told::return_refusal;
pub use certificate_input::{open_certificate, open_certificate_over};
pub use certificate_told::{claim_objective, is_held, outcome_line};
pub use import_told::import_refusal;
pub use mps_input::{open_fixed, open_mps};
pub use name_input::{open_columns, open_rows};
pub use nl_input::open_nl;
pub use nl_told::nl_refusal;
pub use proof_input::open_proof;
pub use proof_told::leaf_line;
pub use sol_input::open_sol;
pub use stages::{exported, fold_read, scale};
pub use verdict_told::{fit_refusal, is_yes, negative_refusal, verdict_line};
