// The linear program of an .nl file: its expressions folded to linear forms.
#![tactic(auto)]

mod ascending;
mod bodies;
mod completing;
mod constants;
mod definitions;
mod entries;
mod expression;
mod fold;
mod fold_fault;
mod held;
mod leaf_sums;
mod operate;
mod owners;
mod parts;
mod program;
mod sums;

pub use fold_fault::FoldFault;
pub use linear_program::{Form, FormTerms, Linear, Pad, Wide};
pub use program::{fold_all, fold_file};
