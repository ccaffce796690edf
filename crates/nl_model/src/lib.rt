// The values of .nl files and their builder, what .sol files share with them, and what a file
// means.
#![tactic(auto)]

mod at;
mod builder;
mod decs;
mod definition;
mod expr;
mod expr_builder;
mod fault;
mod file;
pub mod file_laws;
mod header;
mod header_counts;
mod header_rules;
mod kinds;
pub mod laws;
mod node;
mod objective;
mod options;
mod places;
mod suffix;
mod suffix_kinds;
pub mod tree_laws;

pub use at::{At, Owner};
pub use builder::NlBuilder;
pub use decs::Decs;
pub use definition::Def;
pub use expr::Expr;
pub use expr_builder::ExprBuilder;
pub use fault::{Fault, Reason};
pub use file::NlFile;
pub use header::Header;
pub use header_counts::Counts;
pub use header_rules::{are_shared_within, are_whole_within, defined_count};
pub use kinds::{all_kinds, kinds_of};
pub use linear_program::{Interval, Kind, Terms};
pub use node::Node;
pub use options::{Options, has_second_three};
pub use suffix::Suffix;
pub use suffix_kinds::{
    Objects, has_same_objects, is_for_objectives, object_limit, objects_of, wants_whole,
};
