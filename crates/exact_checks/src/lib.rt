// Linear programs by rows and by columns, numbers and rows against sides, and the bound of a leaf, in
// exact arithmetic of 128 bits: what all judges of points, duals and certificates share.
#![tactic(auto)]

mod columns;
mod copies;
mod costs;
mod form;
mod form_at;
mod leaf;
mod number;
mod pairs;
mod program;
mod readers;
mod short_fraction;
mod sides;
mod sums;
mod transpose;
mod verdict;
mod within;

pub use columns::Columns;
pub use costs::Costs;
pub use form::{Body, Row};
pub use form_at::value_of;
pub use leaf::{leaf_bound, sum_bound};
pub use number::{frac_is_at_most, fraction, is_negative, less_product, plus_product};
pub use pairs::{has_row_side, plus_row};
pub use program::Program;
pub use sides::{interval_at, needed_side, side_fraction};
pub use verdict::{BoundVerdict, Fault, Goal, Spot, Verdict, bound_refusal};
pub use within::is_within;
