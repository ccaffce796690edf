// Linear programs: what they mean, forms with exact coefficients, rows and variables with sides
// and kinds, and terms sorted into lists.
#![tactic(auto)]

mod accumulator;
mod buckets;
mod by_column;
mod chunks;
mod coefficients;
mod decimal_terms;
mod few;
mod form;
mod form_terms;
mod fraction_terms;
mod interval;
mod kind;
mod linear;
mod marked_places;
mod merged;
mod number;
mod pad;
mod part_lists;
mod sent;
mod sum;
mod terms;
mod too_wide;

pub use buckets::{Buckets, part_end};
pub use by_column::{count_terms, empty_columns};
pub use coefficients::Coefficients;
pub use few::Few;
pub use form::Form;
pub use form_terms::FormTerms;
pub use interval::Interval;
pub use kind::Kind;
pub use linear::{Linear, LinearParts};
pub use number::Number;
pub use pad::Pad;
pub use part_lists::PartLists;
pub use sum::Sum;
pub use terms::Terms;
pub use too_wide::Wide;
