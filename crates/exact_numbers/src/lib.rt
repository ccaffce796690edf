// Exact numbers: fractions without bound as definitions and laws, decimals and fractions of 128
// bits, and the words that are numbers.
#![tactic(auto)]

mod arithmetic;
mod dec;
mod frac;
pub mod fraction_laws;
mod fraction_words;
mod front;
mod gcd;
pub mod laws;
mod mantissa;
mod num_text;
mod numbers;
mod of_dec;
mod order;
mod read;
mod short;
pub mod word_laws;
mod words;
mod write;

pub use arithmetic::lcm;
pub use dec::Dec;
pub use frac::Frac;
pub use fraction_words::{frac_of, whole_number_of};
pub use front::{FrontDec, PlainIndex, front_dec, plain_index};
pub use mantissa::MAXN;
pub use num_text::NumText;
pub use numbers::{are_digits, dec_of, signed_of, whole_of};
pub use read::{NumFault, read_dec, read_whole};
