// What commands over a desk are made of, of whatever format: the loops, how a command ends, what it
// promises, and the lines of refusals.
#![tactic(auto)]

mod answer;
mod one_file;
mod refused;
mod told;
mod transfer;

pub use answer::Answer;
pub use one_file::{answered, end, end_in_pieces, missed, read};
pub use refused::Refusal;
pub use told::{fixed, put, put_number, put_refused_at, put_signed, refusal, refusal_of};
pub use transfer::{LIMIT, tell_line};
