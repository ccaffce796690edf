//! Written texts: lines of words, a space between words and LF after each line.
#![tactic(auto)]

pub mod laws;
mod line_text;
mod words;

pub use line_text::LineText;
pub use words::{
    put, put_dec, put_end, put_line, put_next, put_next_dec, put_next_number, put_next_numbers,
    put_next_signed, put_number, put_signed,
};
