// Words that are fractions, and words that are whole numbers.
ghost use Rattle.std.specs.Prelude.{◌≡◌};
ghost use Rattle.std.specs.List.{position};
ghost use Rattle.exact_numbers.specs.Words.{decimal_frac, frac_of, is_slash, ratio_of, whole_in, whole_number_of, wide_of};

use crate::{Dec, Frac, are_digits, dec_of};
use std::str;

// The number that digits write, with a sign before them or none, below 2^127 in size.
fn wide_of(word: &[u8]) -> Option<i128>
    ensures { result ≡ wide_of word.now }
{
    let Ok(text) = str::from_utf8(word) else {
        return None;
    };
    let Ok(number) = i128::from_str_radix(text, 10) else {
        return None;
    };
    if number == i128::MIN {
        return None;
    }
    Some(number)
}

// A sign or none and digits, over digits.
fn ratio_of(top: &[u8], bottom: &[u8]) -> Option<Frac>
    ensures { result ≡ ratio_of top.now bottom.now }
{
    if !are_digits(bottom) {
        return None;
    }
    let Some(num) = wide_of(top) else {
        return None;
    };
    let Some(den) = wide_of(bottom) else {
        return None;
    };
    Frac::new(num, den)
}

// The fraction of a decimal number, where it fits.
fn decimal_frac(number: Option<Dec>) -> Option<Frac>
    ensures { result ≡ decimal_frac number }
{
    match number {
        Some(decimal) => Frac::of_dec(decimal),
        None => None,
    }
}

// Where a slash stands first.
fn slash_place(word: &[u8]) -> Option<usize>
    ensures { result ≡ position is_slash word.now }
{
    word.iter().position(|b| *b == b'/')
}

/// The number of a word: of a decimal text that a Dec and a fraction hold, or of `P/Q`, where P is
/// digits with a sign or none, Q is digits, both are below 2^127, and Q is not 0. None of any other
/// word.
#[tactic(auto, unfolding(crate::specs::Words::frac_of))]
pub fn frac_of(word: &[u8]) -> Option<Frac>
    ensures { result ≡ frac_of word.now }
{
    match slash_place(word) {
        Some(place) => ratio_of(&word[..place], &word[place + 1..]),
        None => decimal_frac(dec_of(word)),
    }
}

// The number, where it is whole.
fn whole_in(number: Option<Frac>) -> Option<i128>
    ensures { result ≡ whole_in number }
{
    let Some(fraction) = number else {
        return None;
    };
    if fraction.den() != 1 {
        return None;
    }
    Some(fraction.num())
}

/// The whole number that a word is; none of any other word.
#[tactic(auto, unfolding(crate::specs::Words::whole_number_of))]
pub fn whole_number_of(word: &[u8]) -> Option<i128>
    ensures { result ≡ whole_number_of word.now }
{
    whole_in(frac_of(word))
}
