// Words that are numbers.
ghost use Rattle.std.specs.Prelude.{◌≡◌, ◌<◌, ◌≤◌, IfSome, Some, length, take};
ghost use Rattle.exact_numbers.specs.Numbers.{are_digits, dec_of, signed_of, whole_of, IsUnmarked};

use crate::dec::Dec;
use crate::read::{NumFault, read_dec, read_whole};
use std::str;

/// The number that digits write, up to 2^31 - 1; none of any other word.
pub fn whole_of(word: &[u8]) -> Option<u32>
    ensures { result ≡ whole_of word.now }
{
    match read_whole(word) {
        Ok(number) => Some(number),
        Err(_) => None,
    }
}

/// Whether a word is one digit or more, and nothing else.
pub fn are_digits(word: &[u8]) -> bool
    ensures { result ≡ are_digits word.now }
{
    match read_whole(word) {
        Ok(_) => true,
        Err(NumFault::TooWide) => true,
        Err(NumFault::NotNumber) => false,
    }
}

/// The number that digits write, with a sign before them or none, from -2^31 to 2^31 - 1; none of
/// any other word.
pub fn signed_of(word: &[u8]) -> Option<i32>
    ensures { result ≡ signed_of word.now }
{
    let Ok(text) = str::from_utf8(word) else {
        return None;
    };
    match i32::from_str_radix(text, 10) {
        Ok(number) => Some(number),
        Err(_) => None,
    }
}

/// The number of a decimal text, where a Dec has it; none of any other word.
pub fn dec_of(word: &[u8]) -> Option<Dec>
    ensures { result ≡ dec_of word.now }
{
    match read_dec(word) {
        Ok(number) => Some(number),
        Err(_) => None,
    }
}
