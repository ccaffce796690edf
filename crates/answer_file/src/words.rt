// Words of lines, and the numbers that they are.
ghost use Rattle.std.specs.Prelude.{◌≡◌, drop, length, codes};
ghost use Rattle.std.specs.Str.{bytes_eq};
ghost use Rattle.text_base.specs.Words.{texts, without_blanks, word_at};
ghost use Rattle.answer_file.specs.Entries.{number_below, status_in, sign_in, objective_in, kind_in, message_in};

use exact_numbers::whole_of;
use text_base::{skip_blanks, word_at};

/// A status is below this number.
const STATUS_LIMIT: u32 = 1000;

/// The kind of a suffix is below this number.
const KIND_LIMIT: u32 = 8;

// The whole number below a limit that a word is.
fn number_below(limit: u32, word: &[u8]) -> Option<u32>
    ensures { result ≡ number_below limit word.now }
{
    match whole_of(word) {
        Some(number) if number < limit => Some(number),
        _ => None,
    }
}

/// The status that the second word is.
pub(crate) fn status_in(words: &[&[u8]]) -> Option<u32>
    ensures { result ≡ status_in (texts words.now) }
{
    number_below(STATUS_LIMIT, word_at(words, 1))
}

/// The kind of a suffix that the second word is.
pub(crate) fn kind_in(words: &[&[u8]]) -> Option<u32>
    ensures { result ≡ kind_in (texts words.now) }
{
    number_below(KIND_LIMIT, word_at(words, 1))
}

/// The objective's number that the second word is.
pub(crate) fn objective_in(words: &[&[u8]]) -> Option<u32>
    ensures { result ≡ objective_in (texts words.now) }
{
    whole_of(word_at(words, 1))
}

/// Whether duals are given as for minimising, by the second word.
pub(crate) fn sign_in(words: &[&[u8]]) -> Option<bool>
    ensures { result ≡ sign_in (texts words.now) }
{
    let word = word_at(words, 1);
    if word == b"min".as_slice() {
        return Some(true);
    }
    if word == b"rate".as_slice() {
        return Some(false);
    }
    None
}

/// What follows the word `message` and one blank.
pub(crate) fn message_in(line: &[u8]) -> &[u8]
    ensures { result.now ≡ message_in line.now }
{
    let rest = skip_blanks(line);
    if rest.len() < 8 { &[] } else { &rest[8..] }
}
