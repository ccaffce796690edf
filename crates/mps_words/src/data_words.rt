// Data lines of the other sections.
ghost use Rattle.std.specs.Prelude.{◌≡◌, ◌⊎◌, ◌∷◌, [], true, None, Some, IfSome, MatchOption, length};
ghost use Rattle.text_base.specs.Names.{IsName};
ghost use Rattle.text_base.specs.Words.{texts, word_at};
ghost use Rattle.mps_words.specs.DataLines.{has_side_form, is_bad_set, is_marker, is_row_name, is_stretch_begin, is_stretch_end, is_word_with_pairs, row_in, row_kind_of, sense_of, side_pairs, side_set};

use crate::words::after_first;
use mps_model::RowKind;
use text_base::{is_name, word_at};

/// Whether the objective is maximised, by a word of the sense.
#[tactic(auto, unfolding(crate::specs::DataLines::sense_of))]
pub fn sense_of(word: &[u8]) -> Option<bool>
    ensures { result ≡ sense_of word.now }
{
    if word == b"MAX".as_slice() || word == b"MAXIMIZE".as_slice() {
        return Some(true);
    }
    if word == b"MIN".as_slice() || word == b"MINIMIZE".as_slice() {
        return Some(false);
    }
    None
}

/// The kind of a row that a letter names.
#[inline]
#[tactic(auto, unfolding(crate::specs::DataLines::row_kind_of))]
pub fn row_kind_of_one(letter: u8) -> Option<RowKind>
    ensures kind { result ≡ row_kind_of (letter ∷ []) }
    ensures name { IfSome result (λ k. IsName (letter ∷ [])) }
{
    match letter {
        b'N' => Some(RowKind::N),
        b'L' => Some(RowKind::L),
        b'G' => Some(RowKind::G),
        b'E' => Some(RowKind::E),
        _ => None,
    }
}

// The kind of a row that a word names.
#[tactic(auto, unfolding(crate::specs::DataLines::row_kind_of))]
fn row_kind_of(word: &[u8]) -> Option<RowKind>
    ensures { result ≡ row_kind_of word.now }
{
    match word {
        [letter] => row_kind_of_one(*letter),
        _ => None,
    }
}

// Whether a row may have this name.
fn is_row_name(word: &[u8]) -> bool
    ensures { result ≡ is_row_name word.now }
{
    is_name(word) && word != b"'MARKER'".as_slice()
}

/// The kind of the row that a line gives, with the second word as its name.
#[tactic(auto, unfolding(crate::specs::DataLines::row_in))]
pub fn row_in(words: &[&[u8]]) -> Option<RowKind>
    ensures row { MatchOption result (row_in (texts words.now) ≡ None)
        (λ kind. row_in (texts words.now)
        ≡ Some (record { name = word_at (texts words.now) 1; kind = kind })) }
    ensures name { IfSome result (λ kind. is_row_name (word_at (texts words.now) 1) ≡ true) }
{
    if words.len() != 2 || !is_row_name(word_at(words, 1)) {
        return None;
    }
    row_kind_of(word_at(words, 0))
}

/// Whether a line is that of a marker.
pub fn is_marker(words: &[&[u8]]) -> bool
    ensures { result ≡ is_marker (texts words.now) }
{
    words.len() == 3 && word_at(words, 1) == b"'MARKER'".as_slice()
}

pub fn is_stretch_begin(word: &[u8]) -> bool
    ensures { result ≡ is_stretch_begin word.now }
{
    word == b"'INTORG'".as_slice()
}

pub fn is_stretch_end(word: &[u8]) -> bool
    ensures { result ≡ is_stretch_end word.now }
{
    word == b"'INTEND'".as_slice()
}

/// Whether a line is a word, and one or two pairs.
pub fn is_word_with_pairs(words: &[&[u8]]) -> bool
    ensures { result ≡ is_word_with_pairs (texts words.now) }
{
    words.len() == 3 || words.len() == 5
}

/// The set name of a line; the empty one where it is missing.
pub fn side_set<'a>(words: &[&'a [u8]]) -> &'a [u8]
    ensures { result.now ≡ side_set (texts words.now) }
{
    if is_word_with_pairs(words) {
        return word_at(words, 0);
    }
    b"".as_slice()
}

/// Whether a line has one or two pairs, with a set name or without.
pub fn has_side_form(words: &[&[u8]]) -> bool
    ensures { result ≡ has_side_form (texts words.now) }
{
    2 <= words.len() && words.len() <= 5
}

/// The pairs of a line.
pub fn side_pairs<'a, 'b>(words: &'b [&'a [u8]]) -> &'b [&'a [u8]]
    requires { has_side_form (texts words.now) ≡ true }
    ensures pairs { texts result.now ≡ side_pairs (texts words.now) }
    ensures form { (length result.now ≡ 2) ⊎ (length result.now ≡ 4) }
{
    if is_word_with_pairs(words) {
        return after_first(words);
    }
    words
}

/// Whether a set name is given and is no name.
pub fn is_bad_set(set: &[u8]) -> bool
    ensures { result ≡ is_bad_set set.now }
{
    !set.is_empty() && !is_name(set)
}
