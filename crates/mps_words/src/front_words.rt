// Words at the front of a text that is not cut into lines yet.
ghost use Rattle.std.specs.Prelude.{◌≡◌, ◌≤◌, ◌++◌, ◌∷◌, ◌+◌, true, IfSome, take, length};
ghost use Rattle.std.specs.Str.{bytes_eq};
ghost use Rattle.text_base.specs.Names.{IsName, has_name_bytes};
ghost use Rattle.mps_model.specs.Valid.{marker_word};
ghost use Rattle.mps_words.specs.InsideFronts.{IsNumberText, IsPairText};

use exact_numbers::{Dec, front_dec};

/// A name has at most so many bytes.
const LONGEST: usize = 255;

// Whether the first eight bytes are there, and a name may have them.
#[inline(always)]
fn has_eight(bytes: &[u8]) -> bool
    ensures long { result ≡ true → 8 ≤ length bytes.now }
    ensures each { result ≡ true → has_name_bytes (take 8 bytes.now) ≡ true }
{
    match bytes {
        [a, b, c, d, e, f, g, h, ..] => {
            (*a > 32)
                & (*b > 32)
                & (*c > 32)
                & (*d > 32)
                & (*e > 32)
                & (*f > 32)
                & (*g > 32)
                & (*h > 32)
        }
        _ => false,
    }
}

// Of how many bytes the first groups of eight are that a name may have.
#[inline(always)]
fn groups_len(bytes: &[u8]) -> usize
    ensures within { result ≤ length bytes.now }
    ensures each { has_name_bytes (take result bytes.now) ≡ true }
{
    let mut rest = bytes;
    let mut passed = 0;
    'groups: while has_eight(rest) {
        rest = rest.split_at(8).1;
        passed += 8;
    }
    passed
}

// How many bytes come first that a name may have.
#[inline(always)]
fn name_len(bytes: &[u8]) -> usize
    ensures within { result ≤ length bytes.now }
    ensures each { has_name_bytes (take result bytes.now) ≡ true }
{
    let mut passed = groups_len(bytes);
    'bytes: while passed < bytes.len() {
        if bytes[passed] < 33 {
            return passed;
        }
        passed += 1;
    }
    passed
}

/// What follows the space that a text begins with.
#[inline(always)]
pub fn after_space(text: &[u8]) -> Option<&[u8]>
    ensures { IfSome result (λ rest. text.now ≡ 32 ∷ rest.now) }
{
    match text {
        [first, rest @ ..] => {
            if *first == b' ' {
                return Some(rest);
            }
            None
        }
        [] => None,
    }
}

/// The name that a text begins with, before this byte, and what follows that.
#[inline(always)]
pub fn first_name(text: &[u8], end: u8) -> Option<(&[u8], &[u8])>
    ensures name { IfSome result (λ p. IsName p.0.now) }
    ensures parts { IfSome result (λ p. text.now ≡ p.0.now ++ end ∷ p.1.now) }
{
    let len = name_len(text);
    if len == 0 || len > LONGEST || len >= text.len() || text[len] != end {
        return None;
    }
    Some((text.split_at(len).0, text.split_at(len + 1).1))
}

/// Whether a word is that of a marker line.
#[inline]
pub fn is_marker_word(word: &[u8]) -> bool
    ensures { result ≡ bytes_eq word.now marker_word }
{
    word.len() == 8 && word == b"'MARKER'".as_slice()
}

/// A number at the end of a line, and what follows the LF.
#[derive(Clone, Copy)]
pub struct NumberText<'a> {
    pub value: Dec,
    pub rest: &'a [u8],
}

/// The number that a text begins with, where that has the common form and ends the line.
#[inline(always)]
pub fn first_number(text: &[u8]) -> Option<NumberText<'_>>
    ensures { IfSome result (λ n. IsNumberText text.now n.value n.rest.now) }
{
    let Some(number) = front_dec(text) else {
        return None;
    };
    if number.len >= text.len() || text[number.len] != b'\n' {
        return None;
    }
    Some(NumberText {
        value: number.value,
        rest: text.split_at(number.len + 1).1,
    })
}

/// A name and a value at the end of a line, and what follows the LF.
#[derive(Clone, Copy)]
pub struct PairText<'a> {
    pub name: &'a [u8],
    pub value: Dec,
    pub rest: &'a [u8],
}

/// The pair that a text begins with, where that is a name, a space and a number of the common form,
/// and ends the line.
#[inline]
pub fn first_pair(text: &[u8]) -> Option<PairText<'_>>
    ensures { IfSome result (λ p. IsPairText text.now p.name.now p.value p.rest.now) }
{
    let Some((name, rest)) = first_name(text, b' ') else {
        return None;
    };
    let Some(number) = first_number(rest) else {
        return None;
    };
    Some(PairText {
        name,
        value: number.value,
        rest: number.rest,
    })
}
