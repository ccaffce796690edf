// Words of rows.
ghost use Rattle.std.specs.Prelude.{◌≡◌, slice_index, drop, codes};
ghost use Rattle.text_base.specs.Words.{texts};
ghost use Rattle.nl_lines.specs.Heads.{letter_of, own_number, number_at, is_among, is_head, is_refused_letter, is_segment_letter};
ghost use Rattle.nl_lines.specs.Nodes.{leaf_text};

use exact_numbers::whole_of;
use text_base::word_at;

/// The first byte; 0 where there is none.
pub fn first_byte(word: &[u8]) -> u8
    ensures { result ≡ slice_index word.now 0 }
{
    match word {
        [first, ..] => *first,
        [] => 0,
    }
}

/// The bytes after the first.
pub fn after_first(word: &[u8]) -> &[u8]
    ensures { result.now ≡ drop 1 word.now }
{
    match word {
        [_, rest @ ..] => rest,
        [] => word,
    }
}

/// The first byte of the first word.
pub fn letter_of(words: &[&[u8]]) -> u8
    ensures { result ≡ letter_of (texts words.now) }
{
    first_byte(word_at(words, 0))
}

/// What follows the letter of a node.
pub fn leaf_text<'a>(words: &[&'a [u8]]) -> &'a [u8]
    ensures { result.now ≡ leaf_text (texts words.now) }
{
    after_first(word_at(words, 0))
}

/// The number that directly follows the letter.
pub fn own_number(words: &[&[u8]]) -> Option<u32>
    ensures { result ≡ own_number (texts words.now) }
{
    whole_of(leaf_text(words))
}

/// The number that another word is.
pub fn number_at(words: &[&[u8]], place: usize) -> Option<u32>
    ensures { result ≡ number_at (texts words.now) place }
{
    whole_of(word_at(words, place))
}

/// Whether a row is a head.
pub fn is_head(words: &[&[u8]]) -> bool
    ensures { result ≡ is_head (texts words.now) }
{
    let letter = letter_of(words);
    letter.is_ascii_alphabetic() && !is_line_letter(letter)
}

// The letters of the lines of expressions.
fn is_line_letter(letter: u8) -> bool
    ensures { result ≡ is_among (codes "onslvhf") letter }
{
    matches!(letter, b'o' | b'n' | b's' | b'l' | b'v' | b'h' | b'f')
}

/// Whether the letter is that of a segment that is refused.
pub fn is_refused_letter(letter: u8) -> bool
    ensures { result ≡ is_refused_letter letter }
{
    matches!(letter, b'F' | b'L' | b'K')
}

/// Whether the letter is that of a segment.
pub fn is_segment_letter(letter: u8) -> bool
    ensures { result ≡ is_segment_letter letter }
{
    matches!(
        letter,
        b'C' | b'O' | b'V' | b'd' | b'x' | b'r' | b'b' | b'k' | b'J' | b'G' | b'S'
    )
}
