// The words of a line and of a row, and the line without its comment or its first blanks.
ghost use Rattle.std.specs.Prelude.{◌≡◌, ◌≤◌, ◌-◌, ◌||◌, length, nat_eq, slice_index, take};
ghost use Rattle.text_base.specs.Words.{words_of, words_left, row_of, texts, word_at, begins, is_blank, without_blanks, without_comment};

use crate::runs::Words;
use std::marker::Model;

// A row has at most so many words.
const LONGEST_ROW: usize = 12;

/// The words of a line, in order.
pub fn words(line: &[u8]) -> Words<'_>
    ensures { words_left result ≡ words_of line.now }
{
    Words { rest: line }
}

/// The first twelve words of a line, or all where there are fewer.
#[derive(Drop)]
pub struct Row<'a> {
    room: [&'a [u8]; LONGEST_ROW],
    count: usize,
}

impl<'a> Model for Row<'a> {
    ghost use Rattle.std.specs.Prelude.{List, ℕ, ◌≤◌, length, take};
    ghost use Rattle.text_base.specs.Words.{texts};

    ghost Value = { List (List ℕ) };

    ghost view = { λ r. texts (take r.count r.room) };

    ghost invariant = { λ r. r.count ≤ length r.room };
}

impl<'a> Row<'a> {
    /// The first words of a line.
    pub fn of(line: &'a [u8]) -> Row<'a>
        ensures { result ≡ row_of line.now }
    {
        let none = &line[..0];
        let mut row = Row {
            room: [none; LONGEST_ROW],
            count: 0,
        };
        row.count = fill_words(line, &mut row.room);
        row
    }

    /// The words, in order.
    pub fn words(&self) -> &[&'a [u8]]
        ensures { texts result.now ≡ self.now }
    {
        &self.room[..self.count]
    }
}

// Puts the first words of a line into a row, as many as it has room for, and says how many.
fn fill_words<'a>(line: &'a [u8], row: &mut [&'a [u8]]) -> usize
    ensures room { length row.new ≡ length row.old }
    ensures within { result ≤ length row.old }
    ensures words { texts (take result row.new) ≡ take (length row.old) (words_of line.now) }
{
    let mut rest = words(line);
    let mut count = 0;
    'filling: while count < row.len() {
        let Some(word) = rest.next() else {
            return count;
        };
        row[count] = word;
        count += 1;
    }
    count
}

/// The word at a place, counted from 0; past the last word, the empty one.
pub fn word_at<'a>(words: &[&'a [u8]], place: usize) -> &'a [u8]
    ensures { result.now ≡ word_at (texts words.now) place }
{
    match words.get(place) {
        Some(word) => word,
        None => b"".as_slice(),
    }
}

/// Whether the first word is this one.
pub fn begins(words: &[&[u8]], keyword: &[u8]) -> bool
    ensures { result ≡ begins (texts words.now) keyword.now }
{
    word_at(words, 0) == keyword
}

fn is_blank(byte: u8) -> bool
    ensures { result ≡ is_blank byte }
{
    byte == b' ' || byte == b'\t'
}

/// The line without the blanks at its front.
pub fn skip_blanks(line: &[u8]) -> &[u8]
    ensures { result.now ≡ without_blanks line.now }
{
    let mut rest = line;
    while let [first, more @ ..] = rest {
        if !is_blank(*first) {
            break;
        }
        rest = more;
    }
    rest
}

/// The line without its comment, which begins at a `#` that is the first byte or follows a blank.
pub fn strip_comment(line: &[u8]) -> &[u8]
    ensures { result.now ≡ without_comment line.now }
{
    'bytes: for (place, byte) in line.iter().enumerate() {
        if *byte == b'#' && may_begin(line, place) {
            return &line[..place];
        }
    }
    line
}

// Whether a comment may begin at a place: at the front, or after a blank.
#[inline]
fn may_begin(line: &[u8], place: usize) -> bool
    requires { place ≤ length line.now }
    ensures { result ≡ (nat_eq place 0 || is_blank (slice_index line.now (place - 1))) }
{
    place == 0 || is_blank(line[place - 1])
}
