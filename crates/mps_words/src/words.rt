// Lines and words.
ghost use Rattle.std.specs.Prelude.{◌≡◌, ◌≤◌, [], ◌∷◌, IfSome, OnSome, slice_index, drop, length, not, ◌==◌, true, false};
ghost use Rattle.std.specs.List.{position_or_len};
ghost use Rattle.text_base.specs.Words.{is_blank, texts, row_of, words_of};
ghost use Rattle.mps_words.specs.Sections.{is_data, is_left_out};

use text_base::Row;

/// The words after the first.
pub fn after_first<'a, 'b>(words: &'b [&'a [u8]]) -> &'b [&'a [u8]]
    ensures { texts result.now ≡ drop 1 (texts words.now) }
{
    match words {
        [_, rest @ ..] => rest,
        [] => words,
    }
}

/// Whether a line of this row is a comment, or has no words.
pub fn is_left_out(line: &[u8], row: &Row<'_>) -> bool
    requires { row.now ≡ row_of line.now }
    ensures { result ≡ is_left_out line.now }
{
    is_comment(line) || row.words().is_empty()
}

// Whether a line is a comment.
fn is_comment(line: &[u8]) -> bool
    ensures { result ≡ (slice_index line.now 0 == 42) }
{
    match line {
        [first, ..] => *first == b'*',
        [] => false,
    }
}

/// Whether a line begins with a blank.
pub fn is_data(line: &[u8]) -> bool
    ensures { result ≡ is_data line.now }
{
    match line {
        [first, ..] => *first == b' ' || *first == b'\t',
        [] => false,
    }
}

fn is_blank(byte: u8) -> bool
    ensures { result ≡ is_blank byte }
{
    byte == b' ' || byte == b'\t'
}

// How many blanks come first.
#[inline]
fn blanks_len(bytes: &[u8]) -> usize
    ensures within { result ≤ length bytes.now }
    ensures place { result ≡ position_or_len (λ b. not (is_blank b)) bytes.now }
{
    let mut rest = bytes;
    let mut passed = 0;
    'bytes: while let [first, more @ ..] = rest {
        if !is_blank(*first) {
            return passed;
        }
        rest = more;
        passed += 1;
    }
    passed
}

// How many bytes come before the first blank.
#[inline]
fn word_len(bytes: &[u8]) -> usize
    ensures within { result ≤ length bytes.now }
    ensures place { result ≡ position_or_len is_blank bytes.now }
{
    let mut rest = bytes;
    let mut passed = 0;
    'bytes: while let [first, more @ ..] = rest {
        if is_blank(*first) {
            return passed;
        }
        rest = more;
        passed += 1;
    }
    passed
}

// The first word of some bytes, and what follows it.
#[inline]
fn first_word(bytes: &[u8]) -> Option<(&[u8], &[u8])>
    ensures { IfSome result (λ p. words_of bytes.now ≡ p.0.now ∷ words_of p.1.now) }
{
    let rest = bytes.split_at(blanks_len(bytes)).1;
    if rest.is_empty() {
        return None;
    }
    Some(rest.split_at(word_len(rest)))
}

/// The words of a data line that has three and ends with the last of them, which most lines are.
pub fn three_words(line: &[u8]) -> Option<(&[u8], &[u8], &[u8])>
    ensures words { IfSome result (λ ws. row_of line.now
        ≡ ws.0.now ∷ ws.1.now ∷ ws.2.now ∷ []) }
    ensures data { OnSome result (is_data line.now ≡ true) }
    ensures some { OnSome result (is_left_out line.now ≡ false) }
{
    if !is_data(line) {
        return None;
    }
    let Some((first, rest)) = first_word(line) else {
        return None;
    };
    let Some((second, rest)) = first_word(rest) else {
        return None;
    };
    let Some((third, rest)) = first_word(rest) else {
        return None;
    };
    if !rest.is_empty() {
        return None;
    }
    Some((first, second, third))
}
