// The fields of a line, and its free form.
ghost use Rattle.std.specs.Prelude.{◌≡◌, ◌++◌, ◌∷◌, [], OnOk, take, length, nat_lt};
ghost use Rattle.text_base.specs.Words.{words_of};
ghost use Rattle.fixed_mps.specs.Fields.{is_as_it_is, bytes_in, is_space_only, has_tab, has_clear_gaps, has_crowded_field, is_misplaced, is_numberless, has_no_number, field_text, names_text, value_text, next_pair_text, fields_text, columns_text, cut_text};

use std::alloc::AllocError;
use text_base::{Row, words};

// Columns from here on do not count.
const LAST_COLUMN: usize = 61;

// The columns of the fields, counted from 0: the first one, and the one after the last.
const KIND: (usize, usize) = (1, 3);

const NAME: (usize, usize) = (4, 12);

const ROW: (usize, usize) = (14, 22);

const VALUE: (usize, usize) = (24, 36);

const NEXT_ROW: (usize, usize) = (39, 47);

const NEXT_VALUE: (usize, usize) = (49, 61);

const FIELDS: [(usize, usize); 6] = [KIND, NAME, ROW, VALUE, NEXT_ROW, NEXT_VALUE];

// The columns between the fields.
const GAPS: [(usize, usize); 6] = [(0, 1), (3, 4), (12, 14), (22, 24), (36, 39), (47, 49)];

/// Whether a line is no data line, so that it is its own free form.
pub(crate) fn is_as_it_is(line: &[u8]) -> bool
    ensures { result ≡ is_as_it_is line.now }
{
    match line {
        [first, ..] => { (*first != b' ' && *first != b'\t') || words(line).next().is_none() }
        [] => true,
    }
}

// The bytes in these columns, as far as the line goes.
fn bytes_in(line: &[u8], columns: (usize, usize)) -> &[u8]
    ensures { result.now ≡ bytes_in line.now columns }
{
    let past = columns.1.min(line.len());
    let first = columns.0.min(past);
    &line[first..past]
}

fn is_space_only(bytes: &[u8]) -> bool
    ensures { result ≡ is_space_only bytes.now }
{
    bytes.iter().all(|b| *b == b' ')
}

fn has_tab(line: &[u8]) -> bool
    ensures { result ≡ has_tab line.now }
{
    line.iter().any(|b| *b == b'\t')
}

// Whether a part of a line has more than one word.
fn is_crowded(bytes: &[u8]) -> bool
    ensures { result ≡ nat_lt 1 (length (words_of bytes.now)) }
{
    let mut rest = words(bytes);
    rest.next().is_some() && rest.next().is_some()
}

// Whether only spaces stand between the fields.
fn has_clear_gaps(line: &[u8]) -> bool
    ensures { result ≡ has_clear_gaps line.now }
{
    GAPS.iter().all(|gap| is_space_only(bytes_in(line, *gap)))
}

// Whether a field has more than one word.
fn has_crowded_field(line: &[u8]) -> bool
    ensures { result ≡ has_crowded_field line.now }
{
    FIELDS
        .iter()
        .any(|field| is_crowded(bytes_in(line, *field)))
}

// Whether a line does not keep to the fields.
#[tactic(auto, unfolding(crate::specs::Fields::is_misplaced))]
fn is_misplaced(line: &[u8]) -> bool
    ensures { result ≡ is_misplaced line.now }
{
    has_tab(line) || !has_clear_gaps(line) || has_crowded_field(line)
}

// Whether the word is the kind of a bound without a number.
fn is_numberless(word: &[u8]) -> bool
    ensures { result ≡ is_numberless word.now }
{
    word == b"FR".as_slice()
        || word == b"MI".as_slice()
        || word == b"PL".as_slice()
        || word == b"BV".as_slice()
}

// Whether the first field is the kind of a bound without a number.
fn has_no_number(line: &[u8]) -> bool
    ensures { result ≡ has_no_number line.now }
{
    match words(bytes_in(line, KIND)).next() {
        Some(word) => is_numberless(word),
        None => false,
    }
}

// Puts a space and a word.
fn put_word(free: &mut Vec<u8>, word: &[u8]) -> Result<(), AllocError>
    ensures { OnOk result (free.new.items ≡ free.old.items ++ 32 ∷ word.now) }
{
    free.push(b' ')?;
    free.extend_from_slice(word)?;
    Ok(())
}

// Puts the word of a field, where there is one.
fn put_field(free: &mut Vec<u8>, line: &[u8], field: (usize, usize)) -> Result<(), AllocError>
    ensures { OnOk result (free.new.items ≡ free.old.items ++ field_text line.now field) }
{
    match words(bytes_in(line, field)).next() {
        Some(word) => put_word(free, word),
        None => Ok(()),
    }
}

// Puts the words of the fields that come before the number.
fn put_names(free: &mut Vec<u8>, line: &[u8]) -> Result<(), AllocError>
    ensures { OnOk result (free.new.items ≡ free.old.items ++ names_text line.now) }
{
    put_field(free, line, KIND)?;
    put_field(free, line, NAME)?;
    put_field(free, line, ROW)
}

// Puts the words of the fields that come after the number.
fn put_next_pair(free: &mut Vec<u8>, line: &[u8]) -> Result<(), AllocError>
    ensures { OnOk result (free.new.items ≡ free.old.items ++ next_pair_text line.now) }
{
    put_field(free, line, NEXT_ROW)?;
    put_field(free, line, NEXT_VALUE)
}

// Puts the number's word, unless it does not count.
fn put_value(free: &mut Vec<u8>, line: &[u8]) -> Result<(), AllocError>
    ensures { OnOk result (free.new.items ≡ free.old.items ++ value_text line.now) }
{
    if has_no_number(line) {
        return Ok(());
    }
    put_field(free, line, VALUE)
}

// Puts the words of the fields.
fn put_fields(free: &mut Vec<u8>, line: &[u8]) -> Result<(), AllocError>
    ensures { OnOk result (free.new.items ≡ free.old.items ++ fields_text line.now) }
{
    put_names(free, line)?;
    put_value(free, line)?;
    put_next_pair(free, line)
}

// Puts the free form of a data line with more than one word.
#[tactic(auto, unfolding(crate::specs::Fields::columns_text))]
fn put_columns(free: &mut Vec<u8>, line: &[u8]) -> Result<(), AllocError>
    ensures { OnOk result (free.new.items ≡ free.old.items ++ columns_text line.now) }
{
    if is_misplaced(line) {
        free.extend_from_slice(b" FR")?;
        return Ok(());
    }
    put_fields(free, line)
}

// Puts the free form of what is left of a data line.
fn put_cut(free: &mut Vec<u8>, line: &[u8]) -> Result<(), AllocError>
    ensures { OnOk result (free.new.items ≡ free.old.items ++ cut_text line.now) }
{
    let row = Row::of(line);
    match row.words() {
        [] => {
            free.push(b' ')?;
            Ok(())
        }
        [word] => put_word(free, word),
        _ => put_columns(free, line),
    }
}

/// Makes the free form of a data line, with a space behind it, so that no CR ends it.
pub(crate) fn make_free(free: &mut Vec<u8>, line: &[u8]) -> Result<(), AllocError>
    ensures { OnOk result (free.new.items ≡ cut_text (take 61 line.now) ++ 32 ∷ []) }
{
    free.clear();
    put_cut(free, bytes_in(line, (0, LAST_COLUMN)))?;
    free.push(b' ')?;
    Ok(())
}
