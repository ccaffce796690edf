// The header lines of numbers, judged and kept by the table of fields.
ghost use Rattle.std.specs.Prelude.{◌≡◌, ℕ, ◌<◌, ◌≤◌, ◌==◌, ◌+◌, min, length, slice_index, slice_index_or, if◌then◌else◌, None};
ghost use Rattle.text_base.specs.Judged.{first_reason};
ghost use Rattle.text_base.specs.Words.{words_of, texts};
ghost use Rattle.nl_header.specs.Head.{Judges, number_in, limit_of_row, field_tests, word_tests, words_fault, lacks_number, no_field_row, number_after};
ghost use Rattle.nl_header.specs.Reading.{put_in};

use crate::fault::HeadFault;
use code_tables::{Field, FieldRow, Table, field_at};
use exact_numbers::whole_of;
use text_base::words;

/// From this place on no line has a field.
pub const PAST_FIELDS: u32 = 7;

// The largest number of a field.
fn limit_of_row(row: u32) -> u32
    ensures { result ≡ limit_of_row row }
{
    match row {
        2 | 3 => 1 << 20,
        4 => 256,
        24 => 1 << 22,
        _ => 1 << 31,
    }
}

// Judges a number where a field stands.
#[tactic(auto, unfolding(crate::specs::Head::field_tests))]
fn judge_number(field: Option<Field>, number: u32) -> Result<(), HeadFault>
    ensures { Judges (first_reason (field_tests field number)) None result }
{
    let Some(field) = field else {
        if number != 0 {
            return Err(HeadFault::RefusedCount);
        }
        return Ok(());
    };
    if field.zero && number != 0 {
        return Err(HeadFault::RefusedCount);
    }
    if number > limit_of_row(field.row) {
        return Err(HeadFault::TooLarge);
    }
    Ok(())
}

// Judges a word where a field stands.
#[tactic(auto, unfolding(crate::specs::Head::word_tests))]
fn judge_word(field: Option<Field>, word: &[u8]) -> Result<(), HeadFault>
    ensures { Judges (first_reason (word_tests field word.now)) None result }
{
    let Some(number) = whole_of(word) else {
        return Err(HeadFault::BadHeaderNumber);
    };
    judge_number(field, number)
}

// The next place, where all places without a field are one.
fn next_place(place: u32) -> u32
    ensures { result ≡ min (place + 1) PAST_FIELDS }
{
    if place < PAST_FIELDS {
        place + 1
    } else {
        PAST_FIELDS
    }
}

/// Judges the words of a line from the left.
pub fn judge_words(line: u32, text: &[u8]) -> Result<(), HeadFault>
    ensures { Judges (words_fault line 1 (words_of text.now)) None result }
{
    let mut rest = words(text);
    let mut place = 1u32;
    'words: while let Some(word) = rest.next() {
        let field = field_at(line, place);
        if let Err(fault) = judge_word(field, word) {
            return Err(fault);
        }
        place = next_place(place);
    }
    Ok(())
}

/// Whether a field that must be there has no word.
#[tactic(auto, unfolding(crate::specs::Head::lacks_number))]
pub fn is_short<const N: usize>(table: &Table<N>, line: u32, count: usize) -> bool
    ensures { result ≡ lacks_number table.now.rows line count }
{
    table.rows.iter().any(|r| r.line == line && r.field.required && count < r.place as usize)
}

// The number at a place, from 1; 0 where there is none.
fn number_in(words: &[&[u8]], place: u32) -> u32
    ensures { result ≡ number_in (texts words.now) place }
{
    let Some(word) = words.get((place as usize).saturating_sub(1)) else {
        return 0;
    };
    whole_of(word).unwrap_or(0)
}

// What a row's number is after a line: that of its place on its own line, and on another line what
// it was.
fn number_after(row: FieldRow, line: u32, words: &[&[u8]], number: u32) -> u32
    ensures { result ≡ number_after row line (texts words.now) number }
{
    if row.line == line {
        number_in(words, row.place)
    } else {
        number
    }
}

/// Puts the numbers of a line where the rows of its fields are.
pub fn put_numbers<const N: usize>(
    table: &Table<N>,
    line: u32,
    words: &[&[u8]],
    numbers: &mut [u32; N],
)
    requires { length table.now.rows ≡ N }
    ensures { numbers.new ≡ put_in table.now.rows line (texts words.now) numbers.old }
{
    'rows: for i in 0..N {
        let number = number_after(table.rows[i], line, words, numbers[i]);
        numbers[i] = number;
    }
}
