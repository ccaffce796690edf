// Rows of suffixes, judged by their words.
ghost use Rattle.std.specs.Prelude.{◌≡◌, ◌+◌, ◌<◌, ◌≤◌, ◌&&◌, not, Some, None, IfOk, IfErr, OnOk};
ghost use Rattle.text_base.specs.Judged.{first_reason};
ghost use Rattle.text_base.specs.Words.{texts, word_at};
ghost use Rattle.exact_numbers.specs.Numbers.{whole_of, is_whole};
ghost use Rattle.sol_files.specs.declared.fault.Refusal.TheVariants.{Here};
ghost use Rattle.sol_files.specs.Rows.{number_in, pair_in};
ghost use Rattle.sol_files.specs.Steps.{head_in};
ghost use Rattle.sol_files.specs.Tests.{are_all_digits, are_head_numbers, has_table_room, is_below, pair_tests, suffix_tests};
ghost use Rattle.nl_model.specs.SuffixKinds.{object_limit, wants_whole};

use crate::awaited::SuffixHead;
use crate::fault::SolReason;
use exact_numbers::{Dec, are_digits, dec_of, whole_of};
use text_base::word_at;

// There are at most so many suffixes.
const MOST_SUFFIXES: u32 = 1024;

// The tables have at most so many lines together.
const MOST_TABLE_LINES: u64 = 65_536;

/// The indices of objectives are below this.
pub(crate) const MOST_OBJECTIVES: u32 = 256;

/// The whole number that a word is; 0 where it is none.
pub(crate) fn number_in(words: &[&[u8]], place: usize) -> u32
    ensures { result ≡ number_in (texts words.now) place }
{
    match whole_of(word_at(words, place)) {
        Some(number) => number,
        None => 0,
    }
}

// Whether the five numbers of a first line are digits.
fn are_all_digits(words: &[&[u8]]) -> bool
    ensures { result ≡ are_all_digits (texts words.now) }
{
    are_digits(word_at(words, 1))
        && are_digits(word_at(words, 2))
        && are_digits(word_at(words, 3))
        && are_digits(word_at(words, 4))
        && are_digits(word_at(words, 5))
}

// Whether a number is there and below a limit.
fn is_below(limit: u32, number: Option<u32>) -> bool
    ensures { result ≡ is_below limit number }
{
    match number {
        Some(number) => number < limit,
        None => false,
    }
}

// Whether the kind, the number of values and the two lengths are within their limits.
fn are_head_numbers(words: &[&[u8]]) -> bool
    ensures { result ≡ are_head_numbers (texts words.now) }
{
    is_below(256, whole_of(word_at(words, 1)))
        && whole_of(word_at(words, 2)).is_some()
        && whole_of(word_at(words, 3)).is_some()
        && whole_of(word_at(words, 4)).is_some()
}

// Whether so many table lines more have room.
fn has_table_room(before: u32, number: Option<u32>) -> bool
    ensures { result ≡ has_table_room before number }
{
    match number {
        Some(lines) => before as u64 + lines as u64 <= MOST_TABLE_LINES,
        None => false,
    }
}

// What a first line says.
fn head_in(words: &[&[u8]]) -> SuffixHead
    requires { number_in (texts words.now) 1 < 256 }
    ensures { result ≡ head_in (texts words.now) }
{
    let kind = number_in(words, 1) as u8;
    SuffixHead {
        kind,
        value_count: number_in(words, 2),
        name_len: number_in(words, 3),
        table_len: number_in(words, 4),
        table_lines: number_in(words, 5),
    }
}

/// The first line of a suffix, after so many suffixes with so many table lines.
pub(crate) fn read_head(
    words: &[&[u8]],
    suffixes: u32,
    tables: u32,
) -> Result<SuffixHead, SolReason>
    ensures head { IfOk result (λ h. h ≡ head_in (texts words.now)) }
    ensures few { OnOk result (suffixes < 1024) }
    ensures room { IfOk result (λ h. tables + h.table_lines ≤ 65536) }
    ensures fine { OnOk result (first_reason (suffix_tests suffixes tables (texts words.now))
        ≡ None) }
    ensures fault { IfErr result
        (λ r. first_reason (suffix_tests suffixes tables (texts words.now)) ≡ Some (Here r)) }
{
    if words.len() != 6 {
        return Err(SolReason::BadLine);
    }
    if !are_all_digits(words) {
        return Err(SolReason::BadNumber);
    }
    if !are_head_numbers(words) {
        return Err(SolReason::BadNumber);
    }
    if suffixes >= MOST_SUFFIXES {
        return Err(SolReason::TooLarge);
    }
    if !has_table_room(tables, whole_of(word_at(words, 5))) {
        return Err(SolReason::TooLarge);
    }
    Ok(head_in(words))
}

fn is_whole(value: Dec) -> bool
    ensures { result ≡ is_whole value }
{
    value.is_whole()
}

// Whether a value is not whole where it must be.
fn is_refused(value: Dec, whole_only: bool) -> bool
    ensures { result ≡ (whole_only && not (is_whole value)) }
{
    whole_only && !is_whole(value)
}

/// The index and the value of a row, where indices are below a limit and values may have to be
/// whole.
#[tactic(auto, unfolding(crate::specs::Rows::pair_in))]
pub(crate) fn read_pair(
    words: &[&[u8]],
    limit: u32,
    whole_only: bool,
) -> Result<(u32, Dec), SolReason>
    ensures pair { IfOk result (λ t. pair_in (texts words.now) ≡ Some t) }
    ensures index { IfOk result (λ t. t.0 ≡ number_in (texts words.now) 0) }
    ensures below { IfOk result (λ t. t.0 < limit) }
    ensures fine { OnOk result (first_reason (pair_tests limit whole_only (texts words.now))
        ≡ None) }
    ensures fault { IfErr result
        (λ r. first_reason (pair_tests limit whole_only (texts words.now)) ≡ Some (Here r)) }
{
    if words.len() != 2 {
        return Err(SolReason::BadLine);
    }
    if !are_digits(word_at(words, 0)) {
        return Err(SolReason::BadNumber);
    }
    let Some(index) = whole_of(word_at(words, 0)) else {
        return Err(SolReason::IndexOut);
    };
    if index >= limit {
        return Err(SolReason::IndexOut);
    }
    let Some(value) = dec_of(word_at(words, 1)) else {
        return Err(SolReason::BadNumber);
    };
    if is_refused(value, whole_only) {
        return Err(SolReason::BadNumber);
    }
    Ok((index, value))
}
