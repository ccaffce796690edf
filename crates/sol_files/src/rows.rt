// Rows of numbers, judged by their words.
ghost use Rattle.std.specs.Prelude.{◌≡◌, ◌+◌, ◌<◌, ◌≤◌, ◌^◌, not, ◌&&◌, Some, None, IfOk, IfErr, OnOk};
ghost use Rattle.text_base.specs.Judged.{first_reason};
ghost use Rattle.text_base.specs.Words.{texts, word_at};
ghost use Rattle.sol_files.specs.declared.fault.Refusal.TheVariants.{Here};
ghost use Rattle.sol_files.specs.Rows.{number_in, option_in, value_in, both};
ghost use Rattle.exact_numbers.specs.Numbers.{signed_of};
ghost use Rattle.sol_files.specs.Built.{IsEmptyOrFull};
ghost use Rattle.sol_files.specs.Tests.{limited_tests, option_tests, given_tests, dec_tests, objno_tests};

use crate::fault::SolReason;
use exact_numbers::{Dec, are_digits, dec_of, signed_of, whole_of};
use text_base::word_at;

// There are at most so many options.
pub(crate) const MOST_OPTIONS: u32 = 9;

// There are at most so many constraints, variables and values.
pub(crate) const MOST_VALUES: u32 = 1_048_576;

/// A number of at most so many, where one above them has this reason.
pub(crate) fn read_number(words: &[&[u8]], most: u32, wide: SolReason) -> Result<u32, SolReason>
    ensures value { IfOk result (λ n. n ≡ number_in (texts words.now) 0) }
    ensures most { IfOk result (λ n. n ≤ most) }
    ensures fine { OnOk result (first_reason (limited_tests (most + 1) wide (texts words.now))
        ≡ None) }
    ensures fault { IfErr result (λ r. first_reason (limited_tests (most + 1) wide (texts words.now))
        ≡ Some (Here r)) }
{
    let word = word_at(words, 0);
    if words.len() != 1 {
        return Err(SolReason::BadLine);
    }
    if !are_digits(word) {
        return Err(SolReason::BadNumber);
    }
    match whole_of(word) {
        Some(count) if count <= most => Ok(count),
        _ => Err(wide),
    }
}

/// An option after so many.
pub(crate) fn read_option(words: &[&[u8]], before: usize) -> Result<i32, SolReason>
    ensures value { IfOk result (λ z. option_in (texts words.now) ≡ Some z) }
    ensures fine { OnOk result (first_reason (option_tests before (texts words.now)) ≡ None) }
    ensures fault { IfErr result (λ r. first_reason (option_tests before (texts words.now))
        ≡ Some (Here r)) }
{
    if words.len() != 1 {
        return Err(SolReason::BadLine);
    }
    let Some(value) = signed_of(word_at(words, 0)) else {
        return Err(SolReason::BadNumber);
    };
    if before == 1 && value == 3 {
        return Err(SolReason::Options);
    }
    Ok(value)
}

/// How many values are given: none or all.
pub(crate) fn read_given(words: &[&[u8]], full: u32) -> Result<u32, SolReason>
    ensures value { IfOk result (λ n. n ≡ number_in (texts words.now) 0) }
    ensures given { IfOk result (λ n. IsEmptyOrFull full n) }
    ensures fine { OnOk result (first_reason (given_tests full (texts words.now)) ≡ None) }
    ensures fault { IfErr result (λ r. first_reason (given_tests full (texts words.now))
        ≡ Some (Here r)) }
{
    let count = match read_number(words, MOST_VALUES, SolReason::TooLarge) {
        Ok(count) => count,
        Err(reason) => return Err(reason),
    };
    if count != 0 && count != full {
        return Err(SolReason::CountsDisagree);
    }
    Ok(count)
}

/// A value.
pub(crate) fn read_value(words: &[&[u8]]) -> Result<Dec, SolReason>
    ensures value { IfOk result (λ d. value_in (texts words.now) ≡ Some d) }
    ensures fine { OnOk result (first_reason (dec_tests (texts words.now)) ≡ None) }
    ensures fault { IfErr result (λ r. first_reason (dec_tests (texts words.now)) ≡ Some (Here r)) }
{
    if words.len() != 1 {
        return Err(SolReason::BadLine);
    }
    match dec_of(word_at(words, 0)) {
        Some(value) => Ok(value),
        None => Err(SolReason::BadNumber),
    }
}

/// An `objno` line, where one may still come or is past.
pub(crate) fn read_objno(words: &[&[u8]], is_past: bool) -> Result<(i32, i32), SolReason>
    ensures value { IfOk result
        (λ t. both (signed_of (word_at (texts words.now) 1))
        (signed_of (word_at (texts words.now) 2)) ≡ Some t) }
    ensures fine { OnOk result (first_reason (objno_tests is_past (texts words.now)) ≡ None) }
    ensures fault { IfErr result (λ r. first_reason (objno_tests is_past (texts words.now))
        ≡ Some (Here r)) }
{
    if is_past {
        return Err(SolReason::Extra);
    }
    if words.len() != 3 {
        return Err(SolReason::BadLine);
    }
    let Some(number) = signed_of(word_at(words, 1)) else {
        return Err(SolReason::BadNumber);
    };
    let Some(code) = signed_of(word_at(words, 2)) else {
        return Err(SolReason::BadNumber);
    };
    Ok((number, code))
}
