// Lines of intervals.
ghost use Rattle.std.specs.Prelude.{◌≡◌, ◌||◌, ◌&&◌, not, option_map, Some, None, codes};
ghost use Rattle.std.specs.Str.{bytes_eq};
ghost use Rattle.text_base.specs.Judged.{Decides};
ghost use Rattle.text_base.specs.Words.{texts, word_at};
ghost use Rattle.exact_numbers.specs.Values.{dec_value};
ghost use Rattle.nl_lines.specs.Pieces.{between, interval_in};
ghost use Rattle.nl_lines.specs.Tests.{SaysInterval, has_sides, is_empty, is_within_unit, is_value_below, interval_form_tests};

use crate::fault::NlReason;
use exact_numbers::{Dec, dec_of};
use nl_model::Interval;
use std::cmp::Ordering;
use text_base::word_at;

// Whether the value of one is below that of the other.
fn is_value_below(a: Dec, b: Dec) -> bool
    ensures { result ≡ is_value_below (dec_value a) (dec_value b) }
{
    match a.order(b) {
        Ordering::Less => true,
        Ordering::Equal => false,
        Ordering::Greater => false,
    }
}

// Whether the number of words is right for the first.
fn has_sides(words: &[&[u8]]) -> bool
    ensures { result ≡ has_sides (texts words.now) }
{
    let kind = word_at(words, 0);
    if kind == b"0".as_slice() {
        return words.len() == 3;
    }
    if kind == b"1".as_slice() {
        return words.len() == 2;
    }
    if kind == b"2".as_slice() {
        return words.len() == 2;
    }
    if kind == b"3".as_slice() {
        return words.len() == 1;
    }
    kind == b"4".as_slice() && words.len() == 2
}

// The sides that are there.
fn between(lo: Option<Dec>, hi: Option<Dec>) -> Option<Interval>
    ensures { result ≡ between lo hi }
{
    let Some(l) = lo else {
        return None;
    };
    let Some(h) = hi else {
        return None;
    };
    Some(Interval {
        lo: Some(l),
        hi: Some(h),
    })
}

// An upper side.
fn up_to(hi: Option<Dec>) -> Option<Interval>
    ensures { result ≡ option_map (λ hi. record { lo = None; hi = Some hi }) hi }
{
    match hi {
        Some(h) => Some(Interval {
            lo: None,
            hi: Some(h),
        }),
        None => None,
    }
}

// A lower side.
fn from(lo: Option<Dec>) -> Option<Interval>
    ensures { result ≡ option_map (λ lo. record { lo = Some lo; hi = None }) lo }
{
    match lo {
        Some(l) => Some(Interval {
            lo: Some(l),
            hi: None,
        }),
        None => None,
    }
}

// The interval of a line.
#[tactic(auto, unfolding(crate::specs::Pieces::interval_in))]
fn interval_in(words: &[&[u8]]) -> Option<Interval>
    ensures { result ≡ interval_in (texts words.now) }
{
    let kind = word_at(words, 0);
    let first = dec_of(word_at(words, 1));
    if kind == b"0".as_slice() {
        return between(first, dec_of(word_at(words, 2)));
    }
    if kind == b"1".as_slice() {
        return up_to(first);
    }
    if kind == b"2".as_slice() {
        return from(first);
    }
    if kind == b"3".as_slice() {
        return Some(Interval { lo: None, hi: None });
    }
    if kind == b"4".as_slice() {
        let same = first;
        return between(first, same);
    }
    None
}

// Whether the lower side is above the upper side.
fn is_empty(interval: &Interval) -> bool
    ensures { result ≡ is_empty interval.now }
{
    let Some(lo) = interval.lo else {
        return false;
    };
    let Some(hi) = interval.hi else {
        return false;
    };
    is_value_below(hi, lo)
}

// Whether both sides are there, from 0 to 1.
fn is_within_unit(interval: &Interval) -> bool
    ensures { result ≡ is_within_unit interval.now }
{
    let Some(lo) = interval.lo else {
        return false;
    };
    let Some(hi) = interval.hi else {
        return false;
    };
    !is_value_below(lo, Dec::of_whole(0)) && !is_value_below(Dec::of_whole(1), hi)
}

// Whether a line refers to complementarity.
fn is_complementarity(words: &[&[u8]]) -> bool
    ensures { result ≡ bytes_eq (word_at (texts words.now) 0) (codes "5") }
{
    word_at(words, 0) == b"5".as_slice()
}

/// The interval of a line, of a constraint, or of a variable that may be binary.
#[tactic(auto, unfolding(crate::specs::Tests::interval_form_tests))]
pub fn read_interval(words: &[&[u8]], of_constraint: bool, unit: bool) -> Result<Interval, NlReason>
    ensures { Decides (interval_form_tests of_constraint unit (texts words.now))
        (SaysInterval (texts words.now)) result }
{
    if of_constraint && is_complementarity(words) {
        return Err(NlReason::Complementarity);
    }
    if !has_sides(words) {
        return Err(NlReason::BadLine);
    }
    let Some(interval) = interval_in(words) else {
        return Err(NlReason::BadNumber);
    };
    if is_empty(&interval) {
        return Err(NlReason::EmptyInterval);
    }
    if unit && !is_within_unit(&interval) {
        return Err(NlReason::BinaryBounds);
    }
    Ok(interval)
}

/// Whether a row that is this interval alone is refused: the interval is empty, or that of a binary
/// variable is not from 0 to 1.
#[inline]
pub fn is_refused_interval(interval: &Interval, unit: bool) -> bool
    ensures { result ≡ (is_empty interval.now || (unit && not (is_within_unit interval.now))) }
{
    is_empty(interval) || (unit && !is_within_unit(interval))
}
