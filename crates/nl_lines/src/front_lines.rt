// A line of the common form at the front of a text, read in one pass.
ghost use Rattle.std.specs.Prelude.{◌≡◌, ◌∷◌, [], ℕ, List, Some, IfSome};
ghost use Rattle.exact_numbers.specs.Numbers.{dec_of};
ghost use Rattle.nl_lines.specs.FirstRows.{IsFirstRow};
ghost use Rattle.nl_lines.specs.InsideFrontLines.{IsFrontRow};
ghost use Rattle.nl_lines.specs.IntervalRows.{IsIntervalRow};
ghost use Rattle.nl_lines.specs.WholeRows.{IsWholeRow};

use crate::front_words::{next_dec, next_whole};
use exact_numbers::Dec;
use nl_model::Interval;

/// The whole number of the line that a text begins with, and how many bytes that line and its LF
/// are.
#[derive(Clone, Copy)]
pub struct FirstWhole {
    pub number: u32,
    pub len: usize,
}

/// The whole number of the line that a text begins with, where that is digits alone, and ends.
#[inline]
pub fn first_whole(text: &[u8]) -> Option<FirstWhole>
    ensures { IfSome result
        (λ p. IsFirstRow text.now p.len (λ words. IsWholeRow words p.number)) }
{
    let Some(whole) = next_whole(text, b'\n') else {
        return None;
    };
    Some(FirstWhole {
        number: whole.number,
        len: whole.len,
    })
}

/// The interval of the line that a text begins with, and how many bytes that line and its LF are.
#[derive(Clone, Copy)]
pub struct FirstInterval {
    pub interval: Interval,
    pub len: usize,
}

// The interval of a kind with one number.
#[inline]
fn one_sided(kind: u8, value: Dec) -> Option<Interval>
    ensures { IfSome result (λ i. (word : List ℕ) → dec_of word ≡ Some value
        → IsIntervalRow ((kind ∷ []) ∷ word ∷ []) i) }
{
    let same = value;
    match kind {
        b'1' => Some(Interval {
            lo: None,
            hi: Some(value),
        }),
        b'2' => Some(Interval {
            lo: Some(value),
            hi: None,
        }),
        b'4' => Some(Interval {
            lo: Some(value),
            hi: Some(same),
        }),
        _ => None,
    }
}

// The interval of a kind and the number behind it.
#[inline]
fn side_after(kind: u8, rest: &[u8]) -> Option<FirstInterval>
    ensures { IfSome result (λ p. IsFrontRow rest.now p.len
        (λ words. IsIntervalRow ((kind ∷ []) ∷ words) p.interval)) }
{
    let Some(number) = next_dec(rest, b'\n') else {
        return None;
    };
    let Some(interval) = one_sided(kind, number.value) else {
        return None;
    };
    Some(FirstInterval {
        interval,
        len: number.len,
    })
}

// The interval between the two numbers behind its kind.
#[inline]
fn sides_after(rest: &[u8]) -> Option<FirstInterval>
    ensures { IfSome result (λ p. IsFrontRow rest.now p.len
        (λ words. IsIntervalRow ((48 ∷ []) ∷ words) p.interval)) }
{
    let Some(lo) = next_dec(rest, b' ') else {
        return None;
    };
    let Some(hi) = next_dec(rest.split_at(lo.len).1, b'\n') else {
        return None;
    };
    Some(FirstInterval {
        interval: Interval {
            lo: Some(lo.value),
            hi: Some(hi.value),
        },
        len: lo.len + hi.len,
    })
}

// What follows the kind of an interval and a space.
#[inline]
fn numbers_after(kind: u8, rest: &[u8]) -> Option<FirstInterval>
    ensures { IfSome result (λ p. IsFrontRow rest.now p.len
        (λ words. IsIntervalRow ((kind ∷ []) ∷ words) p.interval)) }
{
    if kind == b'0' {
        return sides_after(rest);
    }
    side_after(kind, rest)
}

/// The interval of the line that a text begins with, where that is its kind and the numbers of the
/// common form that this wants, with a space before each, and ends.
#[inline]
pub fn first_interval(text: &[u8]) -> Option<FirstInterval>
    ensures { IfSome result
        (λ p. IsFirstRow text.now p.len (λ words. IsIntervalRow words p.interval)) }
{
    if text.len() < 2 {
        return None;
    }
    let kind = text[0];
    if kind == b'3' && text[1] == b'\n' {
        return Some(FirstInterval {
            interval: Interval { lo: None, hi: None },
            len: 2,
        });
    }
    if text[1] != b' ' {
        return None;
    }
    let Some(numbers) = numbers_after(kind, text.split_at(2).1) else {
        return None;
    };
    Some(FirstInterval {
        interval: numbers.interval,
        len: numbers.len + 2,
    })
}
