// Short names of one prefix and numbers one after the other, which are found by their numbers.
ghost use Rattle.std.specs.Prelude.{◌≡◌, ◌+◌, ◌<◌, ◌≤◌, ◌++◌, ◌∷◌, ◌==◌, ◌^◌, [], List, ℕ, IfSome, true, get_or, length};
ghost use Rattle.mps_words.specs.InsideRuns.{IsRun, numbered};

use crate::codes::{ONES, end_of};

// A run of fewer names gives way to a name that may begin another one.
const LONG_RUN: usize = 16;

/// Names whose places and numbers follow one another behind one prefix.
#[derive(Clone, Copy)]
pub struct Run {
    // the code of the prefix
    prefix: u128,
    // the number of the first name
    first: usize,
    // the place of the first name
    start: usize,
    // how many names there are
    count: usize,
}

// What stands before the digits at the end of a code; any is right.
#[inline]
fn prefix_of(code: u128) -> u128 {
    let end = end_of(code);
    let others = (end >> 6 | !(end >> 4)) & ONES;
    code >> (others.trailing_zeros() % 64)
}

// Whether a code is that of a prefix and the digits of a number.
#[inline]
fn is_numbered(code: u128, prefix: u128, number: usize) -> bool
    ensures { result ≡ (code == numbered prefix number) }
{
    let mut front = code;
    let mut left = number as u64;
    'digits: while left > 9 {
        if front % 256 != (48 + left % 10) as u128 {
            return false;
        }
        front /= 256;
        left /= 10;
    }
    front % 256 == (48 + left) as u128 && front / 256 == prefix
}

impl Run {
    /// No names.
    pub(crate) fn none() -> Run
        ensures { IsRun result [] }
    {
        Run {
            prefix: 1,
            first: 0,
            start: 0,
            count: 0,
        }
    }

    /// The place of a code, where that is one of the run.
    #[inline(always)]
    pub(crate) fn find(self, code: u128, number: usize) -> Option<usize>
        requires { self.start + self.count < 2 ^ 64 }
        ensures within { (codes : List ℕ) → IsRun self codes
            → IfSome result (λ p. p < length codes) }
        ensures code { (codes : List ℕ) → IsRun self codes
            → IfSome result (λ p. get_or codes p 0 ≡ code) }
    {
        let Some(before) = number.checked_sub(self.first) else {
            return None;
        };
        if before >= self.count || !is_numbered(code, self.prefix, number) {
            return None;
        }
        Some(self.start + before)
    }

    // Whether a name that comes at a place goes on with the run.
    #[inline]
    fn is_next(self, code: u128, number: usize, place: usize) -> bool
        requires { self.start + self.count ≤ place }
        ensures place { result ≡ true → place ≡ self.start + self.count }
        ensures name { result ≡ true → code ≡ numbered self.prefix (self.first + self.count) }
    {
        if place != self.start + self.count {
            return false;
        }
        match number.checked_sub(self.first) {
            Some(before) => before == self.count && is_numbered(code, self.prefix, number),
            None => false,
        }
    }

    /// The run behind one more name, which comes at a place behind it.
    pub(crate) fn with_name(self, code: u128, number: usize, place: usize) -> Run
        requires { self.start + self.count ≤ place }
        ensures { (codes : List ℕ) → length codes ≡ place → IsRun self codes
            → IsRun result (codes ++ code ∷ []) }
    {
        if self.is_next(code, number, place) {
            return Run {
                count: self.count.saturating_add(1),
                ..self
            };
        }
        let prefix = prefix_of(code);
        if self.count < LONG_RUN && is_numbered(code, prefix, number) {
            return Run {
                prefix,
                first: number,
                start: place,
                count: 1,
            };
        }
        self
    }
}
