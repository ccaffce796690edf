// Pairs of a row and a number at the front of a text.
ghost use Rattle.std.specs.Prelude.{◌≡◌, ◌<◌, true, IfSome, length};
ghost use Rattle.mps_reader.specs.InsideHeld.{MayPair, program};
ghost use Rattle.mps_reader.specs.InsideLines.{IsFreeRow, IsRowPair};

use crate::state::State;
use exact_numbers::Dec;
use mps_words::{Keyword, first_number, first_pair, is_marker_word};

/// A pair, and what follows its line.
#[derive(Clone, Copy)]
pub struct NextPair<'a> {
    pub row: u32,
    pub value: Dec,
    pub rest: &'a [u8],
}

impl State {
    /// The row of a short name and the number that a text begins with.
    #[inline(always)]
    pub(crate) fn short_pair<'a>(&self, text: &'a [u8]) -> Option<NextPair<'a>>
        ensures { IfSome result (λ p. IsRowPair self.now.rows text.now p.row p.value p.rest.now) }
    {
        let Some((row, behind)) = self.rows.find_front(text, b' ') else {
            return None;
        };
        let Some(number) = first_number(behind) else {
            return None;
        };
        Some(NextPair {
            row,
            value: number.value,
            rest: number.rest,
        })
    }

    // The row of any name and the number that a text begins with.
    fn long_pair<'a>(&self, text: &'a [u8]) -> Option<NextPair<'a>>
        ensures { IfSome result (λ p. IsRowPair self.now.rows text.now p.row p.value p.rest.now) }
    {
        let Some(pair) = first_pair(text) else {
            return None;
        };
        if is_marker_word(pair.name) {
            return None;
        }
        let Some(row) = self.rows.find(pair.name) else {
            return None;
        };
        Some(NextPair {
            row,
            value: pair.value,
            rest: pair.rest,
        })
    }

    /// The row and the number that a text begins with.
    #[inline]
    pub(crate) fn row_pair<'a>(&self, text: &'a [u8]) -> Option<NextPair<'a>>
        ensures { IfSome result (λ p. IsRowPair self.now.rows text.now p.row p.value p.rest.now) }
    {
        match self.short_pair(text) {
            Some(pair) => Some(pair),
            None => self.long_pair(text),
        }
    }

    /// Whether a row may have a pair more.
    #[inline(always)]
    pub(crate) fn may_take_row(&self, keyword: Keyword, row: u32) -> bool
        requires may { MayPair keyword self.now }
        requires within { row < length (program self.now).rows }
        ensures { result ≡ true → IsFreeRow keyword self.now row }
    {
        if self.marks.is_marked(row) || self.is_full(keyword) {
            return false;
        }
        !self.is_refused_row(keyword, row)
    }
}
