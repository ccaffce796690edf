// Lines at the front of a piece, which are taken at once.
ghost use Rattle.std.specs.Prelude.{◌≡◌, ◌≤◌, ◌+◌, ◌^◌, true, false, Some, IfSome, OnSome, length};
ghost use Rattle.mps_reader.specs.InsideHeld.{HasPairs, IsKept, IsSound, MayPair, program};
ghost use Rattle.mps_reader.specs.InsideHeldSteps.{with_held_entry};
ghost use Rattle.mps_reader.specs.InsideLines.{IsAfterHead, IsNext, TakesLines};
ghost use Rattle.mps_reader.specs.InsidePairs.{CanGive};
ghost use Rattle.mps_words.specs.Sections.{last_of};

use crate::front_pairs::NextPair;
use crate::state::State;
use mps_words::{Keyword, after_bytes, after_space, last_of};
use text_base::Front;

// Whether the lines of a section are pairs behind a name.
#[inline]
fn has_pairs(keyword: Keyword) -> bool
    ensures { result ≡ true → HasPairs keyword }
{
    match keyword {
        Keyword::Columns | Keyword::Rhs | Keyword::Ranges => true,
        _ => false,
    }
}

/// Lines that were taken, and whether memory was wanting in the middle of the next one.
#[derive(Clone, Copy)]
pub struct FrontTaken {
    pub front: Front,
    pub is_broken: bool,
}

impl State {
    // What follows the name of the last column and a space, where a text begins with that and the
    // column may go on.
    #[inline]
    fn after_column<'a>(&self, text: &'a [u8]) -> Option<&'a [u8]>
        requires { IsKept self.now }
        ensures { IfSome result (λ rest. IsAfterHead Keyword.Columns self.now text.now rest.now) }
    {
        if !self.is_current {
            return None;
        }
        let Some(rest) = self.columns.after_last(text) else {
            return None;
        };
        after_space(rest)
    }

    /// What follows the section's set name and a space, where a text begins with that.
    #[inline]
    pub(crate) fn after_set<'a>(&self, text: &'a [u8]) -> Option<&'a [u8]>
        ensures { IfSome result (λ rest. IsAfterHead Keyword.Bounds self.now text.now rest.now) }
    {
        let Some(set) = &self.set_name else {
            return None;
        };
        let name = set.bytes();
        if name.is_empty() {
            return None;
        }
        let Some(rest) = after_bytes(text, name) else {
            return None;
        };
        after_space(rest)
    }

    // What follows the first word of a line of pairs, where that is the one that is awaited.
    #[inline]
    fn after_head<'a>(&self, keyword: Keyword, text: &'a [u8]) -> Option<&'a [u8]>
        requires { IsKept self.now }
        ensures { IfSome result (λ rest. IsAfterHead keyword self.now text.now rest.now) }
    {
        match keyword {
            Keyword::Columns => self.after_column(text),
            Keyword::Rhs => self.after_set(text),
            Keyword::Ranges => self.after_set(text),
            _ => None,
        }
    }

    // The pair that a text begins with, where the section may have it.
    #[inline]
    fn next_pair<'a>(&self, keyword: Keyword, text: &'a [u8]) -> Option<NextPair<'a>>
        requires sound { IsSound self.now }
        requires current { last_of self.now.standing.begun ≡ Some keyword }
        requires pairs { HasPairs keyword }
        ensures next { IfSome result (λ e. IsNext keyword self.now
            (with_held_entry keyword self.now (record { row = e.row; value = e.value }))
            text.now e.rest.now) }
        ensures may { OnSome result (MayPair keyword self.now) }
        ensures can { IfSome result (λ e. CanGive keyword (program self.now) e.row) }
    {
        let Some(line) = after_space(text) else {
            return None;
        };
        let Some(rest) = self.after_head(keyword, line) else {
            return None;
        };
        let Some(pair) = self.row_pair(rest) else {
            return None;
        };
        if !self.may_take_row(keyword, pair.row) {
            return None;
        }
        Some(pair)
    }

    // Takes lines of pairs, one after the other.
    fn take_pairs_front(&mut self, keyword: Keyword, text: &[u8]) -> Front
        requires sound { IsSound self.old }
        requires current { last_of self.old.standing.begun ≡ Some keyword }
        requires pairs { HasPairs keyword }
        requires few { length text.now ≤ 2 ^ 31 + 1 }
        ensures lines { TakesLines self.old text.now result self.new }
        ensures sound { IsSound self.new }
        ensures same { self.new.standing.begun ≡ self.old.standing.begun }
    {
        let mut rest = text;
        let mut lines = 0;
        'pairs: while let Some(pair) = self.next_pair(keyword, rest) {
            let Ok(()) = self.give_pair(keyword, pair.row, pair.value) else {
                return Front {
                    len: text.len() - rest.len(),
                    lines,
                };
            };
            rest = pair.rest;
            lines += 1;
        }
        Front {
            len: text.len() - rest.len(),
            lines,
        }
    }

    // The entry of the last column that a text begins with, where its row has a short name.
    #[inline(always)]
    fn next_entry<'a>(&self, text: &'a [u8]) -> Option<NextPair<'a>>
        requires kept { IsKept self.now }
        requires begun { last_of self.now.standing.begun ≡ Some Keyword.Columns }
        requires current { self.now.standing.draft.current ≡ true }
        ensures next { IfSome result (λ e. IsNext Keyword.Columns self.now
            (with_held_entry Keyword.Columns self.now (record { row = e.row; value = e.value }))
            text.now e.rest.now) }
        ensures may { OnSome result (MayPair Keyword.Columns self.now) }
        ensures can { IfSome result (λ e. CanGive Keyword.Columns (program self.now) e.row) }
    {
        let Some(line) = after_space(text) else {
            return None;
        };
        let Some(rest) = self.columns.after_last_word(line) else {
            return None;
        };
        let Some(pair) = self.short_pair(rest) else {
            return None;
        };
        if !self.may_take_row(Keyword::Columns, pair.row) {
            return None;
        }
        Some(pair)
    }

    // Takes entries of the last column, one after the other.
    #[inline(always)]
    fn take_entries(&mut self, text: &[u8]) -> Front
        requires sound { IsSound self.old }
        requires current { last_of self.old.standing.begun ≡ Some Keyword.Columns }
        requires few { length text.now ≤ 2 ^ 31 + 1 }
        ensures lines { TakesLines self.old text.now result self.new }
        ensures sound { IsSound self.new }
        ensures same { self.new.standing.begun ≡ self.old.standing.begun }
    {
        if !self.is_current {
            return Front { len: 0, lines: 0 };
        }
        let mut rest = text;
        let mut lines = 0;
        'entries: while let Some(entry) = self.next_entry(rest) {
            let Ok(()) = self.give_pair(Keyword::Columns, entry.row, entry.value) else {
                return Front {
                    len: text.len() - rest.len(),
                    lines,
                };
            };
            rest = entry.rest;
            lines += 1;
        }
        Front {
            len: text.len() - rest.len(),
            lines,
        }
    }

    // Takes further entries of the last column, or the first line of the next one.
    fn take_entry_front(&mut self, text: &[u8]) -> FrontTaken
        requires sound { IsSound self.old }
        requires current { last_of self.old.standing.begun ≡ Some Keyword.Columns }
        requires few { length text.now ≤ 2 ^ 31 + 1 }
        ensures lines { TakesLines self.old text.now result.front self.new }
        ensures sound { result.is_broken ≡ false → IsSound self.new }
        ensures same { self.new.standing.begun ≡ self.old.standing.begun }
    {
        let front = self.take_pairs_front(Keyword::Columns, text);
        if front.len > 0 {
            return FrontTaken {
                front,
                is_broken: false,
            };
        }
        self.take_column_front(text)
    }

    // Takes entries of the last column, and what comes behind them.
    #[inline(always)]
    fn take_column_lines(&mut self, text: &[u8]) -> FrontTaken
        requires sound { IsSound self.old }
        requires current { last_of self.old.standing.begun ≡ Some Keyword.Columns }
        requires few { length text.now ≤ 2 ^ 31 + 1 }
        ensures lines { TakesLines self.old text.now result.front self.new }
        ensures sound { result.is_broken ≡ false → IsSound self.new }
        ensures same { self.new.standing.begun ≡ self.old.standing.begun }
    {
        let front = self.take_entries(text);
        let next = self.take_entry_front(text.split_at(front.len).1);
        FrontTaken {
            front: Front {
                len: front.len + next.front.len,
                lines: front.lines + next.front.lines,
            },
            is_broken: next.is_broken,
        }
    }

    // Takes lines of columns, one after the other.
    fn take_columns_front(&mut self, text: &[u8]) -> FrontTaken
        requires sound { IsSound self.old }
        requires current { last_of self.old.standing.begun ≡ Some Keyword.Columns }
        requires few { length text.now ≤ 2 ^ 31 + 1 }
        ensures lines { TakesLines self.old text.now result.front self.new }
        ensures sound { result.is_broken ≡ false → IsSound self.new }
    {
        let mut front = Front { len: 0, lines: 0 };
        'columns: loop {
            let next = self.take_column_lines(text.split_at(front.len).1);
            front = Front {
                len: front.len + next.front.len,
                lines: front.lines + next.front.lines,
            };
            if next.is_broken || next.front.len == 0 {
                return FrontTaken {
                    front,
                    is_broken: next.is_broken,
                };
            }
        }
    }

    // Takes lines of right sides, ranges or bounds, one after the other.
    fn take_late_front(&mut self, keyword: Keyword, text: &[u8]) -> Front
        requires sound { IsSound self.old }
        requires current { last_of self.old.standing.begun ≡ Some keyword }
        requires few { length text.now ≤ 2 ^ 31 + 1 }
        ensures lines { TakesLines self.old text.now result self.new }
        ensures sound { IsSound self.new }
    {
        if has_pairs(keyword) {
            return self.take_pairs_front(keyword, text);
        }
        match keyword {
            Keyword::Bounds => self.take_bounds_front(text),
            _ => Front { len: 0, lines: 0 },
        }
    }

    /// Takes lines at the front of a piece, all of the section that was begun last.
    pub(crate) fn take_front(&mut self, piece: &[u8]) -> FrontTaken
        requires sound { IsSound self.old }
        requires few { length piece.now ≤ 2 ^ 31 + 1 }
        ensures lines { TakesLines self.old piece.now result.front self.new }
        ensures sound { result.is_broken ≡ false → IsSound self.new }
    {
        let Some(keyword) = last_of(&self.begun) else {
            return FrontTaken {
                front: Front { len: 0, lines: 0 },
                is_broken: false,
            };
        };
        match keyword {
            Keyword::Columns => self.take_columns_front(piece),
            Keyword::Rows => self.take_rows_front(piece),
            _ => FrontTaken {
                front: self.take_late_front(keyword, piece),
                is_broken: false,
            },
        }
    }
}
