// Lines of bounds at the front of a piece.
ghost use Rattle.std.specs.Prelude.{◌≡◌, ◌≤◌, ◌+◌, ◌^◌, Some, IfSome, length};
ghost use Rattle.mps_model.specs.Built.{CanAddBound};
ghost use Rattle.mps_reader.specs.InsideHeld.{IsSound, program};
ghost use Rattle.mps_reader.specs.InsideHeldSteps.{with_bound};
ghost use Rattle.mps_reader.specs.InsideLines.{IsBoundText, IsColumnBound, IsKindText, IsNext, TakesLines};
ghost use Rattle.mps_words.specs.Sections.{last_of};

use crate::state::State;
use exact_numbers::Dec;
use mps_model::BoundKind;
use mps_words::{
    Keyword, PairText, bound_kind_of_two, first_name, first_number, first_pair, needs_number,
    no_number,
};
use text_base::Front;

// The kind that a line begins with, and what follows it and a space.
#[inline]
fn first_kind(text: &[u8]) -> Option<(BoundKind, &[u8])>
    ensures { IfSome result (λ p. IsKindText text.now p.0 p.1.now) }
{
    let [space, first, second, other, rest @ ..] = text else {
        return None;
    };
    if *space != b' ' || *other != b' ' {
        return None;
    }
    let Some(kind) = bound_kind_of_two(*first, *second) else {
        return None;
    };
    Some((kind, rest))
}

// The column and the number of a record of a kind that a text begins with.
#[inline]
fn first_bound(kind: BoundKind, text: &[u8]) -> Option<PairText<'_>>
    ensures { IfSome result (λ b. IsBoundText kind text.now b.name.now b.value b.rest.now) }
{
    if needs_number(kind) {
        return first_pair(text);
    }
    let Some((name, rest)) = first_name(text, b'\n') else {
        return None;
    };
    Some(PairText {
        name,
        value: no_number(),
        rest,
    })
}

/// The column and the number of a record, and what follows its line.
#[derive(Clone, Copy)]
struct NextBound<'a> {
    column: u32,
    value: Dec,
    rest: &'a [u8],
}

impl State {
    // The column of a short name and the number of a record that a text begins with.
    #[inline]
    fn short_bound<'a>(&self, kind: BoundKind, text: &'a [u8]) -> Option<NextBound<'a>>
        ensures { IfSome result (λ b. IsColumnBound self.now.columns kind text.now b.column b.value
            b.rest.now) }
    {
        if !needs_number(kind) {
            let Some((column, rest)) = self.columns.find_front(text, b'\n') else {
                return None;
            };
            let value = no_number();
            return Some(NextBound {
                column,
                value,
                rest,
            });
        }
        let Some((column, behind)) = self.columns.find_front(text, b' ') else {
            return None;
        };
        let Some(number) = first_number(behind) else {
            return None;
        };
        Some(NextBound {
            column,
            value: number.value,
            rest: number.rest,
        })
    }

    // The column of any name and the number of a record that a text begins with.
    fn long_bound<'a>(&self, kind: BoundKind, text: &'a [u8]) -> Option<NextBound<'a>>
        ensures { IfSome result (λ b. IsColumnBound self.now.columns kind text.now b.column b.value
            b.rest.now) }
    {
        let Some(bound) = first_bound(kind, text) else {
            return None;
        };
        let Some(column) = self.columns.find(bound.name) else {
            return None;
        };
        Some(NextBound {
            column,
            value: bound.value,
            rest: bound.rest,
        })
    }

    // The column and the number of a record that a text begins with.
    #[inline]
    fn column_bound<'a>(&self, kind: BoundKind, text: &'a [u8]) -> Option<NextBound<'a>>
        ensures { IfSome result (λ b. IsColumnBound self.now.columns kind text.now b.column b.value
            b.rest.now) }
    {
        match self.short_bound(kind, text) {
            Some(bound) => Some(bound),
            None => self.long_bound(kind, text),
        }
    }

    // The record that a text begins with, where it may come.
    #[inline]
    fn next_bound<'a>(&self, text: &'a [u8]) -> Option<(BoundKind, NextBound<'a>)>
        requires sound { IsSound self.now }
        requires current { last_of self.now.standing.begun ≡ Some Keyword.Bounds }
        ensures next { IfSome result (λ p. IsNext Keyword.Bounds self.now
            (with_bound self.now (record { kind = p.0; column = p.1.column; value = p.1.value }))
            text.now p.1.rest.now) }
        ensures can { IfSome result (λ p. CanAddBound (program self.now) p.0 p.1.column p.1.value) }
    {
        let Some((kind, behind)) = first_kind(text) else {
            return None;
        };
        let Some(rest) = self.after_set(behind) else {
            return None;
        };
        let Some(bound) = self.column_bound(kind, rest) else {
            return None;
        };
        if self.sets_again(kind, bound.column) {
            return None;
        }
        Some((kind, bound))
    }

    /// Takes lines of bounds, one after the other.
    pub(crate) fn take_bounds_front(&mut self, text: &[u8]) -> Front
        requires sound { IsSound self.old }
        requires current { last_of self.old.standing.begun ≡ Some Keyword.Bounds }
        requires few { length text.now ≤ 2 ^ 31 + 1 }
        ensures lines { TakesLines self.old text.now result self.new }
        ensures sound { IsSound self.new }
    {
        let mut rest = text;
        let mut lines = 0;
        'bounds: while let Some((kind, bound)) = self.next_bound(rest) {
            let Ok(()) = self.add_bound(kind, bound.column, bound.value) else {
                return Front {
                    len: text.len() - rest.len(),
                    lines,
                };
            };
            rest = bound.rest;
            lines += 1;
        }
        Front {
            len: text.len() - rest.len(),
            lines,
        }
    }
}
