// Lines of rows at the front of a piece.
ghost use Rattle.std.specs.Prelude.{◌≡◌, ◌≤◌, ◌+◌, ◌^◌, false, None, Some, IfSome, length};
ghost use Rattle.text_base.specs.Names.{IsName};
ghost use Rattle.mps_model.specs.Built.{CanAddRow};
ghost use Rattle.mps_reader.specs.InsideHeld.{IsSound, program};
ghost use Rattle.mps_reader.specs.InsideHeldSteps.{with_row};
ghost use Rattle.mps_reader.specs.InsideLines.{IsNext, IsRowText, TakesLines};
ghost use Rattle.mps_reader.specs.Saying.{place_of};
ghost use Rattle.mps_words.specs.Sections.{last_of};

use crate::front_lines::FrontTaken;
use crate::state::State;
use mps_model::RowKind;
use mps_words::{Keyword, first_name, is_marker_word, row_kind_of_one};
use text_base::Front;

/// A row, and what follows its line.
#[derive(Clone, Copy)]
pub struct RowText<'a> {
    pub kind: RowKind,
    pub name: &'a [u8],
    pub rest: &'a [u8],
}

// The row that a text begins with.
#[inline]
fn first_row(text: &[u8]) -> Option<RowText<'_>>
    ensures { IfSome result (λ r. IsRowText text.now r.kind r.name.now r.rest.now) }
{
    let [space, letter, other, behind @ ..] = text else {
        return None;
    };
    if *space != b' ' || *other != b' ' {
        return None;
    }
    let Some(kind) = row_kind_of_one(*letter) else {
        return None;
    };
    let Some((name, rest)) = first_name(behind, b'\n') else {
        return None;
    };
    Some(RowText { kind, name, rest })
}

impl State {
    // The row that a text begins with, where it may come.
    #[inline]
    fn next_row<'a>(&self, text: &'a [u8]) -> Option<RowText<'a>>
        requires sound { IsSound self.now }
        requires current { last_of self.now.standing.begun ≡ Some Keyword.Rows }
        ensures next { IfSome result (λ r. IsNext Keyword.Rows self.now
            (with_row self.now (record { name = r.name.now; kind = r.kind }))
            text.now r.rest.now) }
        ensures name { IfSome result (λ r. IsName r.name.now) }
        ensures can { IfSome result (λ r. CanAddRow (program self.now) r.name.now) }
        ensures new { IfSome result (λ r. place_of self.now.rows r.name.now ≡ None) }
    {
        let Some(row) = first_row(text) else {
            return None;
        };
        if is_marker_word(row.name) {
            return None;
        }
        if !self.rows.takes(row.name) {
            return None;
        }
        Some(row)
    }

    /// Takes lines of rows, one after the other.
    pub(crate) fn take_rows_front(&mut self, text: &[u8]) -> FrontTaken
        requires sound { IsSound self.old }
        requires current { last_of self.old.standing.begun ≡ Some Keyword.Rows }
        requires few { length text.now ≤ 2 ^ 31 + 1 }
        ensures lines { TakesLines self.old text.now result.front self.new }
        ensures sound { result.is_broken ≡ false → IsSound self.new }
    {
        let mut rest = text;
        let mut lines = 0;
        'rows: while let Some(row) = self.next_row(rest) {
            let Ok(()) = self.add_row(row.name, row.kind) else {
                let len = text.len() - rest.len();
                return FrontTaken {
                    front: Front { len, lines },
                    is_broken: true,
                };
            };
            rest = row.rest;
            lines += 1;
        }
        let len = text.len() - rest.len();
        FrontTaken {
            front: Front { len, lines },
            is_broken: false,
        }
    }
}
