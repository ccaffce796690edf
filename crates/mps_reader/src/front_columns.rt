// The first lines of columns at the front of a piece.
ghost use Rattle.std.specs.Prelude.{◌≡◌, ◌<◌, ◌≤◌, ◌^◌, ◌∷◌, ◌++◌, [], true, false, None, Some, OnOk, OnErr, IfSome, length};
ghost use Rattle.text_base.specs.Names.{IsName};
ghost use Rattle.mps_model.specs.Built.{CanAddColumn, CanAddEntries};
ghost use Rattle.mps_reader.specs.InsideHeld.{IsKept, IsSound, program};
ghost use Rattle.mps_reader.specs.InsideHeldSteps.{with_first_entry};
ghost use Rattle.mps_reader.specs.InsideLines.{IsNext, MayBegin, TakesLines};
ghost use Rattle.mps_reader.specs.Saying.{place_of};
ghost use Rattle.mps_words.specs.Sections.{last_of};

use crate::front_lines::FrontTaken;
use crate::sides::Sides;
use crate::state::State;
use exact_numbers::Dec;
use mps_words::{Keyword, after_space, first_name};
use std::alloc::AllocError;
use text_base::{Front, Name};

/// A new column gets room for at most so many entries.
const MOST_ROOM: u32 = 16;

/// A column and its first entry, and what follows its line.
#[derive(Clone, Copy)]
struct NextColumn<'a> {
    name: &'a [u8],
    row: u32,
    value: Dec,
    rest: &'a [u8],
}

// The name that a line begins with, and what follows it and a space.
#[inline]
fn column_name(text: &[u8]) -> Option<(&[u8], &[u8])>
    ensures name { IfSome result (λ p. IsName p.0.now) }
    ensures parts { IfSome result (λ p. text.now ≡ 32 ∷ p.0.now ++ 32 ∷ p.1.now) }
{
    let Some(line) = after_space(text) else {
        return None;
    };
    first_name(line, b' ')
}

impl State {
    // Whether a new column of this name may come, with an entry.
    #[inline]
    fn may_begin(&self, name: &[u8]) -> bool
        requires { IsKept self.now }
        ensures { result ≡ true → MayBegin self.now name.now }
    {
        !self.is_full(Keyword::Columns) && self.columns.takes(name)
    }

    // The column that a text begins with, where it may come.
    #[inline]
    fn next_column<'a>(&self, text: &'a [u8]) -> Option<NextColumn<'a>>
        requires sound { IsSound self.now }
        requires current { last_of self.now.standing.begun ≡ Some Keyword.Columns }
        ensures next { IfSome result (λ c. IsNext Keyword.Columns self.now
            (with_first_entry self.now c.name.now (record { row = c.row; value = c.value }))
            text.now c.rest.now) }
        ensures name { IfSome result (λ c. IsName c.name.now) }
        ensures can { IfSome result (λ c. CanAddColumn (program self.now) c.name.now) }
        ensures entries { IfSome result (λ c. CanAddEntries (program self.now)
            ((c.row, c.value) ∷ [])) }
        ensures new { IfSome result (λ c. place_of self.now.columns c.name.now ≡ None) }
        ensures within { IfSome result (λ c. c.row < length self.now.marks) }
        ensures kept { IfSome result (λ c. IsKept
            (with_first_entry self.now c.name.now (record { row = c.row; value = c.value }))) }
    {
        let Some((name, behind)) = column_name(text) else {
            return None;
        };
        let Some(pair) = self.row_pair(behind) else {
            return None;
        };
        if !self.may_begin(name) {
            return None;
        }
        Some(NextColumn {
            name,
            row: pair.row,
            value: pair.value,
            rest: pair.rest,
        })
    }

    // For how many entries a new column gets room: as many as the last one has, but few.
    #[inline]
    fn entry_room(&self) -> usize
        ensures { result ≤ 16 }
    {
        let entries = self.entries.wrapping_sub(self.entries_before);
        entries.min(MOST_ROOM) as usize
    }

    // Adds a column with its first entry. Want of memory may leave its name, but adds nothing to
    // the program.
    fn add_first(&mut self, word: &[u8], row: u32, value: Dec) -> Result<(), AllocError>
        requires kept { IsKept self.old }
        requires current { last_of self.old.standing.begun ≡ Some Keyword.Columns }
        requires name { IsName word.now }
        requires can { CanAddColumn (program self.old) word.now }
        requires entries { CanAddEntries (program self.old) ((row, value) ∷ []) }
        requires new { place_of self.old.columns word.now ≡ None }
        requires within { row < length self.old.marks }
        ensures ok { OnOk result (self.new
            ≡ with_first_entry self.old word.now (record { row = row; value = value })) }
        ensures err { OnErr result (self.new.standing ≡ self.old.standing) }
    {
        let name = Name::tested(self.alloc, word)?;
        let mut entries = Vec::with_capacity(self.alloc, self.entry_room())?;
        entries.push((row, value))?;
        self.columns.add(self.alloc, word)?;
        self.sides.push(Sides {
            lower: false,
            upper: false,
        })?;
        self.builder.add_column(name, self.is_marked, entries)?;
        self.marks.clear();
        self.marks.mark(row);
        self.is_current = true;
        self.entries_before = self.entries;
        self.entries += 1;
        Ok(())
    }

    /// Takes the first line of a column, where a text begins with one.
    #[inline]
    pub(crate) fn take_column_front(&mut self, text: &[u8]) -> FrontTaken
        requires sound { IsSound self.old }
        requires current { last_of self.old.standing.begun ≡ Some Keyword.Columns }
        ensures lines { TakesLines self.old text.now result.front self.new }
        ensures sound { result.is_broken ≡ false → IsSound self.new }
        ensures same { self.new.standing.begun ≡ self.old.standing.begun }
    {
        let Some(column) = self.next_column(text) else {
            return FrontTaken {
                front: Front { len: 0, lines: 0 },
                is_broken: false,
            };
        };
        match self.add_first(column.name, column.row, column.value) {
            Ok(()) => FrontTaken {
                front: Front {
                    len: text.len() - column.rest.len(),
                    lines: 1,
                },
                is_broken: false,
            },
            Err(_) => FrontTaken {
                front: Front { len: 0, lines: 0 },
                is_broken: true,
            },
        }
    }
}
