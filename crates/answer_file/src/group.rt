// A suffix whose values come one by one.
ghost use Rattle.std.specs.Prelude.{◌≡◌, ◌<◌, ◌+◌, ℕ, ◌++◌, ◌∷◌, [], length, get_or, slice_set, true, false, OnOk, OnErr};
ghost use Rattle.answer_file.specs.Suffixes.{has_place};

use exact_numbers::Dec;
use indexmap::IndexSet;
use nl_model::{Suffix, Terms};
use std::alloc::{AllocError, Global};
use std::marker::Model;
use text_base::Name;

/// A suffix, and the places that have a value.
#[derive(Drop)]
pub struct Group {
    suffix: Suffix,
    marks: IndexSet<u32>,
}

impl Model for Group {
    ghost use Rattle.nl_model.specs.declared.suffix.Suffix.{Suffix as SuffixValue};
    ghost use Rattle.answer_file.specs.Suffixes.{AreMarks};

    ghost Value = { SuffixValue };

    ghost view = { λ g. g.suffix };

    ghost invariant = { λ g. AreMarks g.marks.keys g.suffix.values };
}

impl Group {
    /// A suffix without values.
    pub(crate) fn new(alloc: Global, kind: u8, name: Name) -> Group
        ensures { result ≡ record { kind = kind; name = name; values = [] } }
    {
        Group {
            suffix: Suffix {
                kind,
                name,
                values: Terms::new(alloc),
            },
            marks: IndexSet::new(alloc),
        }
    }

    /// The kind.
    pub(crate) fn kind(&self) -> u8
        ensures { result ≡ self.now.kind }
    {
        self.suffix.kind
    }

    /// Whether there is a value for a place.
    pub(crate) fn has(&self, place: u32) -> bool
        ensures { result ≡ has_place self.now.values place }
    {
        self.marks.contains(&place)
    }

    /// Adds a value. Want of memory changes nothing.
    pub(crate) fn add(&mut self, place: u32, value: Dec) -> Result<(), AllocError>
        ensures ok { OnOk result (self.new ≡ record {
          kind = self.old.kind;
          name = self.old.name;
          values = self.old.values ++ (place, value) ∷ [];
        }) }
        ensures err { OnErr result (self.new ≡ self.old) }
    {
        self.marks.reserve(1)?;
        self.suffix.values.push((place, value))?;
        match self.marks.insert_full(place) {
            Ok(_) => Ok(()),
            Err(_) => unreachable!(),
        }
    }

    /// The suffix.
    pub(crate) fn into_suffix(self) -> Suffix
        ensures { result ≡ self }
    {
        self.suffix
    }
}
