// Suffixes in order of first appearance, found by name.
ghost use Rattle.std.specs.Prelude.{◌≡◌, ◌<◌, ◌++◌, ◌∷◌, ◌^◌, [], map, length, slice_get, slice_set, false, IfOk, OnOk, Some, None, option_copied};
ghost use Rattle.nl_model.specs.declared.suffix.Suffix.{Suffix as SuffixValue};
ghost use Rattle.text_base.specs.Names.{IsName};
ghost use Rattle.answer_file.specs.Entries.{SuffixLine};
ghost use Rattle.answer_file.specs.Suffixes.{place_named, suffix_at, value_count, with_objective};
ghost use Rattle.answer_file.specs.Grammar.{is_full};
ghost use Rattle.answer_file.specs.Steps.{new_suffix, with_line, with_suffix_line};

use crate::group::Group;
use crate::named_places::NamedPlaces;
use exact_numbers::Dec;
use nl_model::{Suffix, Terms, is_for_objectives};
use std::alloc::{AllocError, Global};
use std::marker::Model;
use text_base::Name;

/// An answer has at most so many suffixes.
const MOST_SUFFIXES: usize = 1 << 10;

/// All suffixes together have at most so many values.
const MOST_VALUES: usize = 1 << 22;

/// Suffixes in order of first appearance, how many values they have, and their places by name.
#[derive(Drop)]
pub struct SuffixTable {
    groups: Vec<Group>,
    values: usize,
    places: NamedPlaces,
}

impl Model for SuffixTable {
    ghost use Rattle.std.specs.Prelude.{List};
    ghost use Rattle.nl_model.specs.declared.suffix.Suffix.{Suffix as SuffixOf};
    ghost use Rattle.answer_file.specs.InsideNamedPlaces.{IsTable};

    ghost Value = { List SuffixOf };

    ghost view = { λ t. t.groups.items };

    ghost invariant = { λ t. IsTable t.groups.items t.values t.places };
}

/// A value for an object of a suffix of this kind.
#[derive(Clone, Copy)]
pub struct NewValue {
    pub(crate) kind: u8,
    pub(crate) object: u32,
    pub(crate) value: Dec,
}

// The suffix of this name, with one value.
fn first_group(alloc: Global, name: &[u8], new: NewValue) -> Result<Group, AllocError>
    requires { IsName name.now }
    ensures { IfOk result (λ g. g ≡ new_suffix (record {
      kind = new.kind;
      name = name.now;
      place = new.object;
      value = new.value;
    })) }
{
    let mut group = Group::new(alloc, new.kind, Name::tested(alloc, name)?);
    group.add(new.object, new.value)?;
    Ok(group)
}

// The suffix, with the number of its objective where its object is the objective.
fn with_objective(alloc: Global, objective: u32, suffix: Suffix) -> Result<Suffix, AllocError>
    ensures { IfOk result (λ s. s ≡ with_objective objective suffix) }
{
    if !is_for_objectives(suffix.kind) {
        return Ok(suffix);
    }
    let mut values = Terms::new(alloc);
    for term in suffix.values.items() {
        values.push((objective, term.1))?;
    }
    Ok(Suffix {
        kind: suffix.kind,
        name: suffix.name,
        values,
    })
}

// The suffixes of groups, with the number of the objective.
#[tactic(auto, using(std::proofs::lemmas::List::nil_from_length))]
fn suffixes_of(alloc: Global, objective: u32, groups: Vec<Group>) -> Result<Vec<Suffix>, AllocError>
    ensures { IfOk result (λ v. v.items ≡ map (with_objective objective) groups.items) }
{
    let mut suffixes = Vec::new(alloc);
    for group in groups {
        suffixes.push(with_objective(alloc, objective, group.into_suffix())?)?;
    }
    Ok(suffixes)
}

impl SuffixTable {
    /// No suffixes.
    pub(crate) fn new(alloc: Global) -> SuffixTable
        ensures { result ≡ [] }
    {
        SuffixTable {
            groups: Vec::new(alloc),
            values: 0,
            places: NamedPlaces::new(alloc),
        }
    }

    /// Where the suffix of this name and the objects of a kind stands.
    pub(crate) fn place(&self, kind: u8, name: &[u8]) -> Option<u32>
        ensures { result ≡ place_named self.now kind name.now }
    {
        self.places.get(kind, name)
    }

    /// The suffix at a place.
    pub(crate) fn at(&self, place: Option<u32>) -> Option<&Group>
        ensures { option_copied result ≡ suffix_at self.now place }
    {
        match place {
            Some(place) => self.groups.get(place as usize),
            None => None,
        }
    }

    /// Whether there is no room for a value of the suffix at a place, or of a new suffix where
    /// there is none.
    pub(crate) fn is_full(&self, place: Option<u32>) -> bool
        ensures { result ≡ is_full self.now (suffix_at self.now place) }
    {
        (self.at(place).is_none() && self.groups.len() >= MOST_SUFFIXES)
            || self.values >= MOST_VALUES
    }

    // Begins a suffix with a value.
    fn begin(&mut self, alloc: Global, name: &[u8], new: NewValue) -> Result<(), AllocError>
        requires fresh { place_named self.old new.kind name.now ≡ None }
        requires name { IsName name.now }
        requires few { length self.old < 2 ^ 10 }
        requires room { value_count self.old < 2 ^ 22 }
        ensures { OnOk result (self.new ≡ self.old
            ++ new_suffix (record {
              kind = new.kind;
              name = name.now;
              place = new.object;
              value = new.value;
            }) ∷ []) }
    {
        let kind = new.kind;
        let group = first_group(alloc, name, new)?;
        self.groups.reserve(1)?;
        let place = self.groups.len() as u32;
        self.places.add(alloc, kind, name, place)?;
        self.values += 1;
        match self.groups.push(group) {
            Ok(()) => Ok(()),
            Err(_) => unreachable!(),
        }
    }

    /// Adds a value.
    #[tactic(auto, using(crate::proofs::TableLemmas::placed_new, crate::proofs::TableLemmas::table_changed))]
    pub(crate) fn add(
        &mut self,
        alloc: Global,
        name: &[u8],
        suffix: Option<u32>,
        new: NewValue,
    ) -> Result<(), AllocError>
        requires suffix { suffix ≡ place_named self.old new.kind name.now }
        requires name { IsName name.now }
        requires room { is_full self.old (suffix_at self.old suffix) ≡ false }
        ensures { OnOk result (self.new ≡ with_suffix_line self.old
            (record { kind = new.kind; name = name.now; place = new.object; value = new.value })) }
    {
        let Some(place) = suffix else {
            return self.begin(alloc, name, new);
        };
        self.groups[place as usize].add(new.object, new.value)?;
        self.values += 1;
        Ok(())
    }

    // The suffixes alone.
    fn into_groups(self) -> Vec<Group>
        ensures { result.items ≡ self }
    {
        self.groups
    }

    /// The suffixes, with the number of the objective.
    pub(crate) fn into_suffixes(
        self,
        alloc: Global,
        objective: u32,
    ) -> Result<Vec<Suffix>, AllocError>
        ensures { IfOk result (λ v. v.items ≡ map (with_objective objective) self) }
    {
        suffixes_of(alloc, objective, self.into_groups())
    }
}
