// The places of suffixes by name.
ghost use Rattle.std.specs.Prelude.{◌≡◌, ◌++◌, ◌∷◌, [], None, OnOk, OnErr};
ghost use Rattle.answer_file.specs.InsideNamedPlaces.{lookup_name, no_places, places_for, with_place};

use indexmap::IndexMap;
use nl_model::{Objects, objects_of};
use std::alloc::{AllocError, Global};
use std::marker::Model;

/// A place for each name that came.
#[derive(Drop)]
pub struct NameMap {
    places: IndexMap<Vec<u8>, u32>,
}

impl Model for NameMap {
    ghost use Rattle.std.specs.Prelude.{List, ℕ};
    ghost use Rattle.answer_file.specs.InsideNamedPlaces.{by_name};

    ghost Value = { List (List ℕ × ℕ) };

    ghost view = { λ p. by_name p.places.entries };
}

impl NameMap {
    /// No names.
    fn new(alloc: Global) -> NameMap
        ensures { result ≡ [] }
    {
        NameMap {
            places: IndexMap::new(alloc),
        }
    }

    /// The place of a name.
    #[tactic(auto, using(crate::proofs::NamedLemmas::lookup_by_name))]
    fn get(&self, name: &[u8]) -> Option<u32>
        ensures { result ≡ lookup_name self.now name.now }
    {
        self.places.get(name).copied()
    }

    /// Adds a new name. Want of memory changes nothing.
    fn add(&mut self, alloc: Global, name: &[u8], place: u32) -> Result<(), AllocError>
        requires { lookup_name self.old name.now ≡ None }
        ensures ok { OnOk result (self.new ≡ self.old ++ (name.now, place) ∷ []) }
        ensures err { OnErr result (self.new ≡ self.old) }
    {
        self.places.insert(Vec::from_slice(alloc, name)?, place)?;
        Ok(())
    }
}

/// A place for each name that came, apart for suffixes of columns, of rows, of objectives and of
/// the problem.
#[derive(Drop)]
pub struct NamedPlaces {
    columns: NameMap,
    rows: NameMap,
    objectives: NameMap,
    problem: NameMap,
}

impl Model for NamedPlaces {
    ghost use Rattle.answer_file.specs.InsideNamedPlaces.{Places};

    ghost Value = { Places };

    ghost view = { λ p. record {
      columns = p.columns;
      rows = p.rows;
      objectives = p.objectives;
      problem = p.problem;
    } };
}

impl NamedPlaces {
    /// No names.
    pub(crate) fn new(alloc: Global) -> NamedPlaces
        ensures { result ≡ no_places }
    {
        NamedPlaces {
            columns: NameMap::new(alloc),
            rows: NameMap::new(alloc),
            objectives: NameMap::new(alloc),
            problem: NameMap::new(alloc),
        }
    }

    /// The place of the suffix of this name for the objects of a kind.
    pub(crate) fn get(&self, kind: u8, name: &[u8]) -> Option<u32>
        ensures { result ≡ lookup_name (places_for self.now kind) name.now }
    {
        match objects_of(kind) {
            Objects::Variables => self.columns.get(name),
            Objects::Constraints => self.rows.get(name),
            Objects::Objectives => self.objectives.get(name),
            Objects::Problem => self.problem.get(name),
        }
    }

    /// Adds a new name for the objects of a kind. Want of memory changes nothing.
    pub(crate) fn add(
        &mut self,
        alloc: Global,
        kind: u8,
        name: &[u8],
        place: u32,
    ) -> Result<(), AllocError>
        requires { lookup_name (places_for self.old kind) name.now ≡ None }
        ensures ok { OnOk result (self.new ≡ with_place self.old kind name.now place) }
        ensures err { OnErr result (self.new ≡ self.old) }
    {
        match objects_of(kind) {
            Objects::Variables => self.columns.add(alloc, name, place),
            Objects::Constraints => self.rows.add(alloc, name, place),
            Objects::Objectives => self.objectives.add(alloc, name, place),
            Objects::Problem => self.problem.add(alloc, name, place),
        }
    }
}
