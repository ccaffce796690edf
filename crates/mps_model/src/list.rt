// Lists of names.
ghost use Rattle.std.specs.Prelude.{◌≡◌, ◌++◌, ◌∷◌, [], None, false, OnOk, length, ◌+◌, ◌<◌, ◌^◌, slice_index_or};
ghost use Rattle.text_base.specs.Names.{IsName};
ghost use Rattle.mps_model.specs.Names.{AreNames, place_of, is_reserved};

use indexmap::IndexSet;
use std::alloc::{AllocError, Global};
use std::marker::Model;

/// Different names in their order, none of them reserved, each with its place, which is found in
/// constant time.
#[derive(Drop)]
pub struct NameList {
    names: IndexSet<Vec<u8>>,
}

impl Model for NameList {
    ghost use Rattle.std.specs.Prelude.{List, ℕ, map};
    ghost use Rattle.mps_model.specs.Names.{AreNames};

    ghost Value = { List (List ℕ) };

    ghost view = { λ n. map (λ k. k.items) n.names.keys };

    ghost invariant = { λ n. AreNames (map (λ k. k.items) n.names.keys) };
}

impl NameList {
    /// No names.
    pub fn new(alloc: Global) -> NameList
        ensures { result ≡ [] }
    {
        NameList {
            names: IndexSet::new(alloc),
        }
    }

    /// How many names there are.
    pub fn len(&self) -> u32
        ensures value { result ≡ length self.now }
        ensures valid { AreNames self.now }
    {
        self.names.len() as u32
    }

    // The name at a place.
    fn get(&self, place: u32) -> &[u8]
        requires { place < length self.now }
        ensures { result.now ≡ slice_index_or self.now place [] }
    {
        match self.names.get_index(place as usize) {
            Some(name) => name.as_slice(),
            None => b"".as_slice(),
        }
    }

    /// The bytes of name i, counted from 0.
    pub fn name(&self, i: u32) -> &[u8]
        requires { i < length self.now }
        ensures value { result.now ≡ slice_index_or self.now i [] }
        ensures name { IsName result.now }
    {
        let _len = self.len();
        self.get(i)
    }

    /// The place of the name that is this text.
    pub fn find(&self, text: &[u8]) -> Option<u32>
        ensures { result ≡ place_of self.now text.now }
    {
        match self.names.get_index_of(text) {
            Some(place) => Some(place as u32),
            None => None,
        }
    }

    /// Adds a new name at the end.
    pub fn add(&mut self, alloc: Global, name: &[u8]) -> Result<(), AllocError>
        requires new { place_of self.old name.now ≡ None }
        requires room { length self.old + 1 < 2 ^ 32 }
        requires named { IsName name.now }
        requires free { is_reserved name.now ≡ false }
        ensures { OnOk result (self.new ≡ self.old ++ name.now ∷ []) }
    {
        self.names.insert(Vec::from_slice(alloc, name)?)?;
        Ok(())
    }
}
