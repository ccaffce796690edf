// Names, at most as many as there may be rows or columns, in the order in which they came.
ghost use Rattle.std.specs.Prelude.{◌≡◌, ◌++◌, ◌∷◌, [], None, OnOk, IfSome, true, length, ◌<◌, ◌≤◌, ◌^◌};
ghost use Rattle.std.specs.Str.{bytes_eq};
ghost use Rattle.text_base.specs.Names.{IsName, is_name};
ghost use Rattle.mps_words.specs.InsideCodes.{IsFound, code_of};
ghost use Rattle.text_base.specs.Names.{place_of};
ghost use Rattle.mps_words.specs.Names.{last_name};

use crate::codes::{Codes, Key, after_code, after_code_word, first_short};
use crate::name_sets::{add_to, after_last, after_last_word, begun_with, is_last};
use indexmap::IndexSet;
use std::alloc::{AllocError, Global};
use std::marker::Model;

/// At most so many names may come.
pub const MOST_NAMES: usize = 0x20_0000;

// The code of the word `'MARKER'`.
const MARKER: u128 = 0x274d_4152_4b45_5227;

/// At most 2^21 different names, each with its place. As long as all are short, their codes alone
/// are kept, and a name is found by its code; else by its bytes.
#[derive(Drop)]
pub struct Names {
    codes: Codes,
    names: Option<IndexSet<Vec<u8>>>,
}

impl Model for Names {
    ghost use Rattle.std.specs.Prelude.{List, ℕ, map, option_map};
    ghost use Rattle.mps_words.specs.InsideCodes.{HaveCodes, kept_names};

    ghost Value = { List (List ℕ) };

    ghost view = { λ n. kept_names (option_map (λ s. map (λ k. k.items) s.keys) n.names) n.codes };

    ghost invariant = { λ n. HaveCodes
        (kept_names (option_map (λ s. map (λ k. k.items) s.keys) n.names) n.codes)
        n.codes };
}

impl Names {
    /// No names.
    pub fn new(alloc: Global) -> Names
        ensures { result ≡ [] }
    {
        Names {
            codes: Codes::new(alloc),
            names: None,
        }
    }

    /// How many names there are.
    pub fn len(&self) -> usize
        ensures value { result ≡ length self.now }
        ensures few { result ≤ 2 ^ 21 }
    {
        self.codes.len()
    }

    /// The place of a name.
    pub fn find(&self, name: &[u8]) -> Option<u32>
        ensures { result ≡ place_of self.now name.now }
    {
        let key = Key::of(name);
        if let Some(place) = self.codes.guess(key) {
            return Some(place as u32);
        }
        match self.look_up(key, name) {
            Some(place) => Some(place as u32),
            None => None,
        }
    }

    // The place of a name, by a hash.
    fn look_up(&self, key: Key, name: &[u8]) -> Option<usize>
        requires { key.code ≡ code_of name.now }
        ensures place { result ≡ place_of self.now name.now }
        ensures within { IfSome result (λ p. p < 2 ^ 21) }
    {
        match &self.names {
            Some(names) => names.get_index_of(name),
            None => self.codes.look_up(key.code),
        }
    }

    /// Whether a name is new, and there is room for one more.
    pub fn takes(&self, name: &[u8]) -> bool
        ensures new { result ≡ true → place_of self.now name.now ≡ None }
        ensures room { result ≡ true → length self.now < 2 ^ 21 }
    {
        if self.len() >= MOST_NAMES {
            return false;
        }
        self.find(name).is_none()
    }

    /// Whether this is the last name; the last of none is the empty one.
    pub fn is_last(&self, name: &[u8]) -> bool
        ensures value { result ≡ bytes_eq name.now (last_name self.now) }
        ensures name { result ≡ true → 0 < length name.now → is_name name.now ≡ true }
    {
        match &self.names {
            Some(names) => is_last(names, name),
            None => match self.codes.last() {
                Some(code) => Key::of(name).code == code,
                None => name.is_empty(),
            },
        }
    }

    /// What follows the last name, where a text begins with that.
    pub fn after_last<'a>(&self, text: &'a [u8]) -> Option<&'a [u8]>
        ensures parts { IfSome result (λ rest. text.now ≡ last_name self.now ++ rest.now) }
        ensures name { IfSome result (λ rest. IsName (last_name self.now)) }
    {
        match &self.names {
            Some(names) => after_last(names, text),
            None => match self.codes.last() {
                Some(code) => after_code(text, code),
                None => None,
            },
        }
    }

    /// The place of the short name that a text begins with, before this byte, and what follows
    /// that. None of some texts, as of those that begin with the word of a marker line.
    #[inline(always)]
    pub fn find_front<'a>(&self, text: &'a [u8], end: u8) -> Option<(u32, &'a [u8])>
        ensures { IfSome result (λ p. IsFound self.now text.now end p.0 p.1.now) }
    {
        let Some((key, rest)) = first_short(text, end) else {
            return None;
        };
        if key.code == MARKER {
            return None;
        }
        let Some(place) = self.codes.guess(key) else {
            return None;
        };
        Some((place as u32, rest))
    }

    /// What follows the last name and a space, where a text begins with them. None of some texts.
    #[inline(always)]
    pub fn after_last_word<'a>(&self, text: &'a [u8]) -> Option<&'a [u8]>
        ensures parts { IfSome result (λ rest. text.now ≡ last_name self.now ++ 32 ∷ rest.now) }
        ensures name { IfSome result (λ rest. IsName (last_name self.now)) }
    {
        match &self.names {
            Some(names) => after_last_word(names, text),
            None => match self.codes.last() {
                Some(code) => after_code_word(text, code),
                None => None,
            },
        }
    }

    /// Adds a new name.
    pub fn add(&mut self, alloc: Global, name: &[u8]) -> Result<(), AllocError>
        requires name { IsName name.now }
        requires new { place_of self.old name.now ≡ None }
        requires room { length self.old < 2 ^ 21 }
        ensures { OnOk result (self.new ≡ self.old ++ name.now ∷ []) }
    {
        let key = Key::of(name);
        match &mut self.names {
            Some(names) => add_to(names, &mut self.codes, alloc, key, name),
            None => {
                if key.code > 0 {
                    return self.codes.add(key);
                }
                let names = begun_with(&mut self.codes, alloc, key, name)?;
                self.names = Some(names);
                Ok(())
            }
        }
    }
}
