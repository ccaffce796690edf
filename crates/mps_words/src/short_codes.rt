// Codes of short names in sets, which find them by their hashes.
ghost use Rattle.std.specs.Prelude.{◌≡◌, ◌≢◌, ◌<◌, ◌^◌, ◌++◌, ◌∷◌, [], None, All, OnOk, OnErr, IfSome, length, get_or, slice_get};

use indexmap::IndexSet;
use std::alloc::{AllocError, Global};
use std::marker::Model;

// Codes from here on are those of names of more than eight bytes.
const WIDE: u128 = 0x1_0000_0000_0000_0000;

/// Codes that differ, in the order in which they came.
#[derive(Drop)]
pub struct ShortCodes {
    // those before the first that is wide
    narrow: IndexSet<u64>,
    // those from it on
    wide: IndexSet<u128>,
}

impl Model for ShortCodes {
    ghost use Rattle.std.specs.Prelude.{List, ℕ, ◌<◌, ◌^◌, ◌++◌, All};

    ghost Value = { List ℕ };

    ghost view = { λ c. c.narrow.keys ++ c.wide.keys };

    ghost invariant = { λ c. All (λ n. n < 2 ^ 64) c.narrow.keys };
}

// The place of a code among those that are not wide.
#[inline]
fn narrow_place(codes: &IndexSet<u64>, code: u128) -> Option<usize>
    requires { All (λ c. c < 2 ^ 64) codes.now.keys }
    ensures within { IfSome result (λ p. p < length codes.now.keys) }
    ensures found { IfSome result (λ p. get_or codes.now.keys p 0 ≡ code) }
    ensures absent { result ≡ None → All (λ c. c ≢ code) codes.now.keys }
{
    if code >= WIDE {
        return None;
    }
    let narrow = code as u64;
    codes.get_index_of(&narrow)
}

// The place of a code among those from the first wide one on.
fn wide_place(codes: &IndexSet<u128>, code: u128) -> Option<usize>
    ensures within { IfSome result (λ p. p < length codes.now.keys) }
    ensures found { IfSome result (λ p. get_or codes.now.keys p 0 ≡ code) }
    ensures absent { result ≡ None → All (λ c. c ≢ code) codes.now.keys }
{
    // without its hash where there is none
    if codes.len() == 0 {
        return None;
    }
    codes.get_index_of(&code)
}

impl ShortCodes {
    /// No codes.
    pub(crate) fn new(alloc: Global) -> ShortCodes
        ensures { result ≡ [] }
    {
        ShortCodes {
            narrow: IndexSet::new(alloc),
            wide: IndexSet::new(alloc),
        }
    }

    /// How many codes there are.
    #[inline]
    pub(crate) fn len(&self) -> usize
        ensures value { result ≡ length self.now }
        ensures few { result < 2 ^ 62 }
    {
        self.narrow.as_slice().len() + self.wide.as_slice().len()
    }

    /// The code at a place.
    #[inline(always)]
    pub(crate) fn get(&self, place: usize) -> Option<u128>
        ensures { result ≡ slice_get self.now place }
    {
        let narrow = self.narrow.as_slice();
        if place < narrow.len() {
            return Some(narrow[place] as u128);
        }
        self.wide.as_slice().get(place - narrow.len()).copied()
    }

    /// The place of a code.
    pub(crate) fn find(&self, code: u128) -> Option<usize>
        ensures within { IfSome result (λ p. p < length self.now) }
        ensures found { IfSome result (λ p. get_or self.now p 0 ≡ code) }
        ensures absent { result ≡ None → All (λ c. c ≢ code) self.now }
    {
        if let Some(place) = narrow_place(&self.narrow, code) {
            return Some(place);
        }
        let Some(place) = wide_place(&self.wide, code) else {
            return None;
        };
        // for the prover alone: how many there may be
        let _wide = self.wide.as_slice();
        Some(self.narrow.as_slice().len() + place)
    }

    /// Puts a new code behind the others. Want of memory changes no code.
    pub(crate) fn insert(&mut self, code: u128) -> Result<(), AllocError>
        requires { All (λ c. c ≢ code) self.old }
        ensures more { OnOk result (self.new ≡ self.old ++ code ∷ []) }
        ensures same { OnErr result (self.new ≡ self.old) }
    {
        let wide = self.wide.len();
        if code < WIDE && wide == 0 {
            self.narrow.insert(code as u64)?;
            return Ok(());
        }
        self.wide.insert(code)?;
        Ok(())
    }
}
