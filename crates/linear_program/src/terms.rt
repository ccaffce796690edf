// Lists of terms.
ghost use Rattle.std.specs.Prelude.{◌≡◌, ◌<◌, ◌++◌, ◌∷◌, [], length, IfOk, OnOk, OnErr, Some, slice_get};

use crate::few::Few;
use exact_numbers::Dec;
use std::alloc::{AllocError, Global};
use std::marker::Model;

/// Indices with their values, in their order.
#[derive(Drop)]
pub struct Terms {
    items: Few<(u32, Dec)>,
}

impl Model for Terms {
    ghost use Rattle.std.specs.Prelude.{List, ℕ};
    ghost use Rattle.exact_numbers.specs.declared.dec.Dec.{Dec as DecValue};

    ghost Value = { List (ℕ × DecValue) };

    ghost use Rattle.linear_program.specs.Fews.{few_items};

    ghost view = { λ t. few_items t.items };
}

impl Terms {
    ghost use Rattle.linear_program.specs.Fews.{few_items};

    /// No terms.
    pub fn new(alloc: Global) -> Self
        ensures { result ≡ [] }
    {
        Terms {
            items: Few::new(alloc),
        }
    }

    /// These terms.
    pub fn of_slice(alloc: Global, terms: &[(u32, Dec)]) -> Result<Self, AllocError>
        ensures { IfOk result (λ new. new ≡ terms.now) }
    {
        let items = Few::of_slice(alloc, terms)?;
        Ok(Terms { items })
    }

    // The terms of a list.
    pub(crate) fn of_few(items: Few<(u32, Dec)>) -> Self
        ensures { result ≡ few_items items }
    {
        Terms { items }
    }

    // The list of the terms.
    pub(crate) fn into_few(self) -> Few<(u32, Dec)>
        ensures { few_items result ≡ self }
    {
        self.items
    }

    /// Adds a term at the end.
    pub fn push(&mut self, term: (u32, Dec)) -> Result<(), AllocError>
        ensures ok { OnOk result (self.new ≡ self.old ++ term ∷ []) }
        ensures err { OnErr result (self.new ≡ self.old) }
    {
        self.items.push(term)
    }

    /// Makes room for so many terms more.
    pub fn make_room(&mut self, count: usize) -> Result<(), AllocError>
        ensures { self.new ≡ self.old }
    {
        self.items.make_room(count)
    }

    /// How many terms there are.
    pub fn len(&self) -> usize
        ensures { result ≡ length self.now }
    {
        self.items.items().len()
    }

    /// The term at i, counted from 0.
    pub fn get(&self, i: usize) -> (u32, Dec)
        requires { i < length self.now }
        ensures { slice_get self.now i ≡ Some result }
    {
        self.items.items()[i]
    }

    /// All terms in order.
    pub fn items(&self) -> &[(u32, Dec)]
        ensures { result.now ≡ self.now }
    {
        self.items.items()
    }
}
