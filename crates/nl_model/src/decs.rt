// Lists of decimals.
ghost use Rattle.std.specs.Prelude.{◌≡◌, ◌<◌, ◌++◌, ◌∷◌, [], length, OnOk, OnErr, Some, slice_get};

use exact_numbers::Dec;
use std::alloc::{AllocError, Global};
use std::marker::Model;

/// Decimals in order.
#[derive(Drop)]
pub struct Decs {
    items: Vec<Dec>,
}

impl Model for Decs {
    ghost use Rattle.std.specs.Prelude.{List};
    ghost use Rattle.exact_numbers.specs.declared.dec.Dec.{Dec as DecValue};

    ghost Value = { List DecValue };

    ghost view = { λ d. d.items.items };
}

impl Decs {
    /// No decimals.
    pub fn new(alloc: Global) -> Self
        ensures { result ≡ [] }
    {
        Decs {
            items: Vec::new(alloc),
        }
    }

    /// Adds a decimal at the end.
    pub fn push(&mut self, value: Dec) -> Result<(), AllocError>
        ensures ok { OnOk result (self.new ≡ self.old ++ value ∷ []) }
        ensures err { OnErr result (self.new ≡ self.old) }
    {
        self.items.push(value)?;
        Ok(())
    }

    /// How many decimals there are.
    pub fn len(&self) -> usize
        ensures { result ≡ length self.now }
    {
        self.items.len()
    }

    /// The decimal at i, counted from 0.
    pub fn get(&self, i: usize) -> Dec
        requires { i < length self.now }
        ensures { slice_get self.now i ≡ Some result }
    {
        self.items[i]
    }

    /// All decimals in order.
    pub fn items(&self) -> &[Dec]
        ensures { result.now ≡ self.now }
    {
        &self.items
    }
}
