// Terms with fractions.
ghost use Rattle.std.specs.Prelude.{◌≡◌, ◌≢◌, ◌∷◌, ◌++◌, ◌↔◌, IfOk, IsTrue, OnErr, OnOk, []};
ghost use Rattle.exact_numbers.specs.Values.{frac_value};
ghost use Rattle.exact_numbers.specs.Rational.{zero_ℚ};
ghost use Rattle.linear_program.specs.Coefs.{AreAscending, AreBelow};

use exact_numbers::Frac;
use std::alloc::{AllocError, Global};
use std::marker::Model;

/// FractionTerms that are not 0, ascending by variable.
#[derive(Drop)]
pub struct FractionTerms {
    items: Vec<(u32, Frac)>,
}

impl Model for FractionTerms {
    ghost use Rattle.std.specs.Prelude.{List, ℕ};
    ghost use Rattle.exact_numbers.specs.declared.frac.Frac.{Frac as FracFields};
    ghost use Rattle.linear_program.specs.Coefs.{AreAscending};

    ghost Value = { List (ℕ × FracFields) };

    ghost view = { λ c. c.items.items };

    ghost invariant = { λ c. AreAscending 0 c.items.items };
}

impl FractionTerms {
    /// No coefficients.
    pub(crate) fn new(alloc: Global) -> Self
        ensures { result ≡ [] }
    {
        FractionTerms {
            items: Vec::new(alloc),
        }
    }

    pub(crate) fn of_items(items: Vec<(u32, Frac)>) -> Self
        requires { AreAscending 0 items.items }
        ensures { result ≡ items.items }
    {
        FractionTerms { items }
    }

    // One term.
    pub(crate) fn of_term(alloc: Global, variable: u32, factor: Frac) -> Result<Self, AllocError>
        requires { frac_value factor ≢ zero_ℚ }
        ensures { IfOk result (λ c. c ≡ (variable, factor) ∷ []) }
    {
        let mut items = Vec::with_capacity(alloc, 1)?;
        items.push((variable, factor))?;
        Ok(FractionTerms::of_items(items))
    }

    pub(crate) fn allocator(&self) -> Global {
        *self.items.allocator()
    }

    pub(crate) fn items(&self) -> &[(u32, Frac)]
        ensures items { result.now ≡ self.now }
        ensures ascending { AreAscending 0 self.now }
    {
        &self.items
    }
}

impl FractionTerms {
    /// A copy of terms.
    pub(crate) fn of_slice(alloc: Global, terms: &[(u32, Frac)]) -> Result<Self, AllocError>
        requires { AreAscending 0 terms.now }
        ensures { IfOk result (λ c. c ≡ terms.now) }
    {
        let mut items = Vec::with_capacity(alloc, terms.len())?;
        items.extend_from_slice(terms)?;
        Ok(FractionTerms { items })
    }

    /// Whether a variable comes after each that is there.
    #[inline]
    pub(crate) fn comes_last(&self, variable: u32) -> bool
        ensures { IsTrue result ↔ AreBelow variable self.now }
    {
        match self.items.last() {
            Some(last) => last.0 < variable,
            None => true,
        }
    }

    /// Adds a term that comes last.
    #[inline]
    pub(crate) fn push(&mut self, variable: u32, factor: Frac) -> Result<(), AllocError>
        requires last { AreBelow variable self.old }
        requires factor { frac_value factor ≢ zero_ℚ }
        ensures more { OnOk result (self.new ≡ self.old ++ (variable, factor) ∷ []) }
        ensures same { OnErr result (self.new ≡ self.old) }
    {
        self.items.push((variable, factor))?;
        Ok(())
    }

    pub(crate) fn clear(&mut self)
        ensures { self.new ≡ [] }
    {
        self.items.clear();
    }
}
