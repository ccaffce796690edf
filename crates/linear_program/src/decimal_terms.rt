// Terms with decimals.
ghost use Rattle.std.specs.Prelude.{◌≡◌, ◌<◌, IfOk, get_or, length};
ghost use Rattle.linear_program.specs.Coefs.{AreAscending};
ghost use Rattle.linear_program.specs.Decimals.{AreDecimals, fraction_terms};
ghost use Rattle.linear_program.specs.Numbers.{IsTermAt};

use crate::few::Few;
use crate::number::Number;
use crate::terms::Terms;
use exact_numbers::{Dec, Frac};
use std::alloc::{AllocError, Global};
use std::marker::Model;

/// Coefficients that are not 0, ascending by variable, as decimals that have fractions.
#[derive(Drop)]
pub struct DecimalTerms {
    items: Few<(u32, Dec)>,
}

impl Model for DecimalTerms {
    ghost use Rattle.std.specs.Prelude.{List, ℕ};
    ghost use Rattle.exact_numbers.specs.declared.dec.Dec.{Dec as DecFields};
    ghost use Rattle.linear_program.specs.Decimals.{AreDecimals};
    ghost use Rattle.linear_program.specs.Fews.{few_items};

    ghost Value = { List (ℕ × DecFields) };

    ghost view = { λ c. few_items c.items };

    ghost invariant = { λ c. AreDecimals 0 (few_items c.items) };
}

// The same terms with fractions.
pub(crate) fn fractions_of(
    alloc: Global,
    terms: &[(u32, Dec)],
) -> Result<Vec<(u32, Frac)>, AllocError>
    requires { AreDecimals 0 terms.now }
    ensures terms { IfOk result (λ v. v.items ≡ fraction_terms terms.now) }
    ensures ascending { IfOk result (λ v. AreAscending 0 v.items) }
{
    let mut items = Vec::with_capacity(alloc, terms.len())?;
    for i in 0..terms.len() {
        let term = terms[i];
        let Some(fraction) = Frac::of_dec(term.1) else {
            unreachable!();
        };
        items.push((term.0, fraction))?;
    }
    Ok(items)
}

impl DecimalTerms {
    /// A copy of terms.
    pub(crate) fn of_slice(alloc: Global, terms: &[(u32, Dec)]) -> Result<Self, AllocError>
        requires { AreDecimals 0 terms.now }
        ensures { IfOk result (λ c. c ≡ terms.now) }
    {
        let items = Few::of_slice(alloc, terms)?;
        Ok(DecimalTerms { items })
    }

    /// These terms, which are not copied.
    pub(crate) fn of_terms(terms: Terms) -> Self
        requires { AreDecimals 0 terms }
        ensures { result ≡ terms }
    {
        DecimalTerms {
            items: terms.into_few(),
        }
    }

    /// The terms, which are not copied.
    pub(crate) fn into_terms(self) -> Terms
        ensures terms { result ≡ self }
        ensures decimals { AreDecimals 0 self }
    {
        Terms::of_few(self.items)
    }

    pub(crate) fn allocator(&self) -> Global {
        self.items.allocator()
    }

    pub(crate) fn items(&self) -> &[(u32, Dec)]
        ensures items { result.now ≡ self.now }
        ensures decimals { AreDecimals 0 self.now }
    {
        self.items.items()
    }

    // The term at a place, with its decimal.
    #[inline]
    pub(crate) fn number_at(&self, place: usize) -> (u32, Number)
        requires { place < length self.now }
        ensures { IsTermAt (fraction_terms self.now) place result }
    {
        let items = self.items();
        let term = items[place];
        (term.0, Number::Decimal(term.1))
    }

    // The term at a place, with a fraction.
    pub(crate) fn at(&self, place: usize) -> (u32, Frac)
        requires { place < length self.now }
        ensures { result ≡ get_or (fraction_terms self.now) place result }
    {
        let items = self.items();
        let term = items[place];
        match Frac::of_dec(term.1) {
            Some(fraction) => (term.0, fraction),
            None => unreachable!(),
        }
    }
}
