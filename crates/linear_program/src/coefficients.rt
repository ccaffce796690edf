// The coefficients of a form: fractions, or decimals.
ghost use Rattle.std.specs.Prelude.{◌≡◌, ◌≢◌, ◌∷◌, ◌<◌, ◌^◌, IfOk, IfSome, MatchResult, [], get_or, length};
ghost use Rattle.exact_numbers.specs.Values.{frac_value};
ghost use Rattle.exact_numbers.specs.Rational.{zero_ℚ};
ghost use Rattle.linear_program.specs.Coefs.{AreAscending, AreDecimalsOf};
ghost use Rattle.linear_program.specs.Decimals.{AreDecimals, fraction_terms};
ghost use Rattle.linear_program.specs.Forms.{terms_left};
ghost use Rattle.linear_program.specs.Numbers.{IsTermAt};

use crate::decimal_terms::DecimalTerms;
use crate::form_terms::{FormTerms, TermSource};
use crate::fraction_terms::FractionTerms;
use crate::number::Number;
use crate::terms::Terms;
use exact_numbers::{Dec, Frac};
use std::alloc::{AllocError, Global};
use std::marker::Model;

/// Terms with fractions, or with decimals.
#[derive(Drop)]
pub enum TermList {
    Fractions(FractionTerms),
    Decimals(DecimalTerms),
}

/// Coefficients that are not 0, ascending by variable.
#[derive(Drop)]
pub struct Coefficients {
    list: TermList,
}

impl Model for Coefficients {
    ghost use Rattle.std.specs.Prelude.{List, ℕ};
    ghost use Rattle.exact_numbers.specs.declared.frac.Frac.{Frac as FracFields};
    ghost use Rattle.linear_program.specs.InsideTermLists.{listed_terms};

    ghost Value = { List (ℕ × FracFields) };

    ghost view = { λ c. listed_terms c.list };
}

impl Coefficients {
    /// No coefficients.
    pub fn new(alloc: Global) -> Self
        ensures { result ≡ [] }
    {
        Coefficients {
            list: TermList::Fractions(FractionTerms::new(alloc)),
        }
    }

    /// These coefficients, which are not copied.
    pub fn of_items(items: Vec<(u32, Frac)>) -> Self
        requires { AreAscending 0 items.items }
        ensures { result ≡ items.items }
    {
        Coefficients::of_fractions(FractionTerms::of_items(items))
    }

    pub(crate) fn of_fractions(terms: FractionTerms) -> Self
        ensures { result ≡ terms }
    {
        Coefficients {
            list: TermList::Fractions(terms),
        }
    }

    /// A copy of decimals.
    pub fn of_decimals(alloc: Global, terms: &[(u32, Dec)]) -> Result<Self, AllocError>
        requires { AreDecimals 0 terms.now }
        ensures { IfOk result (λ c. c ≡ fraction_terms terms.now) }
    {
        let decimals = DecimalTerms::of_slice(alloc, terms)?;
        Ok(Coefficients {
            list: TermList::Decimals(decimals),
        })
    }

    /// Decimals, which are not copied.
    pub fn of_terms(terms: Terms) -> Self
        requires { AreDecimals 0 terms }
        ensures { result ≡ fraction_terms terms }
    {
        Coefficients {
            list: TermList::Decimals(DecimalTerms::of_terms(terms)),
        }
    }

    // The decimals, which are not copied; the same coefficients where they are kept as fractions.
    pub(crate) fn into_terms(self) -> Result<Terms, Coefficients>
        ensures { MatchResult result (λ ts. AreDecimalsOf ts self) (λ c. c ≡ self) }
    {
        match self.list {
            TermList::Fractions(terms) => Err(Coefficients::of_fractions(terms)),
            TermList::Decimals(terms) => Ok(terms.into_terms()),
        }
    }

    /// One term.
    pub fn of_term(alloc: Global, variable: u32, factor: Frac) -> Result<Self, AllocError>
        requires { frac_value factor ≢ zero_ℚ }
        ensures { IfOk result (λ c. c ≡ (variable, factor) ∷ []) }
    {
        let terms = FractionTerms::of_term(alloc, variable, factor)?;
        Ok(Coefficients {
            list: TermList::Fractions(terms),
        })
    }

    // The same, and that they ascend.
    pub(crate) fn ordered(&self) -> &Self
        ensures same { result.now ≡ self.now }
        ensures ascending { AreAscending 0 self.now }
    {
        match &self.list {
            TermList::Fractions(terms) => {
                let _items = terms.items();
                self
            }
            TermList::Decimals(terms) => {
                let _items = terms.items();
                self
            }
        }
    }

    // The terms one by one.
    pub(crate) fn terms(&self) -> FormTerms<'_>
        ensures terms { terms_left result ≡ self.now }
        ensures ascending { AreAscending 0 self.now }
    {
        match &self.list {
            TermList::Fractions(terms) => FormTerms {
                source: TermSource::Fractions(terms.items()),
                next: 0,
            },
            TermList::Decimals(terms) => {
                let _items = terms.items();
                FormTerms {
                    source: TermSource::Decimals(terms),
                    next: 0,
                }
            }
        }
    }

    /// How many there are.
    pub fn len(&self) -> usize
        ensures count { result ≡ length self.now }
        ensures few { result < 2 ^ 63 }
    {
        match &self.list {
            TermList::Fractions(terms) => terms.items().len(),
            TermList::Decimals(terms) => terms.items().len(),
        }
    }

    /// The coefficient at a place, with its variable.
    pub fn at(&self, place: usize) -> (u32, Frac)
        requires { place < length self.now }
        ensures { result ≡ get_or self.now place result }
    {
        match &self.list {
            TermList::Fractions(terms) => terms.items()[place],
            TermList::Decimals(terms) => terms.at(place),
        }
    }

    /// The same, as the number that is kept.
    pub fn term(&self, place: usize) -> (u32, Number)
        requires { place < length self.now }
        ensures { IsTermAt self.now place result }
    {
        match &self.list {
            TermList::Fractions(terms) => {
                let items = terms.items();
                let term = items[place];
                (term.0, Number::Fraction(term.1))
            }
            TermList::Decimals(terms) => terms.number_at(place),
        }
    }

    // The decimals, where they are kept.
    pub(crate) fn decimals(&self) -> Option<&[(u32, Dec)]>
        ensures { IfSome result (λ ds. AreDecimalsOf ds.now self.now) }
    {
        match &self.list {
            TermList::Fractions(_) => None,
            TermList::Decimals(terms) => Some(terms.items()),
        }
    }

    /// Where its memory comes from.
    pub fn allocator(&self) -> Global {
        match &self.list {
            TermList::Fractions(terms) => terms.allocator(),
            TermList::Decimals(terms) => terms.allocator(),
        }
    }

    // A copy.
    pub(crate) fn copied(&self, alloc: Global) -> Result<Self, AllocError>
        ensures { IfOk result (λ c. c ≡ self.now) }
    {
        match &self.list {
            TermList::Fractions(terms) => {
                let copy = FractionTerms::of_slice(alloc, terms.items())?;
                Ok(Coefficients::of_fractions(copy))
            }
            TermList::Decimals(terms) => Coefficients::of_decimals(alloc, terms.items()),
        }
    }
}
