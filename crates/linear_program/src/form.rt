// Linear forms.
ghost use Rattle.std.specs.Prelude.{◌≡◌, ◌+◌, ◌<◌, ◌≤◌, ◌^◌, ℕ, [], length, IfOk, IfErr, IfSome, MatchResult, OnErr, OnOk, ◌≢◌, false, true};
ghost use Rattle.text_base.specs.Stopped.{IfFault};
ghost use Rattle.exact_numbers.specs.Values.{frac_value};
ghost use Rattle.exact_numbers.specs.Rational.{zero_ℚ};
ghost use Rattle.linear_program.specs.Lines.{constant_line, is_constant};
ghost use Rattle.linear_program.specs.Coefs.{AddsAt, AreAscending, AreDecimalsOf, AreProducts, HasWideProduct, coef_in};
ghost use Rattle.linear_program.specs.Decimals.{AreDecimals, fraction_terms};
ghost use Rattle.linear_program.specs.Forms.{AddsScaled, HasRoom, IsWithin, Multiplies, form_line, form_terms, is_open, pad_places, terms_left};

use crate::coefficients::Coefficients;
use crate::decimal_terms::fractions_of;
use crate::form_terms::FormTerms;
use crate::merged::add_to_closed;
use crate::pad::Pad;
use crate::sum::Sum;
use crate::terms::Terms;
use crate::too_wide::Wide;
use exact_numbers::{Dec, Frac};
use std::alloc::{AllocError, Global};
use std::mem::size_of;
use text_base::{Ledger, Steps, Stop};

// A form takes at most so many bytes: a linear program has a list of them.
const MOST_BYTES: usize = 80;

const _: () = prove!(size_of::<Form>() <= MOST_BYTES);

/// Where a form is kept: a closed one as a constant and a list, an open one as a sum on a pad.
#[derive(Drop)]
pub enum Kept {
    Closed(Coefficients, Frac),
    Open(Sum),
}

/// A constant, and coefficients that are not 0, ascending by variable.
#[derive(Drop)]
pub struct Form {
    kept: Kept,
}

// k times each of so many terms; a step for each.
fn products_of<L: Ledger>(
    alloc: Global,
    count: usize,
    terms: FormTerms<'_>,
    k: Frac,
    steps: &mut Steps<L>,
) -> Result<Vec<(u32, Frac)>, Stop<Wide>>
    ensures products { IfOk result
        (λ v. AreProducts (frac_value k) (terms_left terms.entry) v.items) }
    ensures wide { IfErr result
        (λ s. IfFault s (λ w. HasWideProduct (frac_value k) (terms_left terms.entry))) }
    ensures above { steps.old ≤ steps.new }
    ensures below { steps.new ≤ steps.old + length (terms_left terms.entry) }
{
    let mut products = Vec::with_capacity(alloc, count)?;
    for term in terms {
        steps.tick();
        let Some(product) = k.mul(term.1) else {
            return Err(Stop::Fault(Wide));
        };
        products.push((term.0, product))?;
    }
    Ok(products)
}

// The variable of a term.
fn variable_of(term: (u32, Frac)) -> usize
    ensures value { result ≡ term.0 }
    ensures small { result < 2 ^ 32 }
{
    term.0 as usize
}

// How many terms there are: at most one for each variable.
fn count_of(terms: FormTerms<'_>) -> usize
    requires { AreAscending 0 (terms_left terms) }
    ensures count { result ≡ length (terms_left terms.entry) }
    ensures few { result ≤ 2 ^ 32 }
{
    let mut count = 0;
    for term in terms {
        let _variable = variable_of(term);
        count += 1;
    }
    count
}

// A list of the terms.
fn list_of(alloc: Global, terms: FormTerms<'_>) -> Result<Vec<(u32, Frac)>, AllocError>
    ensures { IfOk result (λ v. v.items ≡ terms_left terms.entry) }
{
    let mut items = Vec::new(alloc);
    for term in terms {
        items.push(term)?;
    }
    Ok(items)
}

impl Form {
    /// The form 0, closed.
    pub fn new(alloc: Global) -> Form
        ensures line { form_line result ≡ constant_line zero_ℚ }
        ensures terms { form_terms result ≡ [] }
        ensures closed { is_open result ≡ false }
    {
        Form::of_constant(alloc, Frac::zero())
    }

    /// A constant, closed.
    pub fn of_constant(alloc: Global, constant: Frac) -> Form
        ensures line { form_line result ≡ constant_line (frac_value constant) }
        ensures terms { form_terms result ≡ [] }
        ensures closed { is_open result ≡ false }
    {
        Form::of_parts(constant, Coefficients::new(alloc))
    }

    /// The closed form of a constant and of decimals, which are not copied.
    pub fn of_terms(constant: Frac, terms: Terms) -> Form
        requires { AreDecimals 0 terms }
        ensures line { form_line result
            ≡ record { constant = frac_value constant; coef = coef_in (fraction_terms terms) } }
        ensures terms { form_terms result ≡ fraction_terms terms }
        ensures closed { is_open result ≡ false }
    {
        Form::of_parts(constant, Coefficients::of_terms(terms))
    }

    /// The closed form of a constant and of decimals, which are kept as fractions.
    pub fn in_fractions(
        alloc: Global,
        constant: Frac,
        terms: &[(u32, Dec)],
    ) -> Result<Form, AllocError>
        requires { AreDecimals 0 terms.now }
        ensures line { IfOk result (λ f. form_line f ≡ record {
          constant = frac_value constant;
          coef = coef_in (fraction_terms terms.now);
        }) }
        ensures terms { IfOk result (λ f. form_terms f ≡ fraction_terms terms.now) }
        ensures closed { IfOk result (λ f. is_open f ≡ false) }
    {
        let items = fractions_of(alloc, terms)?;
        Ok(Form::of_parts(constant, Coefficients::of_items(items)))
    }

    // The closed form of a constant and of coefficients.
    pub(crate) fn of_parts(constant: Frac, coefficients: Coefficients) -> Form
        ensures line { form_line result
            ≡ record { constant = frac_value constant; coef = coef_in coefficients } }
        ensures terms { form_terms result ≡ coefficients }
        ensures closed { is_open result ≡ false }
    {
        Form {
            kept: Kept::Closed(coefficients, constant),
        }
    }

    /// The form 0, open on a pad.
    pub fn on_pad(pad: Pad) -> Form
        ensures line { form_line result ≡ constant_line zero_ℚ }
        ensures terms { form_terms result ≡ [] }
        ensures open { is_open result ≡ true }
        ensures places { pad_places result ≡ pad }
    {
        Form {
            kept: Kept::Open(Sum::on_pad(pad)),
        }
    }

    /// The closed form of the same constant with these coefficients.
    pub fn with_coefficients(&self, coefficients: Coefficients) -> Form
        ensures line { form_line result
            ≡ record { constant = (form_line self.now).constant; coef = coef_in coefficients } }
        ensures terms { form_terms result ≡ coefficients }
        ensures closed { is_open result ≡ false }
    {
        Form::of_parts(self.constant(), coefficients)
    }

    /// Whether it lies on a pad.
    pub fn is_open(&self) -> bool
        ensures { result ≡ is_open self.now }
    {
        match &self.kept {
            Kept::Closed(_, _) => false,
            Kept::Open(_) => true,
        }
    }

    /// The constant.
    pub fn constant(&self) -> Frac
        ensures { frac_value result ≡ (form_line self.now).constant }
    {
        match &self.kept {
            Kept::Closed(_, constant) => *constant,
            Kept::Open(sum) => sum.constant(),
        }
    }

    /// The terms, ascending by variable.
    pub fn terms(&self) -> FormTerms<'_>
        ensures terms { terms_left result ≡ form_terms self.now }
        ensures ascending { AreAscending 0 (form_terms self.now) }
    {
        match &self.kept {
            Kept::Closed(coefficients, _) => coefficients.terms(),
            Kept::Open(sum) => sum.terms(),
        }
    }

    /// The terms as decimals, ascending by variable, where they are kept so.
    pub fn decimals(&self) -> Option<&[(u32, Dec)]>
        ensures { IfSome result (λ ds. AreDecimalsOf ds.now (form_terms self.now)) }
    {
        match &self.kept {
            Kept::Closed(coefficients, _) => coefficients.decimals(),
            Kept::Open(_) => None,
        }
    }

    /// The terms as decimals, which are not copied, where they are kept so; else the form itself.
    pub fn into_terms(self) -> Result<Terms, Form>
        ensures { MatchResult result (λ ts. AreDecimalsOf ts (form_terms self)) (λ f. f ≡ self) }
    {
        match self.kept {
            Kept::Closed(coefficients, constant) => match coefficients.into_terms() {
                Ok(terms) => Ok(terms),
                Err(coefficients) => Err(Form {
                    kept: Kept::Closed(coefficients, constant),
                }),
            },
            Kept::Open(sum) => Err(Form {
                kept: Kept::Open(sum),
            }),
        }
    }

    /// The coefficients, which are not copied where the form is closed.
    pub fn into_coefficients(self, alloc: Global) -> Result<Coefficients, AllocError>
        ensures terms { IfOk result (λ c. c ≡ form_terms self) }
        ensures ascending { IfOk result (λ c. AreAscending 0 c) }
    {
        match self.kept {
            Kept::Closed(coefficients, _) => {
                let _ascending = coefficients.ordered();
                Ok(coefficients)
            }
            Kept::Open(sum) => {
                let items = list_of(alloc, sum.terms())?;
                Ok(Coefficients::of_items(items))
            }
        }
    }

    /// How many terms there are.
    pub fn len(&self) -> usize
        ensures count { result ≡ length (form_terms self.now) }
        ensures few { result < 2 ^ 63 }
        ensures ascending { AreAscending 0 (form_terms self.now) }
    {
        match &self.kept {
            Kept::Closed(coefficients, _) => coefficients.ordered().len(),
            Kept::Open(sum) => count_of(sum.terms()),
        }
    }

    /// About how many terms there are, told at once: no promise is made.
    pub fn room(&self) -> usize {
        match &self.kept {
            Kept::Closed(coefficients, _) => coefficients.len(),
            Kept::Open(sum) => sum.room(),
        }
    }

    /// A closed copy.
    pub fn copied(&self, alloc: Global) -> Result<Form, AllocError>
        ensures line { IfOk result (λ f. form_line f ≡ form_line self.now) }
        ensures closed { IfOk result (λ f. is_open f ≡ false) }
    {
        let coefficients = match &self.kept {
            Kept::Closed(coefficients, _) => coefficients.copied(alloc)?,
            Kept::Open(sum) => {
                let items = list_of(alloc, sum.terms())?;
                Coefficients::of_items(items)
            }
        };
        Ok(self.with_coefficients(coefficients))
    }

    /// k times the form, closed, where k is not 0; a step for the constant and for each term.
    pub fn times<L: Ledger>(
        &self,
        alloc: Global,
        k: Frac,
        steps: &mut Steps<L>,
    ) -> Result<Form, Stop<Wide>>
        requires { frac_value k ≢ zero_ℚ }
        ensures product { Multiplies (form_line self.now) (frac_value k) result }
        ensures closed { IfOk result (λ f. is_open f ≡ false) }
        ensures above { steps.old ≤ steps.new }
        ensures below { steps.new ≤ steps.old + length (form_terms self.now) + 1 }
        ensures ascending { AreAscending 0 (form_terms self.now) }
    {
        let terms = self.terms();
        steps.tick();
        let Some(constant) = k.mul(self.constant()) else {
            return Err(Stop::Fault(Wide));
        };
        let items = match products_of(alloc, self.len(), terms, k, steps) {
            Ok(items) => items,
            Err(stop) => return Err(stop),
        };
        Ok(Form::of_parts(constant, Coefficients::of_items(items)))
    }

    /// Whether there are no coefficients.
    pub fn is_constant(&self) -> bool
        ensures constant { (n : ℕ) → IsWithin n self.now
            → result ≡ is_constant n (form_line self.now) }
        ensures none { result ≡ true → form_terms self.now ≡ [] }
    {
        let mut terms = self.terms();
        match terms.next() {
            Some(_term) => false,
            None => true,
        }
    }

    /// Adds k times another form, each variable of which an open form has a place for. Wide exactly
    /// where a product or a sum of one coefficient or of the constants does not fit. A step is
    /// counted for the constant and for each term of the other form. After Wide and want of memory
    /// the form is 0. It stays open, or closed.
    pub fn add_scaled<L: Ledger>(
        &mut self,
        other: &Form,
        k: Frac,
        steps: &mut Steps<L>,
    ) -> Result<(), Stop<Wide>>
        requires { HasRoom self.old other.now }
        ensures sums { AddsScaled (form_line self.old) (frac_value k) (form_line other.now)
            (form_line self.new) result }
        ensures zero { OnErr result (form_line self.new ≡ constant_line zero_ℚ) }
        ensures open { is_open self.new ≡ is_open self.old }
        ensures places { pad_places self.new ≡ pad_places self.old }
        ensures counted { OnOk result (steps.new ≡ steps.old + length (form_terms other.now) + 1) }
        ensures above { steps.old ≤ steps.new }
        ensures below { steps.new ≤ steps.old + length (form_terms other.now) + 1 }
        ensures ascending { AreAscending 0 (form_terms other.now) }
    {
        match &mut self.kept {
            Kept::Open(sum) => sum.add_scaled(other, k, steps),
            Kept::Closed(coefficients, constant) => {
                add_to_closed(constant, coefficients, other, k, steps)
            }
        }
    }

    /// Adds a factor to the coefficient of a variable, which has a place. The form is open, and stays
    /// so.
    pub fn add_term(&mut self, variable: u32, factor: Frac) -> Result<(), Stop<Wide>>
        requires open { is_open self.old ≡ true }
        requires below { variable < pad_places self.old }
        ensures adds { AddsAt (form_line self.old).coef variable (frac_value factor)
            (form_line self.new).coef result }
        ensures constant { (form_line self.new).constant ≡ (form_line self.old).constant }
        ensures open { is_open self.new ≡ true }
        ensures places { pad_places self.new ≡ pad_places self.old }
    {
        match &mut self.kept {
            Kept::Open(sum) => sum.add_term(variable, factor),
            Kept::Closed(_, _) => unreachable!(),
        }
    }

    /// The closed form of the same value, and the empty pad. The form is open.
    pub fn close(self) -> Result<(Form, Pad), AllocError>
        requires { is_open self ≡ true }
        ensures line { IfOk result (λ r. form_line r.0 ≡ form_line self) }
        ensures terms { IfOk result (λ r. form_terms r.0 ≡ form_terms self) }
        ensures closed { IfOk result (λ r. is_open r.0 ≡ false) }
        ensures places { IfOk result (λ r. r.1 ≡ pad_places self) }
    {
        match self.kept {
            Kept::Open(sum) => sum.close(),
            Kept::Closed(_, _) => unreachable!(),
        }
    }
}
