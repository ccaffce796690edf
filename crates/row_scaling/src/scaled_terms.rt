// The terms of a form times a factor, as decimals.
ghost use Rattle.std.specs.Prelude.{◌≡◌, MatchOption, All, IfOk, IfErr, IfSome};
ghost use Rattle.text_base.specs.Stopped.{IfFault};
ghost use Rattle.exact_numbers.specs.Rational.{◌*ℚ◌};
ghost use Rattle.exact_numbers.specs.Values.{dec_value, frac_value};
ghost use Rattle.linear_program.specs.Coefs.{AreAscending};
ghost use Rattle.linear_program.specs.Forms.{form_terms};
ghost use Rattle.row_scaling.specs.Fitting.{coefficients_in, NumberFits, AreTermsTimes};

use crate::decimals::{decimal_of, is_one, whole_product};
use exact_numbers::{Dec, Frac};
use linear_program::{Form, Terms, Wide};
use std::alloc::{AllocError, Global};
use text_base::Stop;

// A number times the factor, as a decimal; none exactly where it does not fit.
#[inline]
#[tactic(auto, using(crate::proofs::NumberLemmas::plain_number))]
pub(crate) fn scaled_number(number: Frac, factor: Frac) -> Option<Dec>
    ensures { MatchOption result (¬ NumberFits (frac_value factor) (frac_value number))
        (λ d. NumberFits (frac_value factor) (frac_value number)
        × (dec_value d ≡ frac_value factor *ℚ frac_value number)) }
{
    if is_one(factor) {
        return decimal_of(number);
    }
    if let Some(product) = whole_product(number, factor) {
        return Some(product);
    }
    let Some(product) = factor.mul(number) else {
        return None;
    };
    decimal_of(product)
}

// The terms of a form times the factor, one by one. Wide exactly where a number does not fit.
#[tactic(auto, using(crate::proofs::FitLemmas::all_added))]
fn terms_times(alloc: Global, form: &Form, factor: Frac) -> Result<Terms, Stop<Wide>>
    ensures scaled { IfOk result
        (λ terms. AreTermsTimes (frac_value factor) (form_terms form.now) terms) }
    ensures ascending { AreAscending 0 (form_terms form.now) }
    ensures wide { IfErr result
        (λ stop. IfFault stop
        (λ _. ¬ All (NumberFits (frac_value factor)) (coefficients_in (form_terms form.now)))) }
{
    let mut terms = Terms::new(alloc);
    terms.make_room(form.len())?;
    for term in form.terms() {
        let Some(value) = scaled_number(term.1, factor) else {
            return Err(Stop::Fault(Wide));
        };
        terms.push((term.0, value))?;
    }
    Ok(terms)
}

// The same terms.
fn copied_terms(alloc: Global, decimals: &[(u32, Dec)]) -> Result<Terms, AllocError>
    ensures { IfOk result (λ terms. terms ≡ decimals.now) }
{
    Terms::of_slice(alloc, decimals)
}

// The decimals of a form that is kept as decimals, where the factor is 1.
fn decimals_at_one(form: &Form, factor: Frac) -> Option<&[(u32, Dec)]>
    ensures { IfSome result
        (λ ds. AreTermsTimes (frac_value factor) (form_terms form.now) ds.now) }
{
    if !is_one(factor) {
        return None;
    }
    form.decimals()
}

// The terms of a form times the factor. Wide exactly where a number does not fit.
pub(crate) fn scaled_terms(alloc: Global, form: &Form, factor: Frac) -> Result<Terms, Stop<Wide>>
    ensures scaled { IfOk result
        (λ terms. AreTermsTimes (frac_value factor) (form_terms form.now) terms) }
    ensures ascending { AreAscending 0 (form_terms form.now) }
    ensures wide { IfErr result
        (λ stop. IfFault stop
        (λ _. ¬ All (NumberFits (frac_value factor)) (coefficients_in (form_terms form.now)))) }
{
    let _terms = form.terms();
    match decimals_at_one(form, factor) {
        Some(decimals) => Ok(copied_terms(alloc, decimals)?),
        None => terms_times(alloc, form, factor),
    }
}
