// A closed form and terms that are added to it, merged by variable.
ghost use Rattle.std.specs.Prelude.{◌≡◌, ◌≢◌, ◌+◌, ◌≤◌, ◌++◌, ℕ, length, drop, suc, IfOk, IfErr, OnErr, OnOk, false};
ghost use Rattle.text_base.specs.Stopped.{IfFault};
ghost use Rattle.exact_numbers.specs.Values.{frac_value};
ghost use Rattle.exact_numbers.specs.Fits.{sum_fits};
ghost use Rattle.exact_numbers.specs.Rational.{ℚ, zero_ℚ};
ghost use Rattle.linear_program.specs.Lines.{constant_line};
ghost use Rattle.linear_program.specs.Coefs.{AreAscending, AreBelow, IsAdded, coef_in};
ghost use Rattle.linear_program.specs.Forms.{AddsScaled, AreSummedUp, IsScaledSum, ScaledSumFits, adds_fit, form_line, form_terms, parts_line, terms_left};

use crate::coefficients::Coefficients;
use crate::form::Form;
use crate::form_terms::FormTerms;
use crate::too_wide::Wide;
use exact_numbers::Frac;
use std::alloc::AllocError;
use text_base::{Ledger, Steps, Stop};

// Puts the terms of a list from a place on whose variables are below another behind those that are
// done; the place of the first that is left.
fn put_below(
    done: &mut Vec<(u32, Frac)>,
    list: &Coefficients,
    first: usize,
    variable: u32,
) -> Result<usize, AllocError>
    requires first { first ≤ length list.now }
    requires ascending { AreAscending 0 (done.old.items ++ drop first list.now) }
    requires below { AreBelow variable done.old.items }
    ensures same { IfOk result
        (λ at. done.new.items ++ drop at list.now ≡ done.old.items ++ drop first list.now) }
    ensures within { IfOk result (λ at. at ≤ length list.now) }
    ensures below { OnOk result (AreBelow variable done.new.items) }
    ensures left { IfOk result (λ at. AreAscending variable (drop at list.now)) }
{
    for at in first..list.len() {
        let term = list.at(at);
        if term.0 >= variable {
            return Ok(at);
        }
        done.push(term)?;
    }
    Ok(list.len())
}

// Puts the terms of a list from a place on behind those that are done.
fn put_rest(
    done: &mut Vec<(u32, Frac)>,
    list: &Coefficients,
    first: usize,
) -> Result<(), AllocError>
    requires first { first ≤ length list.now }
    ensures { OnOk result (done.new.items ≡ done.old.items ++ drop first list.now) }
{
    for at in first..list.len() {
        let term = list.at(at);
        done.push(term)?;
    }
    Ok(())
}

// The coefficient of a variable that is at most that of the term at a place, and the place behind
// it.
fn coefficient_at(list: &Coefficients, at: usize, variable: u32) -> (Frac, usize)
    requires within { at ≤ length list.now }
    requires left { AreAscending variable (drop at list.now) }
    ensures value { frac_value result.0 ≡ coef_in (drop at list.now) variable }
    ensures within { result.1 ≤ length list.now }
    ensures left { AreAscending (suc variable) (drop result.1 list.now) }
    ensures others { (i : ℕ) → i ≢ variable
        → coef_in (drop result.1 list.now) i ≡ coef_in (drop at list.now) i }
{
    if at >= list.len() {
        return (Frac::zero(), at);
    }
    let term = list.at(at);
    if term.0 == variable {
        (term.1, at + 1)
    } else {
        (Frac::zero(), at)
    }
}

// Puts a term behind those that are done, where its coefficient is not 0.
fn put_term(done: &mut Vec<(u32, Frac)>, variable: u32, value: Frac) -> Result<(), AllocError>
    requires { AreBelow variable done.old.items }
    ensures below { OnOk result (AreBelow (suc variable) done.new.items) }
    ensures ascending { OnOk result
        (AreAscending 0 done.old.items → AreAscending 0 done.new.items) }
    ensures coef { OnOk result (coef_in done.new.items variable ≡ frac_value value) }
    ensures others { OnOk result
        ((i : ℕ) → i ≢ variable → coef_in done.new.items i ≡ coef_in done.old.items i) }
{
    if value.is_zero() {
        return Ok(());
    }
    done.push((variable, value))?;
    Ok(())
}

// Adds a factor to the coefficient of a variable that comes after the terms that are done; the
// place of the first term that is left.
fn add_merged(
    done: &mut Vec<(u32, Frac)>,
    list: &Coefficients,
    first: usize,
    variable: u32,
    factor: Frac,
) -> Result<usize, Stop<Wide>>
    requires first { first ≤ length list.now }
    requires ascending { AreAscending 0 (done.old.items ++ drop first list.now) }
    requires below { AreBelow variable done.old.items }
    ensures adds { IfOk result
        (λ at. IsAdded (done.old.items ++ drop first list.now) variable (frac_value factor)
        (done.new.items ++ drop at list.now)) }
    ensures wide { IfErr result
        (λ s. IfFault s (λ w. sum_fits
        (coef_in (done.old.items ++ drop first list.now) variable) (frac_value factor) ≡ false)) }
    ensures within { IfOk result (λ at. at ≤ length list.now) }
    ensures ascending { IfOk result (λ at. AreAscending 0 (done.new.items ++ drop at list.now)) }
    ensures below { OnOk result (AreBelow (suc variable) done.new.items) }
{
    let at = put_below(done, list, first, variable)?;
    let (old, next) = coefficient_at(list, at, variable);
    let Some(sum) = old.add(factor) else {
        return Err(Stop::Fault(Wide));
    };
    put_term(done, variable, sum)?;
    Ok(next)
}

// A list with k times each of terms; a step for each term.
fn merged<L: Ledger>(
    list: &Coefficients,
    terms: FormTerms<'_>,
    k: Frac,
    steps: &mut Steps<L>,
) -> Result<Vec<(u32, Frac)>, Stop<Wide>>
    requires list { AreAscending 0 list.now }
    requires terms { AreAscending 0 (terms_left terms) }
    ensures ascending { IfOk result (λ v. AreAscending 0 v.items) }
    ensures sums { IfOk result
        (λ v. AreSummedUp list.now (frac_value k) (terms_left terms.entry) v.items) }
    ensures wide { IfErr result
        (λ s. IfFault s (λ w. (c : ℚ)
        → adds_fit (parts_line c list.now) (frac_value k) (terms_left terms.entry) ≡ false)) }
    ensures counted { OnOk result (steps.new ≡ steps.old + length (terms_left terms.entry)) }
    ensures above { steps.old ≤ steps.new }
    ensures below { steps.new ≤ steps.old + length (terms_left terms.entry) }
{
    let mut done = Vec::new(list.allocator());
    let mut at = 0;
    for term in terms {
        steps.tick();
        let Some(scaled) = k.mul(term.1) else {
            return Err(Stop::Fault(Wide));
        };
        match add_merged(&mut done, list, at, term.0, scaled) {
            Ok(next) => at = next,
            Err(stop) => return Err(stop),
        }
    }
    put_rest(&mut done, list, at)?;
    Ok(done)
}

// A constant and a list with k times a form.
fn sum_of_parts<L: Ledger>(
    constant: Frac,
    list: &Coefficients,
    other: &Form,
    k: Frac,
    steps: &mut Steps<L>,
) -> Result<(Frac, Coefficients), Stop<Wide>>
    ensures sums { IfOk result
        (λ s. IsScaledSum (parts_line (frac_value constant) list.now) (frac_value k)
        (form_line other.now) (parts_line (frac_value s.0) s.1)) }
    ensures wide { IfErr result
        (λ s. IfFault s (λ w. ¬ ScaledSumFits (parts_line (frac_value constant) list.now)
        (frac_value k) (form_line other.now))) }
    ensures counted { OnOk result (steps.new ≡ steps.old + length (form_terms other.now) + 1) }
    ensures above { steps.old ≤ steps.new }
    ensures below { steps.new ≤ steps.old + length (form_terms other.now) + 1 }
    ensures ascending { AreAscending 0 (form_terms other.now) }
{
    let list = list.ordered();
    let terms = other.terms();
    steps.tick();
    let Some(scaled) = k.mul(other.constant()) else {
        return Err(Stop::Fault(Wide));
    };
    let Some(sum) = constant.add(scaled) else {
        return Err(Stop::Fault(Wide));
    };
    match merged(list, terms, k, steps) {
        Ok(items) => Ok((sum, Coefficients::of_items(items))),
        Err(stop) => Err(stop),
    }
}

/// Adds k times a form to a constant and a list, which are 0 after an error; a step for the
/// constant and for each term of the form.
pub(crate) fn add_to_closed<L: Ledger>(
    constant: &mut Frac,
    list: &mut Coefficients,
    other: &Form,
    k: Frac,
    steps: &mut Steps<L>,
) -> Result<(), Stop<Wide>>
    ensures sums { AddsScaled (parts_line (frac_value constant.old) list.old) (frac_value k)
        (form_line other.now) (parts_line (frac_value constant.new) list.new) result }
    ensures zero { OnErr result
        (parts_line (frac_value constant.new) list.new ≡ constant_line zero_ℚ) }
    ensures counted { OnOk result (steps.new ≡ steps.old + length (form_terms other.now) + 1) }
    ensures above { steps.old ≤ steps.new }
    ensures below { steps.new ≤ steps.old + length (form_terms other.now) + 1 }
    ensures ascending { AreAscending 0 (form_terms other.now) }
{
    match sum_of_parts(*constant, list, other, k, steps) {
        Ok((sum, coefficients)) => {
            *constant = sum;
            *list = coefficients;
            Ok(())
        }
        Err(stop) => {
            *constant = Frac::zero();
            *list = Coefficients::new(list.allocator());
            Err(stop)
        }
    }
}
