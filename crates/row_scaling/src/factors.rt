// The least factors of rows and objectives.
ghost use Rattle.std.specs.Prelude.{◌≡◌, ◌≤◌, ◌^◌, ◌++◌, ◌∷◌, List, MatchOption, pos, unsigned_abs, ◌<ℤ◌};
ghost use Rattle.exact_numbers.specs.Rational.{ℚ};
ghost use Rattle.exact_numbers.specs.Values.{frac_value};
ghost use Rattle.scaled_program.specs.Factor.{cofactor_of, least_factor};
ghost use Rattle.exact_numbers.specs.Fits.{least_multiple};
ghost use Rattle.linear_program.specs.Coefs.{AreAscending};
ghost use Rattle.linear_program.specs.Forms.{form_line, form_terms};
ghost use Rattle.row_scaling.specs.Fitting.{coefficients_in, frac_side, listed};

use crate::decimals::has_few_places;
use crate::fraction_sides::FractionSides;
use exact_numbers::{Frac, lcm};
use linear_program::Form;

// The least multiple of a factor that makes one number more a finite decimal; none where it is
// beyond the greatest size.
fn with_number(factor: i128, number: Frac) -> Option<i128>
    requires { pos 0 <ℤ factor }
    ensures { MatchOption result
        (2 ^ 127 ≤ least_multiple (unsigned_abs factor) (cofactor_of (frac_value number).bottom))
        (λ k. k
        ≡ pos (least_multiple (unsigned_abs factor) (cofactor_of (frac_value number).bottom))) }
{
    if has_few_places(number) {
        return Some(factor);
    }
    let cofactor = number.cofactor();
    if cofactor == 1 {
        return Some(factor);
    }
    lcm(factor, cofactor)
}

// The same with a side, where there is one.
fn with_side(factor: i128, side: Option<Frac>) -> Option<i128>
    requires { pos 0 <ℤ factor }
    ensures { (xs : List ℚ) → factor ≡ pos (least_factor xs)
        → MatchOption result (2 ^ 127 ≤ least_factor (xs ++ listed (frac_side side)))
        (λ k. k ≡ pos (least_factor (xs ++ listed (frac_side side)))) }
{
    match side {
        None => Some(factor),
        Some(number) => with_number(factor, number),
    }
}

// The same with the coefficients of a form, one by one.
#[tactic(auto, using(crate::proofs::NumberLemmas::running, crate::proofs::NumberLemmas::running_end, crate::proofs::NumberLemmas::back_to))]
fn with_fractions(start: i128, form: &Form) -> Option<i128>
    requires { pos 0 <ℤ start }
    ensures ascending { AreAscending 0 (form_terms form.now) }
    ensures factor { (xs : List ℚ) → start ≡ pos (least_factor xs)
        → MatchOption result (2 ^ 127 ≤ least_factor (xs ++ coefficients_in (form_terms form.now)))
        (λ k. k ≡ pos (least_factor (xs ++ coefficients_in (form_terms form.now)))) }
{
    let mut factor = start;
    for term in form.terms() {
        let Some(next) = with_number(factor, term.1) else {
            return None;
        };
        factor = next;
    }
    Some(factor)
}

// The same with the coefficients of a form; those that are kept as decimals add nothing.
#[tactic(auto, using(crate::proofs::NumberLemmas::factor_same))]
fn with_terms(start: i128, form: &Form) -> Option<i128>
    requires { pos 0 <ℤ start }
    ensures ascending { AreAscending 0 (form_terms form.now) }
    ensures factor { (xs : List ℚ) → start ≡ pos (least_factor xs)
        → MatchOption result (2 ^ 127 ≤ least_factor (xs ++ coefficients_in (form_terms form.now)))
        (λ k. k ≡ pos (least_factor (xs ++ coefficients_in (form_terms form.now)))) }
{
    let _terms = form.terms();
    match form.decimals() {
        Some(_) => Some(start),
        None => with_fractions(start, form),
    }
}

// The least factor of a row's coefficients and sides; none where it is beyond the greatest size.
#[tactic(auto, using(crate::proofs::NumberLemmas::no_factor, crate::proofs::NumberLemmas::fewer_wide, crate::proofs::NumberLemmas::factor_positive))]
pub(crate) fn factor_of_row(body: &Form, sides: &FractionSides) -> Option<i128>
    ensures ascending { AreAscending 0 (form_terms body.now) }
    ensures factor { MatchOption result
        (2 ^ 127 ≤ least_factor
        (coefficients_in (form_terms body.now) ++ listed (frac_side sides.now.lo)
        ++ listed (frac_side sides.now.hi)))
        (λ k. k ≡ pos
        (least_factor
        (coefficients_in (form_terms body.now) ++ listed (frac_side sides.now.lo)
        ++ listed (frac_side sides.now.hi)))) }
{
    let Some(coefficients) = with_terms(1, body) else {
        return None;
    };
    let Some(lower) = with_side(coefficients, sides.lo) else {
        return None;
    };
    with_side(lower, sides.hi)
}

// The least factor of an objective's constant and coefficients; none where it is beyond the
// greatest size.
pub(crate) fn factor_of_objective(objective: &Form) -> Option<i128>
    ensures { MatchOption result
        (2 ^ 127 ≤ least_factor
        ((form_line objective.now).constant ∷ coefficients_in (form_terms objective.now)))
        (λ k. k ≡ pos
        (least_factor
        ((form_line objective.now).constant ∷ coefficients_in (form_terms objective.now)))) }
{
    let Some(constant) = with_number(1, objective.constant()) else {
        return None;
    };
    with_terms(constant, objective)
}
