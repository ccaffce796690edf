// The value of a form at a point.
ghost use Rattle.std.specs.Prelude.{◌≡◌, IfSome, Some, length, map};
ghost use Rattle.linear_program.specs.Linear.{value_at};
ghost use Rattle.certificates.specs.Verdict.{run_form};
ghost use Rattle.exact_numbers.specs.Values.{frac_value};
ghost use Rattle.linear_program.specs.Coefs.{coef_in};
ghost use Rattle.exact_checks.specs.Sums.{short_value};
ghost use Rattle.exact_checks.specs.Terms.{AreTerms, value_found};

use crate::number::plus_product;
use crate::short_fraction::ShortFraction;
use exact_numbers::Frac;
use linear_program::Coefficients;

// The value in words of 64 bits, where all numbers on the way have such words.
fn short_value_of(constant: Frac, terms: &Coefficients, x: &[Frac]) -> Option<ShortFraction>
    requires { AreTerms 0 (length x.now) terms.now }
    ensures { IfSome result (λ l. Some (short_value l)
        ≡ run_form (length x.now) (record {
          constant = frac_value constant;
          coefficient = coef_in terms.now;
        }) (value_at (map frac_value x.now))) }
{
    let mut sum = ShortFraction::of(constant)?;
    for place in 0..terms.len() {
        let entry = terms.term(place);
        let number = x[entry.0 as usize];
        if number.is_zero() {
            continue;
        }
        let value = ShortFraction::of(number)?;
        let factor = ShortFraction::of_number(&entry.1)?;
        sum = sum.plus_product(factor, value)?;
    }
    Some(sum)
}

// The value in fractions in lowest terms.
fn exact_value_of(constant: Frac, terms: &Coefficients, x: &[Frac]) -> Option<Frac>
    requires { AreTerms 0 (length x.now) terms.now }
    ensures { value_found result
        ≡ run_form (length x.now) (record {
          constant = frac_value constant;
          coefficient = coef_in terms.now;
        }) (value_at (map frac_value x.now)) }
{
    let mut sum = constant;
    for place in 0..terms.len() {
        let term = terms.at(place);
        let number = x[term.0 as usize];
        if number.is_zero() {
            continue;
        }
        match plus_product(sum, term.1, number) {
            Some(next) => sum = next,
            None => return None,
        }
    }
    Some(sum)
}

/// A constant with each term at the point; none where a number does not fit.
pub fn value_of(constant: Frac, terms: &Coefficients, x: &[Frac]) -> Option<Frac>
    requires { AreTerms 0 (length x.now) terms.now }
    ensures { value_found result
        ≡ run_form (length x.now) (record {
          constant = frac_value constant;
          coefficient = coef_in terms.now;
        }) (value_at (map frac_value x.now)) }
{
    match short_value_of(constant, terms, x) {
        Some(sum) => sum.reduced(),
        None => exact_value_of(constant, terms, x),
    }
}
