// Sums and products that fit, in exact values.
ghost use Rattle.std.specs.Prelude.{◌≡◌, pos, int_lt, option_and_then};
ghost use Rattle.certificates.specs.Checked.{fitting, fitting_sum, fitting_difference, fitting_product, plus_product, less_product, is_at_most, is_same};
ghost use Rattle.exact_numbers.specs.Functions.{is_zero};
ghost use Rattle.exact_numbers.specs.Values.{dec_value, frac_value};
ghost use Rattle.exact_checks.specs.Terms.{value_found};
ghost use Rattle.linear_program.specs.Numbers.{number_value};

use exact_numbers::{Dec, Frac};
use linear_program::Number;

/// The number as a fraction, where it fits.
#[tactic(auto, using(crate::proofs::Numbers::found))]
pub fn fraction(number: Dec) -> Option<Frac>
    ensures { value_found result ≡ fitting (dec_value number) }
{
    Frac::of_dec(number)
}

#[tactic(auto, using(crate::proofs::Numbers::found))]
fn product(a: Frac, b: Frac) -> Option<Frac>
    ensures { value_found result ≡ fitting_product (frac_value a) (frac_value b) }
{
    a.mul(b)
}

#[tactic(auto, using(crate::proofs::Numbers::found))]
fn sum(a: Frac, b: Frac) -> Option<Frac>
    ensures { value_found result ≡ fitting_sum (frac_value a) (frac_value b) }
{
    a.add(b)
}

#[tactic(auto, using(crate::proofs::Numbers::found))]
pub(crate) fn difference(a: Frac, b: Frac) -> Option<Frac>
    ensures { value_found result ≡ fitting_difference (frac_value a) (frac_value b) }
{
    a.sub(b)
}

/// start + a * b; none where the product or the sum does not fit.
#[tactic(auto, unfolding(certificates::specs::Checked::plus_product))]
pub fn plus_product(start: Frac, a: Frac, b: Frac) -> Option<Frac>
    ensures { value_found result ≡ plus_product (frac_value start) (frac_value a) (frac_value b) }
{
    match product(a, b) {
        Some(part) => sum(start, part),
        None => None,
    }
}

/// start - a * b; none where the product or the difference does not fit.
#[tactic(auto, unfolding(certificates::specs::Checked::less_product))]
pub fn less_product(start: Frac, a: Frac, b: Frac) -> Option<Frac>
    ensures { value_found result ≡ less_product (frac_value start) (frac_value a) (frac_value b) }
{
    match product(a, b) {
        Some(part) => difference(start, part),
        None => None,
    }
}

/// Whether a is at most b.
#[tactic(auto, using(crate::proofs::Numbers::order_test))]
pub fn frac_is_at_most(a: Frac, b: Frac) -> bool
    ensures { result ≡ is_at_most (frac_value a) (frac_value b) }
{
    a.order(b).is_le()
}

/// Whether a is below 0.
pub fn is_negative(a: Frac) -> bool
    ensures { result ≡ int_lt (frac_value a).top (pos 0) }
{
    a.is_negative()
}

// The same of a number as it is written.
#[tactic(auto, using(crate::proofs::Numbers::found))]
pub(crate) fn written_fraction(number: &Number) -> Option<Frac>
    ensures { value_found result ≡ fitting (number_value number.now) }
{
    number.fraction()
}

pub(crate) fn is_zero_number(a: &Number) -> bool
    ensures { result ≡ is_zero (number_value a.now) }
{
    a.is_zero()
}

pub(crate) fn is_negative_number(a: &Number) -> bool
    ensures { result ≡ int_lt (number_value a.now).top (pos 0) }
{
    a.is_negative()
}
