// Sides of a row that is exported as it stands.
ghost use Rattle.std.specs.Prelude.{◌≡◌, IfSome, Some, true};
ghost use Rattle.exact_numbers.specs.Rational.{zero_ℚ};
ghost use Rattle.exact_numbers.specs.Values.{dec_value, frac_value};
ghost use Rattle.scaled_program.specs.Fits.{IfSide};
ghost use Rattle.row_scaling.specs.Fitting.{ArePlain, HasFraction, IsRangeOf};
ghost use Rattle.row_scaling.specs.Rows.{side_value};

use crate::fraction_sides::{DecimalSides, difference};
use exact_numbers::{Dec, Frac};
use linear_program::Interval;

// Whether a side that is there has a fraction.
#[inline]
fn is_plain(side: Option<Dec>) -> bool
    ensures { result ≡ true → IfSide HasFraction (side_value side) }
{
    match side {
        Some(number) => number.has_fraction(),
        None => true,
    }
}

// Whether two decimals are the same.
#[inline]
#[tactic(auto, using(crate::proofs::PlainRows::same_decimal))]
fn is_same(a: Dec, b: Dec) -> bool
    ensures { result ≡ true → dec_value a ≡ dec_value b }
{
    a.m() == b.m() && a.e() == b.e()
}

// The difference of two decimals, where it fits; none where they are the same.
#[inline]
#[tactic(auto, using(crate::proofs::SharedLemmas::same_sides))]
fn plain_difference(lower: Dec, upper: Dec) -> Option<Option<Dec>>
    ensures { IfSome result (IsRangeOf (Some (dec_value lower)) (Some (dec_value upper))) }
{
    if is_same(lower, upper) {
        return Some(None);
    }
    let Some(first) = Frac::of_dec(lower) else {
        return None;
    };
    let Some(second) = Frac::of_dec(upper) else {
        return None;
    };
    match difference(first, second) {
        Ok(range) => Some(range),
        Err(_) => None,
    }
}

// The difference of two sides, where both are there and differ, and where it fits.
#[inline]
fn plain_range(side: Interval) -> Option<Option<Dec>>
    ensures { IfSome result (IsRangeOf (side_value side.lo) (side_value side.hi)) }
{
    let Some(lower) = side.lo else {
        return Some(None);
    };
    let Some(upper) = side.hi else {
        return Some(None);
    };
    plain_difference(lower, upper)
}

/// The sides of a row without a constant times 1, where each has a fraction and their difference
/// fits; none of some other rows.
#[inline]
pub(crate) fn plain_sides(constant: Frac, side: Interval) -> Option<DecimalSides>
    ensures { IfSome result (λ s. (frac_value constant ≡ zero_ℚ) × (s.side ≡ side)
        × ArePlain (side_value side.lo) (side_value side.hi) s.range) }
{
    if !constant.is_zero() || !is_plain(side.lo) || !is_plain(side.hi) {
        return None;
    }
    let kept = side;
    let Some(range) = plain_range(side) else {
        return None;
    };
    Some(DecimalSides { side: kept, range })
}
