// Values against sides.
ghost use Rattle.std.specs.Prelude.{◌≡◌, Some, None, if◌then◌else◌};
ghost use Rattle.certificates.specs.Verdict.{is_inside, sides_fit, fits_if_some, is_not_below, is_not_above};
ghost use Rattle.exact_numbers.specs.Values.{frac_value};
ghost use Rattle.linear_program.specs.Intervals.{interval_of};
ghost use Rattle.exact_checks.specs.Terms.{side_value};

use crate::number::{frac_is_at_most, fraction};
use exact_numbers::{Dec, Frac};
use linear_program::Interval;

// Whether the value is not below the side; none where the side does not fit.
fn is_not_below(side: Option<Dec>, value: Frac) -> Option<bool>
    ensures { result
        ≡ (if fits_if_some (side_value side)
        then Some (is_not_below (side_value side) (frac_value value)) else None) }
{
    match side {
        None => Some(true),
        Some(number) => match fraction(number) {
            Some(least) => Some(frac_is_at_most(least, value)),
            None => None,
        },
    }
}

fn is_not_above(side: Option<Dec>, value: Frac) -> Option<bool>
    ensures { result
        ≡ (if fits_if_some (side_value side)
        then Some (is_not_above (side_value side) (frac_value value)) else None) }
{
    match side {
        None => Some(true),
        Some(number) => match fraction(number) {
            Some(most) => Some(frac_is_at_most(value, most)),
            None => None,
        },
    }
}

/// Whether the value is in the interval; none where a side does not fit.
pub fn is_within(value: Frac, sides: Interval) -> Option<bool>
    ensures { result
        ≡ (if sides_fit (interval_of sides)
        then Some (is_inside (frac_value value) (interval_of sides)) else None) }
{
    match (is_not_below(sides.lo, value), is_not_above(sides.hi, value)) {
        (Some(low), Some(high)) => Some(low && high),
        _ => None,
    }
}
