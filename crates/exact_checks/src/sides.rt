// Sides: those of a variable in two lists, the one that a number needs, and as a fraction.
ghost use Rattle.std.specs.Prelude.{◌≡◌, ◌<◌, ℤ, pos, int_lt, length, option_and_then};
ghost use Rattle.certificates.specs.Checked.{fitting};
ghost use Rattle.certificates.specs.Verdict.{needed_side};
ghost use Rattle.linear_program.specs.Intervals.{interval_of};
ghost use Rattle.exact_checks.specs.Lists.{bounds_in};
ghost use Rattle.exact_checks.specs.Terms.{side_value, value_found};

use crate::number::fraction;
use exact_numbers::{Dec, Frac};
use linear_program::Interval;

/// The bounds of the variable of this number.
#[tactic(auto, using(crate::proofs::Rows::bounds_read))]
pub fn interval_at(lo: &[Option<Dec>], hi: &[Option<Dec>], j: usize) -> Interval
    requires lower { j < length lo.now }
    requires upper { j < length hi.now }
    ensures { interval_of result ≡ bounds_in lo.now hi.now j }
{
    Interval {
        lo: lo[j],
        hi: hi[j],
    }
}

/// The side that a number of this sign needs.
pub fn needed_side(maximise: bool, negative: bool, sides: Interval) -> Option<Dec>
    ensures { (t : ℤ) → negative ≡ int_lt t (pos 0)
        → side_value result ≡ needed_side maximise t (interval_of sides) }
{
    if maximise == negative {
        sides.lo
    } else {
        sides.hi
    }
}

/// The side as a fraction, where there is one and it fits.
pub fn side_fraction(side: Option<Dec>) -> Option<Frac>
    ensures { value_found result ≡ option_and_then fitting (side_value side) }
{
    match side {
        Some(number) => fraction(number),
        None => None,
    }
}
