// The kinds of columns, and columns without a value.
ghost use Rattle.std.specs.Prelude.{◌≡◌, ◌≤◌, ◌^◌, length, get_or};
ghost use Rattle.std.specs.Ordering.{is_ge, is_gt, is_le};
ghost use Rattle.exact_numbers.specs.Rational.{one_ℚ, zero_ℚ};
ghost use Rattle.exact_numbers.specs.Values.{dec_value, order_of};
ghost use Rattle.linear_program.specs.Intervals.{interval_of, no_sides};
ghost use Rattle.mps_program.specs.Kinds.{are_zero_to_one, kind_by};
ghost use Rattle.mps_program.specs.Faults.{both_sides};
ghost use Rattle.mps_program.specs.Places.{first, places};

use exact_numbers::Dec;
use linear_program::{Interval, Kind};
use std::cmp::Ordering;

fn is_at_least_zero(number: Dec) -> bool
    ensures { result ≡ is_ge (order_of (dec_value number) zero_ℚ) }
{
    number.order(Dec::zero()) != Ordering::Less
}

fn is_at_most_one(number: Dec) -> bool
    ensures { result ≡ is_le (order_of (dec_value number) one_ℚ) }
{
    number.order(Dec::of_whole(1)) != Ordering::Greater
}

// Whether both sides are there, the lower at least 0 and the upper at most 1.
fn is_zero_to_one(sides: Interval) -> bool
    ensures { result ≡ are_zero_to_one (interval_of sides).lower (interval_of sides).upper }
{
    match (sides.lo, sides.hi) {
        (Some(lower), Some(upper)) => is_at_least_zero(lower) && is_at_most_one(upper),
        _ => false,
    }
}

// The kind of a column.
pub(crate) fn kind_of(whole: bool, sides: Interval) -> Kind
    ensures { result
        ≡ kind_by whole (are_zero_to_one (interval_of sides).lower (interval_of sides).upper) }
{
    if !whole {
        return Kind::Continuous;
    }
    if is_zero_to_one(sides) {
        Kind::Binary
    } else {
        Kind::Integer
    }
}

// Whether the lower side is above the upper one.
fn is_empty(sides: Interval) -> bool
    ensures { result ≡ both_sides is_gt (interval_of sides).lower (interval_of sides).upper }
{
    match (sides.lo, sides.hi) {
        (Some(lower), Some(upper)) => lower.order(upper) == Ordering::Greater,
        _ => false,
    }
}

/// The place of the first column without a value.
#[tactic(auto, unfolding(crate::specs::Places::places))]
pub fn first_empty(sides: &[Interval]) -> Option<u32>
    requires { length sides.now ≤ 2 ^ 21 }
    ensures { result
        ≡ first (places (λ j. both_sides is_gt (interval_of (get_or sides.now j no_sides)).lower
        (interval_of (get_or sides.now j no_sides)).upper) (length sides.now)) }
{
    'columns: for j in 0..sides.len() {
        if is_empty(sides[j]) {
            return Some(j as u32);
        }
    }
    None
}
