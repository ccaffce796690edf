// The sides that a row has by its kind, its right side and its range.
ghost use Rattle.std.specs.Prelude.{◌≡◌, false, true, None, Some, MatchOption};
ghost use Rattle.std.specs.Option.{option_map};
ghost use Rattle.exact_numbers.specs.Rational.{◌+ℚ◌};
ghost use Rattle.exact_numbers.specs.Values.{dec_value, frac_value};
ghost use Rattle.linear_program.specs.Intervals.{interval_of};
ghost use Rattle.mps_model.specs.Mps.{row_sides, size_of};
ghost use Rattle.mps_program.specs.Faults.{is_in_reach, is_range_wide, range_step};

use exact_numbers::{Dec, Frac};
use linear_program::Interval;
use mps_model::RowKind;

// The size of a number, without its sign.
fn size_of(number: Frac) -> Frac
    ensures { frac_value result ≡ size_of (frac_value number) }
{
    if number.num() < 0 {
        number.neg()
    } else {
        number
    }
}

// What a range adds to the right side of a row.
fn range_step(kind: RowKind, range: Frac) -> Frac
    ensures { frac_value result ≡ range_step kind (frac_value range) }
{
    match kind {
        RowKind::N => Frac::zero(),
        RowKind::L => size_of(range).neg(),
        RowKind::G => size_of(range),
        RowKind::E => range,
    }
}

// The other side of a row with a range. None exactly where it is out of reach.
fn other_side(kind: RowKind, rhs: Dec, range: Dec) -> Option<Dec>
    ensures { MatchOption result (is_in_reach kind (dec_value rhs) (dec_value range) ≡ false)
        (λ d. (is_in_reach kind (dec_value rhs) (dec_value range) ≡ true)
        × (dec_value d ≡ dec_value rhs +ℚ range_step kind (dec_value range))) }
{
    let Some(side) = Frac::of_dec(rhs) else {
        return None;
    };
    let Some(width) = Frac::of_dec(range) else {
        return None;
    };
    let step = range_step(kind, width);
    let Some(sum) = side.add(step) else {
        return None;
    };
    sum.to_dec()
}

// The sides of a row with a range: the right side and the other one.
fn both_sides(kind: RowKind, rhs: Dec, other: Dec, range: Dec) -> Interval
    requires { dec_value other ≡ dec_value rhs +ℚ range_step kind (dec_value range) }
    ensures { interval_of result ≡ row_sides kind (dec_value rhs) (Some (dec_value range)) }
{
    match kind {
        RowKind::N => Interval { lo: None, hi: None },
        RowKind::L => Interval {
            lo: Some(other),
            hi: Some(rhs),
        },
        RowKind::G => Interval {
            lo: Some(rhs),
            hi: Some(other),
        },
        RowKind::E => {
            if range.is_negative() {
                Interval {
                    lo: Some(other),
                    hi: Some(rhs),
                }
            } else {
                Interval {
                    lo: Some(rhs),
                    hi: Some(other),
                }
            }
        }
    }
}

// The sides of a row without a range.
fn plain_sides(kind: RowKind, rhs: Dec) -> Interval
    ensures { interval_of result ≡ row_sides kind (dec_value rhs) None }
{
    match kind {
        RowKind::N => Interval { lo: None, hi: None },
        RowKind::L => Interval {
            lo: None,
            hi: Some(rhs),
        },
        RowKind::G => Interval {
            lo: Some(rhs),
            hi: None,
        },
        RowKind::E => Interval {
            lo: Some(rhs),
            hi: Some(rhs),
        },
    }
}

// The sides of a row. None exactly where its range is out of reach.
pub(crate) fn row_sides(kind: RowKind, rhs: Dec, range: Option<Dec>) -> Option<Interval>
    ensures { MatchOption result
        (is_range_wide kind (dec_value rhs) (option_map dec_value range) ≡ true)
        (λ s. (is_range_wide kind (dec_value rhs) (option_map dec_value range) ≡ false)
        × (interval_of s ≡ row_sides kind (dec_value rhs) (option_map dec_value range))) }
{
    let Some(width) = range else {
        return Some(plain_sides(kind, rhs));
    };
    let Some(other) = other_side(kind, rhs, width) else {
        return None;
    };
    Some(both_sides(kind, rhs, other, width))
}
