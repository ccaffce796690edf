// Whether a point is feasible, and its value.
ghost use Rattle.std.specs.Prelude.{◌≡◌, length, not, ◌&&◌, if◌then◌else◌, false, None, Some};
ghost use Rattle.exact_numbers.specs.Fits.{fits};
ghost use Rattle.linear_program.specs.Linear.{row_count, variable_at, variable_count};
ghost use Rattle.certificates.specs.Certificate.{can_compare, fitting_bound_fault, is_large, is_whole_number, judged, whole_fault, wholeness};
ghost use Rattle.certificates.specs.Verdict.{at_bound, bound_broken, first_fault, is_inside, is_not_above, is_not_below, row_check, row_fault, run_form, too_wide};
ghost use Rattle.exact_numbers.specs.Values.{dec_value, frac_value};
ghost use Rattle.linear_program.specs.Intervals.{interval_of};
ghost use Rattle.exact_checks.specs.Programs.{program_value};
ghost use Rattle.exact_checks.specs.Terms.{side_value, value_found};
ghost use Rattle.certificate_judge.specs.Outcomes.{judged_of, point_found};
ghost use Rattle.certificate_judge.specs.InsidePoints.{fractions_of, point_of};

use crate::outcome::{Cause, PointFault};
use exact_checks::{Program, Row, frac_is_at_most, is_within, value_of};
use exact_numbers::{Dec, Frac};
use linear_program::Interval;

// The fault of the row of this number whose body has this value, if it fits.
fn row_fault_at(number: u32, sides: Interval, body: Option<Frac>) -> Option<PointFault>
    ensures { point_found result ≡ row_check number (interval_of sides) (value_found body) }
{
    match body {
        None => Some(PointFault::RowWide(number)),
        Some(value) => match is_within(value, sides) {
            None => Some(PointFault::RowWide(number)),
            Some(true) => None,
            Some(false) => Some(PointFault::RowBroken(number)),
        },
    }
}

// Whether a number that does not fit is 2 ^ 127 or more in size: such a decimal is whole, and one
// with digits after the point is not so large.
fn is_large(number: Dec) -> bool
    requires { fits (dec_value number) ≡ false }
    ensures { result ≡ is_large (dec_value number) }
{
    number.is_whole()
}

// Whether the value is not below the side. A side that does not fit decides by its sign where it is
// large; else none.
fn is_not_below(side: Option<Dec>, value: Frac) -> Option<bool>
    ensures { result
        ≡ (if can_compare (side_value side)
        then Some (is_not_below (side_value side) (frac_value value)) else None) }
{
    match side {
        None => Some(true),
        Some(number) => match Frac::of_dec(number) {
            Some(least) => Some(frac_is_at_most(least, value)),
            None if is_large(number) => Some(number.is_negative()),
            None => None,
        },
    }
}

#[tactic(auto, using(exact_numbers::proofs::Bridge::frac_fits_lem, crate::proofs::Larges::most_decides))]
fn is_not_above(side: Option<Dec>, value: Frac) -> Option<bool>
    ensures { result
        ≡ (if can_compare (side_value side)
        then Some (is_not_above (side_value side) (frac_value value)) else None) }
{
    match side {
        None => Some(true),
        Some(number) => match Frac::of_dec(number) {
            Some(most) => Some(frac_is_at_most(value, most)),
            None if is_large(number) => Some(!number.is_negative()),
            None => None,
        },
    }
}

// The fault of the variable of this number that has this value.
fn bound_fault_at(number: u32, bounds: Interval, value: Frac) -> Option<PointFault>
    ensures { point_found result
        ≡ (if can_compare (interval_of bounds).lower && can_compare (interval_of bounds).upper
        then (if is_inside (frac_value value) (interval_of bounds) then None
        else Some (bound_broken number)) else Some (too_wide (at_bound number))) }
{
    match (
        is_not_below(bounds.lo, value),
        is_not_above(bounds.hi, value),
    ) {
        (Some(low), Some(high)) => {
            if low && high {
                None
            } else {
                Some(PointFault::BoundBroken(number))
            }
        }
        _ => Some(PointFault::BoundWide(number)),
    }
}

// The fault of the first row that has one.
#[tactic(auto, using(exact_checks::proofs::Firsts::firsts, crate::proofs::RowsAt::rows_read, crate::proofs::RowsAt::row_fault_is))]
fn first_row_fault(program: &Program, x: &[Frac]) -> Option<PointFault>
    requires { length x.now ≡ variable_count (program_value program.now) }
    ensures { point_found result
        ≡ first_fault (row_fault (program_value program.now) (point_of x.now))
        (row_count (program_value program.now)) }
{
    let rows: &[Row] = program.rows();
    for (i, row) in rows.iter().enumerate() {
        let body = value_of(row.body.constant, &row.body.terms, x);
        if let Some(fault) = row_fault_at(i as u32, row.side, body) {
            return Some(fault);
        }
    }
    None
}

// The fault of the first variable that has one.
#[tactic(auto, using(exact_checks::proofs::Firsts::firsts, crate::proofs::RowsAt::bounds_read))]
fn first_bound_fault(program: &Program, x: &[Frac]) -> Option<PointFault>
    requires { length x.now ≡ variable_count (program_value program.now) }
    ensures { point_found result
        ≡ first_fault (fitting_bound_fault (program_value program.now) (point_of x.now))
        (variable_count (program_value program.now)) }
{
    for (j, value) in x.iter().enumerate() {
        let bounds = program.bound(j as u32);
        if let Some(fault) = bound_fault_at(j as u32, bounds, *value) {
            return Some(fault);
        }
    }
    None
}

fn is_whole_number(value: Frac) -> bool
    ensures { result ≡ is_whole_number (frac_value value) }
{
    value.den() == 1
}

// Whether a variable is to be whole, and is not.
fn lacks_wholeness(asked: bool, value: Frac) -> bool
    ensures { result ≡ (asked && not (is_whole_number (frac_value value))) }
{
    asked && !is_whole_number(value)
}

// The first variable that has to be whole, and is not.
#[tactic(auto, using(exact_checks::proofs::Firsts::firsts, exact_checks::proofs::Rows::variables_counted), unfolding(certificates::specs::Certificate::whole_fault))]
fn first_not_whole(program: &Program, x: &[Frac]) -> Option<u32>
    requires { length x.now ≡ variable_count (program_value program.now) }
    ensures { result ≡ whole_fault (program_value program.now) (point_of x.now) }
{
    for (j, value) in x.iter().enumerate() {
        if lacks_wholeness(program.is_whole(j as u32), *value) {
            return Some(j as u32);
        }
    }
    None
}

// The value of the objective.
#[tactic(auto, using(crate::proofs::RowsAt::objective_is, crate::proofs::RowsAt::objective_terms))]
fn objective_at(program: &Program, x: &[Frac]) -> Option<Frac>
    requires { length x.now ≡ variable_count (program_value program.now) }
    ensures { value_found result
        ≡ run_form (variable_count (program_value program.now))
        (program_value program.now).objective
        (point_of x.now) }
{
    let objective = program.objective();
    value_of(objective.constant, &objective.terms, x)
}

// The value at the point, where that is feasible; or the first cause why there is none.
#[tactic(auto, unfolding(certificates::specs::Certificate::judged, certificates::specs::Certificate::given_fault))]
pub(crate) fn judged(program: &Program, x: &[Frac]) -> Result<Frac, Cause>
    requires { length x.now ≡ variable_count (program_value program.now) }
    ensures { judged_of result ≡ judged (program_value program.now) (fractions_of x.now) }
{
    if let Some(fault) = first_row_fault(program, x) {
        return Err(Cause::Point(fault));
    }
    if let Some(fault) = first_bound_fault(program, x) {
        return Err(Cause::Point(fault));
    }
    if let Some(variable) = first_not_whole(program, x) {
        return Err(Cause::NotWhole(variable));
    }
    match objective_at(program, x) {
        Some(value) => Ok(value),
        None => Err(Cause::ObjectiveWide),
    }
}
