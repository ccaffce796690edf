// Whether a ray leads nowhere out, and makes the objective better.
ghost use Rattle.std.specs.Prelude.{◌≡◌, length};
ghost use Rattle.linear_program.specs.Linear.{row_count, variable_count};
ghost use Rattle.certificates.specs.Branch.{is_as_good};
ghost use Rattle.certificates.specs.Ray.{ray_bound_fault, ray_fault, ray_objective_check, ray_row_check, ray_row_fault, recession, run_change};
ghost use Rattle.certificates.specs.Verdict.{first_fault, is_inside};
ghost use Rattle.exact_numbers.specs.Values.{frac_value};
ghost use Rattle.linear_program.specs.Intervals.{interval_of};
ghost use Rattle.exact_checks.specs.Programs.{program_value};
ghost use Rattle.exact_checks.specs.Terms.{value_found};
ghost use Rattle.certificate_judge.specs.Outcomes.{ray_found};
ghost use Rattle.certificate_judge.specs.InsidePoints.{point_of};

use crate::leaf::is_as_good;
use crate::outcome::RayFault;
use exact_checks::{Program, Row, frac_is_at_most, value_of};
use exact_numbers::Frac;
use linear_program::Interval;

// Whether a change leads to neither side that is there.
fn keeps_within(change: Frac, sides: Interval) -> bool
    ensures { result ≡ is_inside (frac_value change) (recession (interval_of sides)) }
{
    let low = match sides.lo {
        None => true,
        Some(_) => frac_is_at_most(Frac::zero(), change),
    };
    let high = match sides.hi {
        None => true,
        Some(_) => frac_is_at_most(change, Frac::zero()),
    };
    low && high
}

// The fault of the row of this number that changes by this much, if it fits.
fn row_fault_at(number: u32, sides: Interval, change: Option<Frac>) -> Option<RayFault>
    ensures { ray_found result ≡ ray_row_check number (interval_of sides) (value_found change) }
{
    match change {
        None => Some(RayFault::RowWide(number)),
        Some(value) => {
            if keeps_within(value, sides) {
                None
            } else {
                Some(RayFault::RowBroken(number))
            }
        }
    }
}

// The fault of the first row that has one.
#[tactic(auto, using(exact_checks::proofs::Firsts::firsts, crate::proofs::RowsAt::rows_read, crate::proofs::RowsAt::ray_row_fault_is))]
fn first_row_fault(program: &Program, d: &[Frac]) -> Option<RayFault>
    requires { length d.now ≡ variable_count (program_value program.now) }
    ensures { ray_found result
        ≡ first_fault (ray_row_fault (program_value program.now) (point_of d.now))
        (row_count (program_value program.now)) }
{
    let rows: &[Row] = program.rows();
    for (i, row) in rows.iter().enumerate() {
        let change = value_of(Frac::zero(), &row.body.terms, d);
        if let Some(fault) = row_fault_at(i as u32, row.side, change) {
            return Some(fault);
        }
    }
    None
}

// The fault of the first variable that has one.
#[tactic(auto, using(exact_checks::proofs::Firsts::firsts, exact_checks::proofs::Rows::variables_counted))]
fn first_bound_fault(program: &Program, d: &[Frac]) -> Option<RayFault>
    requires { length d.now ≡ variable_count (program_value program.now) }
    ensures { ray_found result
        ≡ first_fault (ray_bound_fault (program_value program.now) (point_of d.now))
        (variable_count (program_value program.now)) }
{
    for (j, value) in d.iter().enumerate() {
        if !keeps_within(*value, program.bound(j as u32)) {
            return Some(RayFault::BoundBroken(j as u32));
        }
    }
    None
}

// Whether the objective gets better by this much, if it fits.
fn objective_fault_at(maximise: bool, change: Option<Frac>) -> Option<RayFault>
    ensures { ray_found result ≡ ray_objective_check maximise (value_found change) }
{
    match change {
        None => Some(RayFault::ObjectiveWide),
        Some(value) => {
            if is_as_good(maximise, Frac::zero(), value) {
                Some(RayFault::NoBetter)
            } else {
                None
            }
        }
    }
}

// How much the objective changes.
#[tactic(auto, using(crate::proofs::RowsAt::change_is, crate::proofs::RowsAt::objective_terms))]
fn objective_change(program: &Program, d: &[Frac]) -> Option<Frac>
    requires { length d.now ≡ variable_count (program_value program.now) }
    ensures { value_found result
        ≡ run_change (variable_count (program_value program.now))
        (program_value program.now).objective
        (point_of d.now) }
{
    value_of(Frac::zero(), &program.objective().terms, d)
}

// The first fault of a ray: rows, bounds, objective.
#[tactic(auto, unfolding(certificates::specs::Ray::ray_fault))]
pub(crate) fn ray_fault(program: &Program, d: &[Frac]) -> Option<RayFault>
    requires { length d.now ≡ variable_count (program_value program.now) }
    ensures { ray_found result ≡ ray_fault (program_value program.now) (point_of d.now) }
{
    if let Some(fault) = first_row_fault(program, d) {
        return Some(fault);
    }
    if let Some(fault) = first_bound_fault(program, d) {
        return Some(fault);
    }
    objective_fault_at(program.maximise(), objective_change(program, d))
}
