// The constraints of a program and their sides.
ghost use Rattle.std.specs.Prelude.{◌≡◌, ◌∷◌, [], ◌++◌, ◌+◌, ◌≤◌, ◌<◌, ◌^◌, cond, None, Some, false, true, MatchOption, IfOk, IfErr, OnOk, length, map};
ghost use Rattle.std.specs.Option.{option_map};
ghost use Rattle.exact_numbers.specs.Values.{dec_value};
ghost use Rattle.mps_model.specs.Mps.{at_row, objective_row, or_zero, rhs_at, row_interval, row_sides};
ghost use Rattle.text_base.specs.Stopped.{IfFault};
ghost use Rattle.mps_program.specs.Decimals.{sides_from};
ghost use Rattle.mps_program.specs.Places.{one_if};
ghost use Rattle.mps_program.specs.Faults.{first_wide, is_range_wide};
ghost use Rattle.mps_program.specs.Program.{constraints, is_bounded_kind, values_of};

use crate::by_place::{at_row, by_row};
use crate::sides::row_sides;
use exact_numbers::Dec;
use linear_program::Interval;
use mps_model::{Mps, MpsRow, RowKind};
use std::alloc::{AllocError, Global};
use text_base::Stop;

/// Whether a row of this kind is a constraint.
pub fn is_bounded_kind(kind: RowKind) -> bool
    ensures { result ≡ is_bounded_kind kind }
{
    match kind {
        RowKind::N => false,
        _ => true,
    }
}

/// The place of the first N row.
pub fn objective_row(rows: &[MpsRow]) -> usize
    ensures { result ≡ objective_row rows.now }
{
    'rows: for i in 0..rows.len() {
        let row = &rows[i];
        if !is_bounded_kind(row.kind) {
            return i;
        }
    }
    rows.len()
}

/// One more where the test holds.
pub fn with_one(count: u32, is_more: bool) -> u32
    requires { count ≤ 2 ^ 23 }
    ensures { result ≡ count + one_if is_more }
{
    if is_more { count + 1 } else { count }
}

// How many rows are constraints.
#[tactic(auto, unfolding(crate::specs::Places::places))]
pub(crate) fn count_constraints(rows: &[MpsRow]) -> u32
    requires { length rows.now ≤ 2 ^ 21 }
    ensures { result ≡ length (constraints rows.now) }
{
    let mut count: u32 = 0;
    'rows: for row in rows {
        count = with_one(count, is_bounded_kind(row.kind));
    }
    count
}

// The number, or 0 where there is none.
fn or_zero(number: Option<Dec>) -> Dec
    ensures { dec_value result ≡ or_zero (option_map dec_value number) }
{
    match number {
        Some(value) => value,
        None => Dec::zero(),
    }
}

/// The right side of a row, or 0 where none is given.
pub fn right_side(mps: &Mps, row: usize) -> Dec
    ensures { dec_value result ≡ rhs_at (values_of mps.now) row }
{
    let rhs = mps.rhs();
    let given = at_row(rhs, row);
    or_zero(given)
}

// The sides of a row. None exactly where its range is out of reach.
fn sides_at(kind: RowKind, rhs: Option<Dec>, range: Option<Dec>) -> Option<Interval>
    ensures { MatchOption result
        (is_range_wide kind (or_zero (option_map dec_value rhs)) (option_map dec_value range)
        ≡ true)
        (λ s. (is_range_wide kind (or_zero (option_map dec_value rhs)) (option_map dec_value range)
        ≡ false)
        × (s ≡ sides_from (row_sides kind (or_zero (option_map dec_value rhs))
        (option_map dec_value range)))) }
{
    row_sides(kind, or_zero(rhs), range)
}

// Adds the sides of a constraint.
fn add_where(
    sides: &mut Vec<Interval>,
    is_constraint: bool,
    side: Interval,
) -> Result<(), AllocError>
    ensures { OnOk result (sides.new.items ≡ sides.old.items ++ cond is_constraint (side ∷ []) []) }
{
    if is_constraint {
        let _lo = side.lo;
        sides.push(side)?;
    }
    Ok(())
}

/// The sides of the constraints, in order, or the first row whose range is out of reach.
#[tactic(auto, unfolding(crate::specs::Places::places))]
pub fn constraint_sides(alloc: Global, mps: &Mps) -> Result<Vec<Interval>, Stop<u32>>
    ensures sides { IfOk result
        (λ v. v.items
        ≡ map (λ i. sides_from (row_interval (values_of mps.now) i)) (constraints mps.now.rows)) }
    ensures clean { IfOk result (λ v. first_wide mps.now ≡ None) }
    ensures fault { IfErr result (λ stop. IfFault stop (λ row. first_wide mps.now ≡ Some row)) }
{
    let rows = mps.rows();
    let rhs = by_row(alloc, rows.len(), mps.rhs())?;
    let ranges = by_row(alloc, rows.len(), mps.ranges())?;
    let mut sides = Vec::with_capacity(alloc, rows.len())?;
    'rows: for i in 0..rows.len() {
        let row = &rows[i];
        let kind = row.kind;
        let Some(side) = sides_at(kind, rhs[i], ranges[i]) else {
            return Err(Stop::Fault(i as u32));
        };
        add_where(&mut sides, is_bounded_kind(kind), side)?;
    }
    Ok(sides)
}
