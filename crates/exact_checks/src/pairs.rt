// The numbers of a leaf, as pairs of a row and its number: the sides that they need, the reduced
// costs and the part of the rows in the bound.
ghost use Rattle.std.specs.Prelude.{◌≡◌, ◌+◌, ◌<◌, ◌++◌, ℕ, length, slice_get, option_and_then, Some, IfOk};
ghost use Rattle.std.specs.Option.{option_map};
ghost use Rattle.linear_program.specs.Linear.{Linear, row_count, value_at};
ghost use Rattle.certificates.specs.Checked.{fitting, fitting_difference, plus_product, run};
ghost use Rattle.certificates.specs.Verdict.{first_fault, has_needed, row_part, row_part_of, row_side_missing, side_fault};
ghost use Rattle.exact_numbers.specs.Values.{frac_value};
ghost use Rattle.linear_program.specs.Intervals.{interval_of};
ghost use Rattle.linear_program.specs.Numbers.{spread, number_value};
ghost use Rattle.exact_checks.specs.Built.{AreWithin};
ghost use Rattle.exact_checks.specs.Leaves.{AreIndices, HasRows, cost_act, run_pairs};
ghost use Rattle.exact_checks.specs.Sums.{AreKept, cost_count, cost_in};
ghost use Rattle.exact_checks.specs.Terms.{value_found};

use crate::costs::Costs;
use crate::form::Row;
use crate::number::{
    difference, is_negative_number, is_zero_number, plus_product, written_fraction,
};
use crate::program::Program;
use crate::sides::{needed_side, side_fraction};
use crate::sums::sum_of;
use exact_numbers::Frac;
use linear_program::{Interval, Number};
use std::alloc::AllocError;

// Row i of the rows with those of planes after them.
fn row_at<'a>(rows: &'a [Row], planes: &'a [Row], i: usize) -> &'a Row
    requires { i < length rows.now + length planes.now }
    ensures { slice_get (rows.now ++ planes.now) i ≡ Some result.now }
{
    if i < rows.len() {
        &rows[i]
    } else {
        &planes[i - rows.len()]
    }
}

/// Whether the number is 0 or the side that it needs is there.
pub fn has_row_side(maximise: bool, number: &Number, sides: Interval) -> bool
    ensures { result ≡ has_needed maximise (number_value number.now) (interval_of sides) }
{
    is_zero_number(number) || needed_side(maximise, is_negative_number(number), sides).is_some()
}

// The first row whose number lacks its side.
pub(crate) fn first_lacking_side(
    program: &Program,
    planes: &[Row],
    maximise: bool,
    pairs: &[(u32, Number)],
) -> Option<u32>
    requires { AreIndices 0 (length program.now.rows.items + length planes.now) pairs.now }
    ensures { (f : Linear) → HasRows program.now planes.now f → f.maximise ≡ maximise
        → option_map row_side_missing result
        ≡ first_fault (side_fault f (value_at (spread (row_count f) pairs.now))) (row_count f) }
{
    let rows: &[Row] = &program.rows;
    for pair in pairs {
        let row = row_at(rows, planes, pair.0 as usize);
        if !has_row_side(maximise, &pair.1, row.side) {
            return Some(pair.0);
        }
    }
    None
}

// Takes each row with its number from the costs.
#[tactic(auto, using(crate::proofs::PartRows::terms_of_row))]
pub(crate) fn take_rows(
    costs: &mut Costs,
    program: &Program,
    planes: &[Row],
    pairs: &[(u32, Number)],
) -> Result<(), AllocError>
    requires pairs { AreIndices 0 (length program.now.rows.items + length planes.now) pairs.now }
    requires planes { AreWithin (length program.now.lower.items) planes.now }
    requires kept { AreKept costs.old }
    requires count { cost_count costs.old ≡ length program.now.lower.items }
    ensures costs { IfOk result (λ u. (f : Linear) → HasRows program.now planes.now f → (j : ℕ)
        → cost_in costs.new j ≡ run_pairs (cost_act f j) (cost_in costs.old j) pairs.now) }
    ensures kept { IfOk result (λ u. AreKept costs.new) }
    ensures count { IfOk result (λ u. cost_count costs.new ≡ cost_count costs.old) }
{
    let rows: &[Row] = &program.rows;
    for pair in pairs {
        let row = row_at(rows, planes, pair.0 as usize);
        let weight = sum_of(written_fraction(&pair.1));
        costs.take_row(&weight, &row.body.terms)?;
    }
    Ok(())
}

// sum + number * (side - constant)
fn plus_side(sum: Frac, side: Frac, constant: Frac, number: &Number) -> Option<Frac>
    ensures { value_found result
        ≡ option_and_then (λ v. option_and_then (λ d. plus_product (frac_value sum) v d)
        (fitting_difference (frac_value side) (frac_value constant)))
        (fitting (number_value number.now)) }
{
    match written_fraction(number) {
        Some(weight) => match difference(side, constant) {
            Some(distance) => plus_product(sum, weight, distance),
            None => None,
        },
        None => None,
    }
}

/// The sum with the part of a row.
pub fn plus_row(sum: Frac, maximise: bool, row: &Row, number: &Number) -> Option<Frac>
    ensures { value_found result
        ≡ row_part_of maximise (interval_of row.now.side) (frac_value row.now.body.constant)
        (frac_value sum) (number_value number.now) }
{
    if is_zero_number(number) {
        return Some(sum);
    }
    match side_fraction(needed_side(maximise, is_negative_number(number), row.side)) {
        Some(side) => plus_side(sum, side, row.body.constant, number),
        None => None,
    }
}

// The goal's constant with the parts of the rows.
pub(crate) fn rows_total(
    program: &Program,
    planes: &[Row],
    maximise: bool,
    constant: Frac,
    pairs: &[(u32, Number)],
) -> Option<Frac>
    requires { AreIndices 0 (length program.now.rows.items + length planes.now) pairs.now }
    ensures { (f : Linear) → HasRows program.now planes.now f → f.maximise ≡ maximise
        → value_found result
        ≡ run (row_part f (value_at (spread (row_count f) pairs.now))) (frac_value constant)
        (row_count f) }
{
    let rows: &[Row] = &program.rows;
    let mut sum = constant;
    for pair in pairs {
        let row = row_at(rows, planes, pair.0 as usize);
        match plus_row(sum, maximise, row, &pair.1) {
            Some(next) => sum = next,
            None => return None,
        }
    }
    Some(sum)
}
