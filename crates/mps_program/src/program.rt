// The linear program of an MPS program.
ghost use Rattle.std.specs.Prelude.{◌≡◌, ◌≤◌, ◌^◌, ◌||◌, IfOk, IfErr, None, Some, length, map, nat_lt};
ghost use Rattle.std.specs.Option.{option_map};
ghost use Rattle.linear_program.specs.Programs.{linear_value};
ghost use Rattle.exact_numbers.specs.Values.{dec_value};
ghost use Rattle.mps_model.specs.Mps.{row_interval};
ghost use Rattle.mps_model.specs.Valid.{IsMps, entry_count};
ghost use Rattle.text_base.specs.Stopped.{IfFault};
ghost use Rattle.mps_program.specs.Faults.{first_wide, is_too_large, mps_fault};
ghost use Rattle.mps_program.specs.Decimals.{sides_from};
ghost use Rattle.mps_program.specs.Kinds.{kinds_of};
ghost use Rattle.mps_program.specs.Program.{constraints, linear_of, values_of};
ghost use Rattle.mps_program.specs.declared.mps_fault.MpsFault.TheVariants.{TooWide as TooWideFault};

use crate::columns::sides_and_kinds;
use crate::forms::forms_of;
use crate::mps_fault::MpsFault;
use crate::rows::{constraint_sides, count_constraints};
use crate::terms::terms_by_row;
use crate::variables::first_empty;
use linear_program::{Interval, Linear};
use mps_model::{Mps, MpsColumn};
use std::alloc::Global;
use text_base::Stop;

// The most constraints and the most columns, and the most entries.
const MOST_PLACES: u32 = 0x10_0000;

const MOST_ENTRIES: usize = 0x80_0000;

// How many entries there are.
fn count_entries(columns: &[MpsColumn]) -> usize
    requires { entry_count columns.now ≤ 2 ^ 24 }
    ensures { result ≡ entry_count columns.now }
{
    let mut count: usize = 0;
    'columns: for column in columns {
        count += column.entries().len();
    }
    count
}

// Whether there are too many constraints, columns or entries.
fn is_beyond(constraints: u32, columns: usize, entries: usize) -> bool
    ensures { result
        ≡ nat_lt (2 ^ 20) constraints || nat_lt (2 ^ 20) columns || nat_lt (2 ^ 23) entries }
{
    constraints > MOST_PLACES || columns > MOST_PLACES as usize || entries > MOST_ENTRIES
}

fn is_too_large(mps: &Mps) -> bool
    ensures value { result ≡ is_too_large mps.now }
    ensures valid { IsMps dec_value mps.now }
{
    let columns = mps.columns();
    let constraints = count_constraints(mps.rows());
    is_beyond(constraints, columns.len(), count_entries(columns))
}

// The sides of the constraints, or a fault of the first row whose range is out of reach.
fn sides_of(alloc: Global, mps: &Mps) -> Result<Vec<Interval>, Stop<MpsFault>>
    ensures sides { IfOk result
        (λ v. v.items
        ≡ map (λ i. sides_from (row_interval (values_of mps.now) i)) (constraints mps.now.rows)) }
    ensures clean { IfOk result (λ v. first_wide mps.now ≡ None) }
    ensures fault { IfErr result
        (λ stop. IfFault stop (λ fault. option_map TooWideFault (first_wide mps.now)
        ≡ Some fault)) }
{
    match constraint_sides(alloc, mps) {
        Ok(sides) => Ok(sides),
        Err(stop) => Err(stop.map_fault(|row| MpsFault::TooWide(row))),
    }
}

/// The linear program that an MPS program is: constraint k is the k-th row that is no N row,
/// variable j is column j, the objective is the first N row and has the number 0. Or the first
/// fault.
pub fn linear_of(alloc: Global, mps: &Mps) -> Result<Linear, Stop<MpsFault>>
    ensures linear { IfOk result (λ l. linear_value l ≡ linear_of (values_of mps.now)) }
    ensures rows { IfOk result (λ l. length l.bodies ≡ length (constraints mps.now.rows)) }
    ensures kinds { IfOk result (λ l. l.kinds ≡ kinds_of mps.now) }
    ensures number { IfOk result (λ l. l.number ≡ 0) }
    ensures clean { IfOk result (λ l. mps_fault mps.now ≡ None) }
    ensures fault { IfErr result
        (λ stop. IfFault stop (λ fault. mps_fault mps.now ≡ Some fault)) }
{
    if is_too_large(mps) {
        return Err(Stop::Fault(MpsFault::TooLarge));
    }
    let sides = sides_of(alloc, mps)?;
    let columns = sides_and_kinds(alloc, mps)?;
    if let Some(column) = first_empty(&columns.sides) {
        return Err(Stop::Fault(MpsFault::EmptyInterval(column)));
    }
    let terms = terms_by_row(alloc, mps)?;
    let forms = forms_of(alloc, mps, sides.len(), terms)?;
    Ok(Linear::of_parts(
        forms.bodies,
        forms.objective,
        0,
        mps.maximise(),
        sides,
        columns.sides,
        columns.kinds,
    ))
}
