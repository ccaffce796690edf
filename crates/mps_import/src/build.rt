// The import of a program.
ghost use Rattle.std.specs.Prelude.{◌≡◌, ◌++◌, ◌+◌, ◌≤◌, ◌<◌, ◌^◌, false, true, All, cond, None, Some, IfOk, IfErr, OnOk, get_or, length, map, nat_lt, ◌||◌};
ghost use Rattle.std.specs.List.{count_by};
ghost use Rattle.std.specs.Option.{option_map};
ghost use Rattle.text_base.specs.Stopped.{IfFault};
ghost use Rattle.std.specs.Ordering.{is_eq, is_ne};
ghost use Rattle.exact_numbers.specs.Values.{dec_value, exponent_of, mantissa_of, order_of};
ghost use Rattle.linear_program.specs.Intervals.{no_sides, IsOrdered};
ghost use Rattle.mps_model.specs.Mps.{objective_row, row_interval};
ghost use Rattle.nl_model.specs.Trees.{number};
ghost use Rattle.nl_model.specs.HeaderWords.{header_counts, header_options};
ghost use Rattle.mps_import.specs.Faults.{import_fault};
ghost use Rattle.mps_import.specs.Import.{counts_with, import_counts, import_of, import_options, objective_constant};
ghost use Rattle.mps_import.specs.InsideParts.{ArePartsOf, begun_draft, side_test};
ghost use Rattle.mps_import.specs.Variables.{order_of_columns};
ghost use Rattle.mps_program.specs.declared.mps_fault.MpsFault.TheVariants.{TooWide as TooWideFault};
ghost use Rattle.mps_program.specs.Decimals.{sides_from};
ghost use Rattle.mps_program.specs.Faults.{first_wide};
ghost use Rattle.mps_program.specs.Program.{constraints, values_of};

use crate::imported::{Imported, Order};
use crate::rows::{RowUse, row_uses};
use crate::terms::{Counted, add_terms, count_terms};
use crate::variables::{Variables, in_kinds};
use exact_numbers::Dec;
use mps_model::Mps;
use mps_program::{MpsFault, constraint_sides, first_empty, right_side, sides_and_kinds, with_one};
use nl_model::{Counts, Expr, ExprBuilder, Header, Interval, NlBuilder, NlFile, Node, Options};
use std::alloc::{AllocError, Global};
use std::cmp::Ordering;
use text_base::Stop;

// The most constraints, and the most columns.
const MOST_PLACES: u32 = 0x10_0000;

// What is known of a program without a fault: what its rows are and the objective's row, the sides
// of the constraints and of the columns, the variables, and how many terms there are.
#[derive(Drop)]
pub(crate) struct Parts {
    pub(crate) uses: Vec<RowUse>,
    pub(crate) objective: usize,
    pub(crate) sides: Vec<Interval>,
    pub(crate) bounds: Vec<Interval>,
    pub(crate) variables: Variables,
    pub(crate) count: Counted,
}

// Whether there are too many constraints or columns.
fn is_too_long(constraints: u32, columns: usize) -> bool
    ensures { result ≡ nat_lt (2 ^ 20) constraints || nat_lt (2 ^ 20) columns }
{
    constraints > MOST_PLACES || columns > MOST_PLACES as usize
}

// The sides of the constraints, or a fault of the first row whose range is out of reach.
fn sides_of(alloc: Global, mps: &Mps) -> Result<Vec<Interval>, Stop<MpsFault>>
    ensures sides { IfOk result
        (λ v. v.items
        ≡ map (λ i. sides_from (row_interval (values_of mps.now) i)) (constraints mps.now.rows)) }
    ensures clean { IfOk result (λ v. first_wide mps.now ≡ None) }
    ensures fault { IfErr result
        (λ stop. IfFault stop (λ fault. option_map TooWideFault (first_wide mps.now)
        ≡ Some fault)) }
{
    match constraint_sides(alloc, mps) {
        Ok(sides) => Ok(sides),
        Err(stop) => Err(stop.map_fault(|row| MpsFault::TooWide(row))),
    }
}

// The parts of a program, or its first fault.
fn parts_of(alloc: Global, mps: &Mps) -> Result<Parts, Stop<MpsFault>>
    ensures parts { IfOk result (λ p. ArePartsOf mps.now p) }
    ensures fault { IfErr result
        (λ stop. IfFault stop (λ fault. import_fault mps.now ≡ Some fault)) }
{
    let all = mps.rows();
    let rows = row_uses(alloc, all)?;
    let columns = sides_and_kinds(alloc, mps)?;
    let variables = in_kinds(alloc, &columns.kinds)?;
    let width = mps.columns().len();
    if is_too_long(rows.constraints, width) {
        return Err(Stop::Fault(MpsFault::TooLarge));
    }
    let Some(count) = count_terms(mps, &variables.columns, &rows.uses) else {
        return Err(Stop::Fault(MpsFault::TooLarge));
    };
    let sides = sides_of(alloc, mps)?;
    if let Some(column) = first_empty(&columns.sides) {
        return Err(Stop::Fault(MpsFault::EmptyInterval(column)));
    }
    Ok(Parts {
        uses: rows.uses,
        objective: rows.objective,
        sides,
        bounds: columns.sides,
        variables,
        count,
    })
}

fn are_equal(lower: Dec, upper: Dec) -> bool
    ensures { result ≡ is_eq (order_of (dec_value lower) (dec_value upper)) }
{
    lower.order(upper) == Ordering::Equal
}

// Whether the numbers are equal, or whether they differ.
fn compares(lower: Dec, upper: Dec, equal: bool) -> bool
    ensures { result ≡ cond equal is_eq is_ne (order_of (dec_value lower) (dec_value upper)) }
{
    if equal {
        are_equal(lower, upper)
    } else {
        !are_equal(lower, upper)
    }
}

// Whether both sides are there, and are equal or differ.
fn is_two_sided(side: Interval, equal: bool) -> bool
    ensures { result ≡ side_test equal side }
{
    match (side.lo, side.hi) {
        (Some(lower), Some(upper)) => compares(lower, upper, equal),
        _ => false,
    }
}

// How many sides are there on both ends, and are equal or differ.
fn two_sided(sides: &[Interval], equal: bool) -> u32
    requires { length sides.now ≤ 2 ^ 23 }
    ensures { result ≡ count_by (side_test equal) sides.now }
{
    let mut count: u32 = 0;
    'sides: for side in sides {
        count = with_one(count, is_two_sided(*side, equal));
    }
    count
}

// The counts of the file.
fn counts_of(n_var: usize, sides: &[Interval], variables: &Variables, count: Counted) -> Counts
    requires sides { length sides.now ≤ 2 ^ 20 }
    requires variables { n_var ≤ 2 ^ 20 }
    ensures { result
        ≡ counts_with n_var (length sides.now) (count_by (side_test false) sides.now)
        (count_by (side_test true) sides.now) variables.now.binary variables.now.integer
        count.constraints count.objective }
{
    Counts {
        n_var: n_var as u32,
        n_con: sides.len() as u32,
        n_obj: 1,
        n_ranges: two_sided(sides, false),
        n_eqns: two_sided(sides, true),
        n_lcon: 0,
        nlc: 0,
        nlo: 0,
        nlnc: 0,
        lnc: 0,
        nlvc: 0,
        nlvo: 0,
        nlvb: 0,
        nwv: 0,
        nfunc: 0,
        arith: 0,
        flags: 1,
        nbv: variables.binary,
        niv: variables.integer,
        nlvbi: 0,
        nlvci: 0,
        nlvoi: 0,
        nzc: count.constraints,
        nzo: count.objective,
        row_name_len: 0,
        col_name_len: 0,
        comb: 0,
        comc: 0,
        como: 0,
        comc1: 0,
        como1: 0,
    }
}

// The options of the file.
fn usual_options() -> Options
    ensures { result ≡ import_options }
{
    let mut options = Options::new();
    options.push(1);
    options.push(1);
    options.push(0);
    options
}

// The header of the file.
fn header_of(mps: &Mps, parts: &Parts) -> Header
    requires { ArePartsOf mps.now parts.now }
    ensures options { header_options result ≡ import_options }
    ensures counts { header_counts result ≡ import_counts mps.now }
{
    let variables = mps.columns().len();
    let counts = counts_of(variables, &parts.sides, &parts.variables, parts.count);
    match Header::new(usual_options(), counts) {
        Some(header) => header,
        None => unreachable!(),
    }
}

// The expression that is one number.
fn number_of(alloc: Global, value: Dec) -> Result<Expr, AllocError>
    ensures { IfOk result (λ e. e ≡ number (mantissa_of value) (exponent_of value)) }
{
    let mut nodes = ExprBuilder::new(alloc);
    nodes.push(Node::Num(value))?;
    Ok(nodes.finish())
}

// Adds the sides of the constraints.
fn add_sides(builder: &mut NlBuilder, sides: &[Interval]) -> Result<(), AllocError>
    requires few { length builder.old.sides + length sides.now ≤ builder.old.counts.n_con }
    requires ordered { All IsOrdered sides.now }
    ensures { OnOk result (builder.new
        ≡ record builder.old { sides = builder.old.sides ++ sides.now }) }
{
    'sides: for side in sides {
        builder.side(*side)?;
    }
    Ok(())
}

// Adds the sides of the variables, whose columns are in this order.
fn add_bounds(builder: &mut NlBuilder, bounds: &[Interval], order: &[u32]) -> Result<(), AllocError>
    requires few { length builder.old.bounds + length order.now ≤ builder.old.counts.n_var }
    requires within { All (λ j. j < length bounds.now) order.now }
    requires ordered { All IsOrdered bounds.now }
    ensures { OnOk result (builder.new
        ≡ record builder.old {
          bounds = builder.old.bounds
              ++ map (λ j. get_or bounds.now j no_sides) order.now;
        }) }
{
    'variables: for j in order {
        builder.bound(bounds[*j as usize])?;
    }
    Ok(())
}

// The number that the objective adds to its terms.
fn constant_of(mps: &Mps, objective: usize) -> Dec
    requires { objective ≡ objective_row mps.now.rows }
    ensures { dec_value result ≡ objective_constant mps.now }
{
    let side = right_side(mps, objective);
    side.neg()
}

// The header and the objective.
fn begin(alloc: Global, mps: &Mps, parts: &Parts) -> Result<NlBuilder, AllocError>
    requires { ArePartsOf mps.now parts.now }
    ensures { IfOk result (λ b. b ≡ begun_draft mps.now) }
{
    let header = header_of(mps, parts);
    let mut builder = NlBuilder::new(alloc, header)?;
    let constant = constant_of(mps, parts.objective);
    let tree = number_of(alloc, constant)?;
    builder.objective(0, mps.maximise(), tree);
    Ok(builder)
}

// The file of these parts.
fn file_of(alloc: Global, mps: &Mps, parts: &Parts) -> Result<NlFile, AllocError>
    requires { ArePartsOf mps.now parts.now }
    ensures { IfOk result (λ f. f ≡ import_of mps.now) }
{
    let mut builder = begin(alloc, mps, parts)?;
    add_sides(&mut builder, &parts.sides)?;
    let order = &parts.variables.columns;
    add_bounds(&mut builder, &parts.bounds, order)?;
    add_terms(&mut builder, mps, order, &parts.uses)?;
    Ok(builder.finish())
}

/// The .nl file that means what the program means, and the column of each of its variables.
pub fn import(alloc: Global, mps: &Mps) -> Result<Imported, Stop<MpsFault>>
    ensures clean { IfOk result (λ x. import_fault mps.now ≡ None) }
    ensures file { IfOk result (λ x. x.file ≡ import_of mps.now) }
    ensures order { IfOk result (λ x. x.order ≡ order_of_columns mps.now) }
    ensures fault { IfErr result
        (λ stop. IfFault stop (λ fault. import_fault mps.now ≡ Some fault)) }
{
    let parts = parts_of(alloc, mps)?;
    let file = file_of(alloc, mps, &parts)?;
    Ok(Imported {
        file,
        order: Order::of(parts.variables.columns),
    })
}
