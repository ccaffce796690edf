// What the bounds of a program say of its columns.
ghost use Rattle.std.specs.Prelude.{◌≡◌, false, ◌||◌, ℕ, ◌<◌, All, List, [], ◌∷◌, get_or, length, map, replicate, IfOk};
ghost use Rattle.std.specs.Option.{option_map};
ghost use Rattle.exact_numbers.specs.Values.{dec_value};
ghost use Rattle.exact_numbers.specs.declared.dec.Dec.{Dec as DecValue};
ghost use Rattle.linear_program.specs.Intervals.{interval_of};
ghost use Rattle.mps_model.specs.Built.{bound_of};
ghost use Rattle.mps_model.specs.Mps.{Bound, Unset, At, sets, makes_whole, first_side, first_sides, lower_side, upper_side, interval_set, column_interval};
ghost use Rattle.mps_program.specs.InsideColumns.{none_set, side_value, sides_value, sets_of, with_sets};
ghost use Rattle.mps_program.specs.Kinds.{column_kind};
ghost use Rattle.mps_program.specs.Decimals.{sides_from};
ghost use Rattle.mps_program.specs.Places.{listed};
ghost use Rattle.mps_program.specs.Program.{values_of};

use crate::variables::kind_of;
use exact_numbers::Dec;
use linear_program::{Interval, Kind};
use mps_model::{BoundKind, Mps};
use std::alloc::{AllocError, Global};

// A side of a column, as its records set it.
#[derive(Clone, Copy)]
pub(crate) enum ColumnSide {
    Unset,
    Open,
    At(Dec),
}

// The sides that the records of a column set, and whether one makes it whole.
#[derive(Clone, Copy)]
pub(crate) struct ColumnSides {
    pub(crate) lower: ColumnSide,
    pub(crate) upper: ColumnSide,
    pub(crate) whole: bool,
}

// The lower and the upper side that a record sets.
fn sets(kind: BoundKind, value: Dec) -> (ColumnSide, ColumnSide)
    ensures { record { lower = side_value result.0; upper = side_value result.1 }
        ≡ sets kind (dec_value value) }
{
    match kind {
        BoundKind::Lo | BoundKind::Li => (ColumnSide::At(value), ColumnSide::Unset),
        BoundKind::Up | BoundKind::Ui => (ColumnSide::Unset, ColumnSide::At(value)),
        BoundKind::Fx => (ColumnSide::At(value), ColumnSide::At(value)),
        BoundKind::Fr => (ColumnSide::Open, ColumnSide::Open),
        BoundKind::Mi => (ColumnSide::Open, ColumnSide::Unset),
        BoundKind::Pl => (ColumnSide::Unset, ColumnSide::Open),
        BoundKind::Bv => (
            ColumnSide::At(Dec::zero()),
            ColumnSide::At(Dec::of_whole(1)),
        ),
    }
}

fn is_whole_kind(kind: BoundKind) -> bool
    ensures { result ≡ makes_whole kind }
{
    match kind {
        BoundKind::Bv | BoundKind::Li | BoundKind::Ui => true,
        _ => false,
    }
}

// The lower side of a column with this upper side, where no record sets it.
fn usual_below(upper: Dec) -> Option<Dec>
    ensures { option_map dec_value result ≡ lower_side Unset (At (dec_value upper)) }
{
    if upper.is_negative() {
        None
    } else {
        Some(Dec::zero())
    }
}

// The lower side of a column's interval.
fn lower_side(lower: ColumnSide, upper: ColumnSide) -> Option<Dec>
    ensures { option_map dec_value result ≡ lower_side (side_value lower) (side_value upper) }
{
    match (lower, upper) {
        (ColumnSide::Unset, ColumnSide::At(value)) => usual_below(value),
        (ColumnSide::Unset, _) => Some(Dec::zero()),
        (ColumnSide::Open, _) => None,
        (ColumnSide::At(value), _) => Some(value),
    }
}

// The upper side of a column's interval.
fn upper_side(side: ColumnSide) -> Option<Dec>
    ensures { option_map dec_value result ≡ upper_side (side_value side) }
{
    match side {
        ColumnSide::At(value) => Some(value),
        _ => None,
    }
}

// The interval of a column.
fn column_sides(column: ColumnSides) -> Interval
    ensures { interval_of result ≡ interval_set (sides_value column) }
{
    Interval {
        lo: lower_side(column.lower, column.upper),
        hi: upper_side(column.upper),
    }
}

// The first of two sides that is set.
fn first_side(side: ColumnSide, other: ColumnSide) -> ColumnSide
    ensures { side_value result ≡ first_side (side_value side) (side_value other) }
{
    match side {
        ColumnSide::Unset => other,
        _ => side,
    }
}

// The sides of a column with one record more.
fn with_record(column: ColumnSides, kind: BoundKind, value: Dec) -> ColumnSides
    ensures sides { sides_value result
        ≡ first_sides (sides_value column) (sets kind (dec_value value)) }
    ensures whole { result.whole ≡ column.whole || makes_whole kind }
{
    let (lower, upper) = sets(kind, value);
    ColumnSides {
        lower: first_side(column.lower, lower),
        upper: first_side(column.upper, upper),
        whole: column.whole || is_whole_kind(kind),
    }
}

// So many columns without records.
fn no_records(alloc: Global, count: usize) -> Result<Vec<ColumnSides>, AllocError>
    ensures { IfOk result (λ v. v.items ≡ replicate count none_set) }
{
    let mut columns = Vec::with_capacity(alloc, count)?;
    'filled: for _ in 0..count {
        columns.push(ColumnSides {
            lower: ColumnSide::Unset,
            upper: ColumnSide::Unset,
            whole: false,
        })?;
    }
    Ok(columns)
}

// Keeps what a record sets.
fn record(columns: &mut Vec<ColumnSides>, bound: (BoundKind, u32, Dec))
    requires { bound.1 < length columns.old.items }
    ensures count { length columns.new.items ≡ length columns.old.items }
    ensures sets { (j : ℕ) (rest : List (Bound DecValue)) → j < length columns.old.items
        → with_sets (get_or columns.new.items j none_set) j rest
        ≡ with_sets (get_or columns.old.items j none_set) j (bound_of bound ∷ rest) }
{
    let j = bound.1 as usize;
    let set = with_record(columns[j], bound.0, bound.2);
    columns[j] = set;
}

// What the records set for each of so many columns.
fn by_column(
    alloc: Global,
    count: usize,
    bounds: &[(BoundKind, u32, Dec)],
) -> Result<Vec<ColumnSides>, AllocError>
    requires { All (λ b. b.column < count) (map bound_of bounds.now) }
    ensures count { IfOk result (λ v. length v.items ≡ count) }
    ensures sets { IfOk result
        (λ v. (j : ℕ) → j < count
        → with_sets (get_or v.items j none_set) j [] ≡ sets_of j (map bound_of bounds.now)) }
{
    let mut columns = no_records(alloc, count)?;
    'bounds: for bound in bounds {
        record(&mut columns, *bound);
    }
    Ok(columns)
}

fn is_either(a: bool, b: bool) -> bool
    ensures { result ≡ a || b }
{
    a || b
}

/// The sides and the kinds of the columns.
#[derive(Drop)]
pub struct Columns {
    pub sides: Vec<Interval>,
    pub kinds: Vec<Kind>,
}

/// The sides and the kinds of all columns.
#[tactic(auto, unfolding(crate::specs::Places::listed))]
pub fn sides_and_kinds(alloc: Global, mps: &Mps) -> Result<Columns, AllocError>
    ensures sides { IfOk result
        (λ c. c.sides.items
        ≡ listed (λ j. sides_from (column_interval (values_of mps.now) j))
        (length mps.now.columns)) }
    ensures kinds { IfOk result
        (λ c. c.kinds.items ≡ listed (column_kind mps.now) (length mps.now.columns)) }
{
    let all = mps.columns();
    let records = by_column(alloc, all.len(), mps.bounds())?;
    let mut sides = Vec::with_capacity(alloc, all.len())?;
    let mut kinds = Vec::with_capacity(alloc, all.len())?;
    'columns: for j in 0..all.len() {
        let column = &all[j];
        let set = records[j];
        let is_set_whole = set.whole;
        let side = column_sides(set);
        let same = side;
        let _lo = side.lo;
        let whole = is_either(column.marked(), is_set_whole);
        let kind = kind_of(whole, same);
        sides.push(side)?;
        kinds.push(kind)?;
    }
    Ok(Columns { sides, kinds })
}
