// The terms of the file: their number, and how they are added.
ghost use Rattle.std.specs.Prelude.{◌≡◌, ◌<◌, ◌≤◌, ◌+◌, ◌&&◌, [], ◌∷◌, cond, drop, get_or, length, map, replicate, MatchOption, OnOk, All, false, not};
ghost use Rattle.mps_model.specs.Built.{entry_of};
ghost use Rattle.nl_model.specs.Rules.{most_terms};
ghost use Rattle.mps_import.specs.Faults.{is_too_large};
ghost use Rattle.mps_import.specs.Import.{constraint_terms, import_counts, objective_terms};
ghost use Rattle.mps_program.specs.Program.{constraints};
ghost use Rattle.mps_program.specs.Terms.{is_zero_dec};
ghost use Rattle.mps_program.specs.Places.{listed, one_if};
ghost use Rattle.mps_import.specs.InsideUses.{CanAddTerm, IsOnItsWay, hits, hits_in, is_constraint_at, is_constraint_use, is_objective_at, is_objective_use, terms_left, use_of, with_term};
ghost use Rattle.mps_import.specs.declared.rows.RowUse.TheVariants.{Unused};
ghost use Rattle.mps_import.specs.Variables.{order_of_columns};

use crate::rows::RowUse;
use exact_numbers::Dec;
use mps_model::Mps;
use mps_program::{is_zero, with_one};
use nl_model::NlBuilder;
use std::alloc::AllocError;

// The most terms of the constraints and the objective together.
const MOST_TERMS: u32 = 0x40_0000;

// How many entries of the constraints and of the objective are not 0.
#[derive(Clone, Copy)]
pub(crate) struct Counted {
    pub(crate) constraints: u32,
    pub(crate) objective: u32,
}

// The counts with one entry more.
fn with_entry(counted: Counted, row_use: RowUse, is_zero: bool) -> Counted
    requires { counted.constraints + counted.objective ≤ most_terms }
    ensures constraints { result.constraints
        ≡ counted.constraints + one_if (is_constraint_use row_use && not is_zero) }
    ensures objective { result.objective
        ≡ counted.objective + one_if (is_objective_use row_use && not is_zero) }
{
    match row_use {
        RowUse::Unused => counted,
        RowUse::Objective => Counted {
            constraints: counted.constraints,
            objective: with_one(counted.objective, !is_zero),
        },
        RowUse::Constraint(_) => Counted {
            constraints: with_one(counted.constraints, !is_zero),
            objective: counted.objective,
        },
    }
}

// What this row is.
fn use_at(uses: &[RowUse], row: u32) -> RowUse
    requires { row < length uses.now }
    ensures { result ≡ get_or uses.now row Unused }
{
    uses[row as usize]
}

// The counts with the entries of a column. None exactly where they are too many.
fn with_entries(counted: Counted, entries: &[(u32, Dec)], uses: &[RowUse]) -> Option<Counted>
    requires few { counted.constraints + counted.objective ≤ most_terms }
    requires within { All (λ e. e.row < length uses.now) (map entry_of entries.now) }
    ensures { MatchOption result
        (most_terms < counted.constraints + counted.objective
        + (hits (is_constraint_at uses.now) (map entry_of entries.now)
        + hits (is_objective_at uses.now) (map entry_of entries.now)))
        (λ c. (c.constraints
        ≡ counted.constraints + hits (is_constraint_at uses.now) (map entry_of entries.now))
        × (c.objective
        ≡ counted.objective + hits (is_objective_at uses.now) (map entry_of entries.now))
        × (c.constraints + c.objective ≤ most_terms)) }
{
    let mut count = counted;
    'entries: for entry in entries {
        let what = use_at(uses, entry.0);
        let zero = is_zero(entry.1);
        count = with_entry(count, what, zero);
        if count.constraints + count.objective > MOST_TERMS {
            return None;
        }
    }
    Some(count)
}

// The entries of the columns in order that are not 0. None exactly where they are too many.
pub(crate) fn count_terms(mps: &Mps, order: &[u32], uses: &[RowUse]) -> Option<Counted>
    requires order { All (λ j. j < length mps.now.columns) order.now }
    requires uses { length uses.now ≡ length mps.now.rows }
    ensures { MatchOption result
        (most_terms < hits_in (is_constraint_at uses.now) mps.now order.now
        + hits_in (is_objective_at uses.now) mps.now order.now)
        (λ c. (c.constraints ≡ hits_in (is_constraint_at uses.now) mps.now order.now)
        × (c.objective ≡ hits_in (is_objective_at uses.now) mps.now order.now)
        × (c.constraints + c.objective ≤ most_terms)) }
{
    let columns = mps.columns();
    let mut count = Counted {
        constraints: 0,
        objective: 0,
    };
    'columns: for j in order {
        let column = &columns[*j as usize];
        let Some(next) = with_entries(count, column.entries(), uses) else {
            return None;
        };
        count = next;
    }
    Some(count)
}

// Adds a term to what its row is.
fn add_term(
    builder: &mut NlBuilder,
    variable: u32,
    row_use: RowUse,
    value: Dec,
) -> Result<(), AllocError>
    requires variable { variable < builder.old.counts.n_var }
    requires can { CanAddTerm row_use builder.old }
    ensures { OnOk result (builder.new ≡ with_term row_use variable value builder.old) }
{
    match row_use {
        RowUse::Unused => {}
        RowUse::Objective => builder.slope(0, variable, value)?,
        RowUse::Constraint(con) => builder.term(con, variable, value)?,
    }
    Ok(())
}

// Adds the term of an entry, where it is not 0.
fn add_entry(
    builder: &mut NlBuilder,
    variable: u32,
    row_use: RowUse,
    value: Dec,
) -> Result<(), AllocError>
    requires variable { variable < builder.old.counts.n_var }
    requires can { is_zero_dec value ≡ false → CanAddTerm row_use builder.old }
    ensures { OnOk result (builder.new
        ≡ cond (is_zero_dec value) builder.old (with_term row_use variable value builder.old)) }
{
    if is_zero(value) {
        return Ok(());
    }
    add_term(builder, variable, row_use, value)
}

// Adds the terms of variable p.
fn add_column(
    builder: &mut NlBuilder,
    mps: &Mps,
    order: &[u32],
    p: usize,
    uses: &[RowUse],
) -> Result<(), AllocError>
    requires place { p < length order.now }
    requires order { order.now ≡ order_of_columns mps.now }
    requires uses { uses.now ≡ listed (use_of mps.now.rows) (length mps.now.rows) }
    requires clean { is_too_large mps.now ≡ false }
    requires before { IsOnItsWay mps.now (terms_left mps.now p (drop p order.now)) builder.old }
    ensures after { OnOk result
        (IsOnItsWay mps.now (terms_left mps.now (p + 1) (drop (p + 1) order.now)) builder.new) }
    ensures only { OnOk result
        (builder.new
        ≡ record builder.old { terms = builder.new.terms; slopes = builder.new.slopes }) }
{
    let columns = mps.columns();
    let j = order[p] as usize;
    let column = &columns[j];
    let entries = column.entries();
    'entries: for entry in entries {
        let what = use_at(uses, entry.0);
        add_entry(builder, p as u32, what, entry.1)?;
    }
    Ok(())
}

// Adds the terms of all variables.
pub(crate) fn add_terms(
    builder: &mut NlBuilder,
    mps: &Mps,
    order: &[u32],
    uses: &[RowUse],
) -> Result<(), AllocError>
    requires order { order.now ≡ order_of_columns mps.now }
    requires uses { uses.now ≡ listed (use_of mps.now.rows) (length mps.now.rows) }
    requires clean { is_too_large mps.now ≡ false }
    requires counts { builder.old.counts ≡ import_counts mps.now }
    requires terms { builder.old.terms ≡ replicate (length (constraints mps.now.rows)) [] }
    requires slopes { builder.old.slopes ≡ [] ∷ [] }
    ensures { OnOk result (builder.new
        ≡ record builder.old {
          terms = constraint_terms mps.now;
          slopes = objective_terms mps.now ∷ [];
        }) }
{
    'variables: for p in 0..order.len() {
        add_column(builder, mps, order, p, uses)?;
    }
    Ok(())
}
