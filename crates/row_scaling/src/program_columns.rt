// The columns of a program.
ghost use Rattle.std.specs.Prelude.{◌≡◌, ℕ, ◌+◌, ◌<◌, ◌≤◌, ◌^◌, ◌++◌, ◌∷◌, [], length, OnOk, IfOk, All, map};
ghost use Rattle.mps_model.specs.Built.{CanAddColumn};
ghost use Rattle.mps_model.specs.Valid.{entry_count};
ghost use Rattle.linear_program.specs.Intervals.{is_whole_kind};
ghost use Rattle.row_scaling.specs.InsideColumns.{AreColumns, entries_in_column, total_of};
ghost use Rattle.row_scaling.specs.Exported.{program_rows};
ghost use Rattle.row_scaling.specs.Parts.{column_count};
ghost use Rattle.row_scaling.specs.InsideFilled.{AreFilled};
ghost use Rattle.row_scaling.specs.InsideFilling.{AreRising, column_from, or_first, with_column};
ghost use Rattle.row_scaling.specs.Scaled.{term_count};

use crate::Scaled;
use crate::names::{column_name, name_of};
use crate::numbers::zero;
use exact_numbers::Dec;
use linear_program::Kind;
use mps_model::MpsBuilder;
use std::alloc::{AllocError, Global};
use text_base::Name;

// Whether a variable of this kind is whole.
pub(crate) fn is_whole(kind: Kind) -> bool
    ensures { result ≡ is_whole_kind kind }
{
    match kind {
        Kind::Continuous => false,
        Kind::Binary | Kind::Integer => true,
    }
}

// The entries, with the number zero in row 0 where there are none.
fn or_zero(entries: Vec<(u32, Dec)>, zero: Dec) -> Result<Vec<(u32, Dec)>, AllocError>
    ensures { IfOk result (λ v. v.items ≡ or_first (0, zero) entries.items) }
{
    if !entries.is_empty() {
        return Ok(entries);
    }
    let mut first = entries;
    first.push((0, zero))?;
    Ok(first)
}

// Adds a column, with the number zero in row 0 where it has no entries.
fn add_column(
    builder: &mut MpsBuilder,
    name: Name,
    marked: bool,
    entries: Vec<(u32, Dec)>,
    zero: Dec,
) -> Result<(), AllocError>
    requires can { CanAddColumn builder.old name }
    requires some { 0 < length builder.old.rows }
    requires few { entry_count builder.old.columns + length entries.items < 2 ^ 24 }
    requires rising { AreRising (length builder.old.rows) entries.items }
    ensures { OnOk result
        (builder.new ≡ with_column builder.old (column_from name marked entries.items zero)) }
{
    let filled = or_zero(entries, zero)?;
    builder.add_column(name, marked, filled)?;
    Ok(())
}

// Adds all columns.
#[tactic(auto, using(crate::proofs::AddLemmas::count_within, crate::proofs::AddLemmas::all_filled, crate::proofs::AddLemmas::one_is_name, scaled_program::proofs::Names::variable_is_name, scaled_program::proofs::Names::z_is_name))]
pub(crate) fn add_columns(
    builder: &mut MpsBuilder,
    alloc: Global,
    scaled: &Scaled,
    columns: Vec<Vec<(u32, Dec)>>,
) -> Result<(), AllocError>
    requires rows { length builder.old.rows ≡ 1 + length (program_rows scaled.now) }
    requires empty { builder.old.columns ≡ [] }
    requires columns { AreColumns (λ c. c.items) (column_count scaled.now)
        (entries_in_column scaled.now) columns.items }
    requires total { total_of (λ c. c.items) columns.items ≤ term_count scaled.now + 2 }
    ensures only { OnOk result (builder.new ≡ record builder.old {
      columns = builder.new.columns;
    }) }
    ensures whole { OnOk result (AreFilled scaled.now builder.new.columns) }
{
    let n = scaled.variables();
    let kinds = scaled.program_kinds();
    let mut rest = columns.into_iter();
    for (j, kind) in kinds.iter().enumerate() {
        let name = column_name(n, j as u32);
        let Some(entries) = rest.next() else {
            unreachable!()
        };
        let name = name_of(alloc, &name)?;
        add_column(builder, name, is_whole(*kind), entries, zero())?;
    }
    Ok(())
}
