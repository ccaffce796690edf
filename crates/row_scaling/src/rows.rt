// The rows of a program.
ghost use Rattle.std.specs.Prelude.{◌≡◌, ℕ, ◌+◌, ◌<◌, ◌≤◌, ◌^◌, ◌++◌, ◌∷◌, [], length, OnOk, All, map};
ghost use Rattle.mps_model.specs.Valid.{IsOtherRow};
ghost use Rattle.mps_model.specs.declared.kinds.RowKind.TheVariants.{N};
ghost use Rattle.scaled_program.specs.ExportedProgram.{kind_of_row, mps_row, obj_name};
ghost use Rattle.row_scaling.specs.Exported.{program_rows};
ghost use Rattle.row_scaling.specs.Parts.{name_in, rows_in};
ghost use Rattle.row_scaling.specs.Rows.{side_value};

use crate::names::{name_of, row_name};
use crate::{FactoredRow, Scaled, ScaledRow};
use mps_model::{MpsBuilder, RowKind};
use mps_writer::MpsName;
use std::alloc::{AllocError, Global};

// E where both sides are there and do not differ, G with a range where they do.
pub(crate) fn kind_of(row: &ScaledRow) -> RowKind
    ensures { result ≡ kind_of_row (side_value row.now.side.lo) (side_value row.now.side.hi) }
{
    match (row.side.lo, row.side.hi) {
        (None, None) => RowKind::N,
        (None, Some(_)) => RowKind::L,
        (Some(_), None) => RowKind::G,
        (Some(_), Some(_)) => match row.range() {
            None => RowKind::E,
            Some(_) => RowKind::G,
        },
    }
}

// Adds the rows of a list that are there, row n being that of a tie.
#[tactic(auto, using(scaled_program::proofs::Names::constraint_is_name, scaled_program::proofs::Names::zdef_is_name, crate::proofs::AddLemmas::one_is_name))]
fn add_listed_rows(
    builder: &mut MpsBuilder,
    alloc: Global,
    rows: &[Option<FactoredRow>],
    n: usize,
) -> Result<(), AllocError>
    requires few { length builder.old.rows + length rows.now < 2 ^ 21 }
    requires short { length rows.now ≤ n + 1 }
    requires small { n ≤ 2 ^ 20 }
    requires other { (k : ℕ) → All (IsOtherRow (name_in n k)) builder.old.rows }
    ensures { OnOk result (builder.new ≡ record builder.old {
      rows = builder.old.rows ++ map mps_row (rows_in (name_in n) 0 rows.now);
    }) }
{
    for (i, row) in rows.iter().enumerate() {
        let Some(factored) = row else {
            continue;
        };
        let name = row_name(n, i as u32);
        let kind = kind_of(&factored.row);
        builder.add_row(name_of(alloc, &name)?, kind)?;
    }
    Ok(())
}

// Adds all rows, the objective first.
pub(crate) fn add_rows(
    builder: &mut MpsBuilder,
    alloc: Global,
    scaled: &Scaled,
) -> Result<(), AllocError>
    requires { builder.old.rows ≡ [] }
    ensures { OnOk result (builder.new ≡ record builder.old {
      rows = record { name = obj_name; kind = N } ∷ map mps_row (program_rows scaled.now);
    }) }
{
    let name = name_of(alloc, &MpsName::Word(b"obj"))?;
    builder.add_row(name, RowKind::N)?;
    add_listed_rows(builder, alloc, scaled.program_rows(), scaled.constraints())?;
    Ok(())
}
