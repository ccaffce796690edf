// The right sides and ranges of a program.
ghost use Rattle.std.specs.Prelude.{◌≡◌, ℕ, ◌+◌, ◌<◌, ◌≤◌, ◌^◌, ◌++◌, ◌∷◌, [], length, OnOk, All, map};
ghost use Rattle.exact_numbers.specs.Rational.{neg_ℚ};
ghost use Rattle.exact_numbers.specs.Values.{dec_value};
ghost use Rattle.mps_model.specs.Mps.{entry_with};
ghost use Rattle.mps_model.specs.Valid.{IsBounded};
ghost use Rattle.mps_model.specs.declared.kinds.RowKind.TheVariants.{N};
ghost use Rattle.scaled_program.specs.ExportedProgram.{entries_of, mps_row, obj_name, rhs_of, with_entry};
ghost use Rattle.scaled_program.specs.Program.{nonzero, range_of};
ghost use Rattle.row_scaling.specs.Exported.{program_objective, program_rows};
ghost use Rattle.row_scaling.specs.Rows.{side_value};
ghost use Rattle.row_scaling.specs.InsideSides.{IsEntryAdded, right_side_of, range_in};

use crate::numbers::{negated, nonzero};
use crate::{Scaled, ScaledRow};
use exact_numbers::Dec;
use mps_model::MpsBuilder;
use std::alloc::AllocError;

// The lower side, or else the upper one, but none where it is 0.
pub(crate) fn right_side(row: &ScaledRow) -> Option<Dec>
    ensures { side_value result
        ≡ nonzero (rhs_of (side_value row.now.side.lo) (side_value row.now.side.hi)) }
{
    match (row.side.lo, row.side.hi) {
        (Some(side), _) => nonzero(side),
        (None, Some(side)) => nonzero(side),
        (None, None) => None,
    }
}

// Adds a right side, where there is one.
fn add_right_side(builder: &mut MpsBuilder, place: u32, side: Option<Dec>) -> Result<(), AllocError>
    requires within { place < length builder.old.rows }
    requires before { All (λ e. e.row < place) builder.old.rhs }
    ensures only { OnOk result (builder.new ≡ record builder.old { rhs = builder.new.rhs }) }
    ensures added { OnOk result
        (IsEntryAdded place (side_value side) builder.old.rhs builder.new.rhs) }
{
    let Some(value) = side else {
        return Ok(());
    };
    builder.add_rhs(place, value)
}

// Adds a range, where there is one.
fn add_range(builder: &mut MpsBuilder, place: u32, range: Option<Dec>) -> Result<(), AllocError>
    requires within { place < length builder.old.rows }
    requires bounded { IsBounded builder.old.rows place }
    requires before { All (λ e. e.row < place) builder.old.ranges }
    ensures only { OnOk result (builder.new ≡ record builder.old { ranges = builder.new.ranges }) }
    ensures added { OnOk result
        (IsEntryAdded place (side_value range) builder.old.ranges builder.new.ranges) }
{
    let Some(value) = range else {
        return Ok(());
    };
    builder.add_range(place, value)
}

// Adds the right sides of the rows.
fn add_row_sides(builder: &mut MpsBuilder, scaled: &Scaled) -> Result<(), AllocError>
    requires within { length builder.old.rows ≡ 1 + length (program_rows scaled.now) }
    requires before { All (λ e. e.row < 1) builder.old.rhs }
    ensures only { OnOk result (builder.new ≡ record builder.old { rhs = builder.new.rhs }) }
    ensures added { OnOk result
        (map (entry_with dec_value) builder.new.rhs
        ≡ map (entry_with dec_value) builder.old.rhs
        ++ entries_of right_side_of 1 (program_rows scaled.now)) }
{
    let rows = scaled.program_rows();
    let mut place = 1;
    for row in rows {
        let Some(factored) = row else {
            continue;
        };
        let side = right_side(&factored.row);
        add_right_side(builder, place, side)?;
        place += 1;
    }
    Ok(())
}

// Adds the ranges of the rows.
pub(crate) fn add_ranges(builder: &mut MpsBuilder, scaled: &Scaled) -> Result<(), AllocError>
    requires rows { builder.old.rows
        ≡ record { name = obj_name; kind = N } ∷ map mps_row (program_rows scaled.now) }
    requires empty { builder.old.ranges ≡ [] }
    ensures only { OnOk result (builder.new ≡ record builder.old { ranges = builder.new.ranges }) }
    ensures value { OnOk result
        (map (entry_with dec_value) builder.new.ranges
        ≡ entries_of range_in 1 (program_rows scaled.now)) }
{
    let rows = scaled.program_rows();
    let mut place = 1;
    for row in rows {
        let Some(factored) = row else {
            continue;
        };
        let range = factored.row.range();
        add_range(builder, place, range)?;
        place += 1;
    }
    Ok(())
}

// Adds the right sides: minus the constant of the objective comes first.
pub(crate) fn add_sides(builder: &mut MpsBuilder, scaled: &Scaled) -> Result<(), AllocError>
    requires within { length builder.old.rows ≡ 1 + length (program_rows scaled.now) }
    requires empty { builder.old.rhs ≡ [] }
    ensures only { OnOk result (builder.new ≡ record builder.old { rhs = builder.new.rhs }) }
    ensures value { OnOk result
        (map (entry_with dec_value) builder.new.rhs
        ≡ with_entry 0 (nonzero (neg_ℚ (program_objective scaled.now).constant))
        (entries_of right_side_of 1 (program_rows scaled.now))) }
{
    let objective = scaled.program_objective();
    let side = nonzero(negated(objective.constant));
    add_right_side(builder, 0, side)?;
    add_row_sides(builder, scaled)?;
    Ok(())
}
