// The bounds of a program.
ghost use Rattle.std.specs.Prelude.{◌≡◌, ◌<◌, [], length, OnOk, All, map};
ghost use Rattle.exact_numbers.specs.Values.{dec_value};
ghost use Rattle.mps_model.specs.Mps.{bound_with};
ghost use Rattle.scaled_program.specs.ExportedProgram.{bounds_of, column_bounds};
ghost use Rattle.row_scaling.specs.Parts.{column_count};
ghost use Rattle.row_scaling.specs.Exported.{program_variables};
ghost use Rattle.row_scaling.specs.InsideFilling.{AreBoundsAdded, AreBoundsOf};
ghost use Rattle.row_scaling.specs.Rows.{side_value};

use crate::Scaled;
use crate::numbers::{same_value, zero};
use exact_numbers::Dec;
use linear_program::Interval;
use mps_model::{BoundKind, MpsBuilder};
use std::alloc::AllocError;

// The bounds of a column of these sides: one, or a lower and an upper one.
#[tactic(auto, using(crate::proofs::AddLemmas::of_none, crate::proofs::AddLemmas::of_upper, crate::proofs::AddLemmas::of_lower, crate::proofs::AddLemmas::of_one, crate::proofs::AddLemmas::of_both))]
pub(crate) fn side_bounds(side: Interval) -> ((BoundKind, Dec), Option<(BoundKind, Dec)>)
    ensures { AreBoundsOf side result.0 result.1 }
{
    match (side.lo, side.hi) {
        (None, None) => ((BoundKind::Fr, zero()), None),
        (None, Some(upper)) => ((BoundKind::Mi, zero()), Some((BoundKind::Up, upper))),
        (Some(lower), None) => ((BoundKind::Lo, lower), Some((BoundKind::Pl, zero()))),
        (Some(lower), Some(upper)) => {
            if same_value(lower, upper) {
                return ((BoundKind::Fx, lower), None);
            }
            ((BoundKind::Lo, lower), Some((BoundKind::Up, upper)))
        }
    }
}

// Adds the bounds of column j, both sides by name.
fn add_column_bounds(builder: &mut MpsBuilder, j: u32, side: Interval) -> Result<(), AllocError>
    requires within { j < length builder.old.columns }
    requires before { All (λ b. b.column < j) builder.old.bounds }
    ensures only { OnOk result (builder.new ≡ record builder.old { bounds = builder.new.bounds }) }
    ensures added { OnOk result
        (AreBoundsAdded j (column_bounds j (side_value side.lo) (side_value side.hi))
        builder.old.bounds builder.new.bounds) }
{
    let bounds = side_bounds(side);
    let first = bounds.0;
    builder.add_bound(first.0, j, first.1)?;
    let Some((kind, value)) = bounds.1 else {
        return Ok(());
    };
    builder.add_bound(kind, j, value)?;
    Ok(())
}

// Adds all bounds, column by column.
pub(crate) fn add_bounds(builder: &mut MpsBuilder, scaled: &Scaled) -> Result<(), AllocError>
    requires count { length builder.old.columns ≡ column_count scaled.now }
    requires empty { builder.old.bounds ≡ [] }
    ensures only { OnOk result (builder.new ≡ record builder.old { bounds = builder.new.bounds }) }
    ensures value { OnOk result
        (map (bound_with dec_value) builder.new.bounds
        ≡ bounds_of 0 (program_variables scaled.now)) }
{
    let bounds = scaled.program_bounds();
    for (j, side) in bounds.iter().enumerate() {
        add_column_bounds(builder, j as u32, *side)?;
    }
    Ok(())
}
