// The lines of the bounds.
ghost use Rattle.std.specs.Prelude.{◌≡◌, ◌≤◌, ◌++◌, ◌∷◌, length, map, codes, OnOk};
ghost use Rattle.exact_numbers.specs.Values.{value_text};
ghost use Rattle.scaled_program.specs.ExportedProgram.{column_bounds};
ghost use Rattle.mps_model.specs.Text.{bound_line, section};
ghost use Rattle.mps_writer.specs.Names.{name_bytes};
ghost use Rattle.row_scaling.specs.Rows.{side_value};
ghost use Rattle.text_base.specs.WordLines.{lines_text, unless_empty};
ghost use Rattle.row_scaling.specs.InsideColumns.{column_in};
ghost use Rattle.row_scaling.specs.InsideSections.{all_bounds, all_columns, named_bound, second_lines};

use crate::Scaled;
use crate::bounds::side_bounds;
use crate::names::column_name;
use crate::pieces::{Pieces, put, put_line};
use exact_numbers::Dec;
use linear_program::Interval;
use mps_model::BoundKind;
use mps_writer::{MpsName, put_bound};
use std::alloc::AllocError;
use written_texts::LineText;

// Writes the line of a second bound, where there is one.
fn put_second(line: &mut LineText<2048>, column: &MpsName, second: Option<(BoundKind, Dec)>)
    requires { length (name_bytes column.now) ≤ 11 }
    ensures text { line.new ≡ lines_text (second_lines (name_bytes column.now) second) }
    ensures short { length line.new ≤ 100 }
{
    line.clear();
    let Some(bound) = second else {
        return;
    };
    put_bound(line, column, bound.0, bound.1);
}

// The bounds of column j, both sides by name; the second is written first.
fn put_column_bounds(
    out: &mut Pieces,
    line: &mut LineText<2048>,
    n: usize,
    j: u32,
    side: Interval,
) -> Result<(), AllocError>
    ensures { OnOk result (out.new ≡ out.old ++ lines_text
        (map (named_bound (column_in n j))
        (column_bounds j (side_value side.lo) (side_value side.hi)))) }
{
    let name = column_name(n, j);
    let bounds = side_bounds(side);
    let first = bounds.0;
    put_second(line, &name, bounds.1);
    put_bound(line, &name, first.0, first.1);
    put(out, line.bytes())?;
    Ok(())
}

// The bounds of the columns.
fn put_listed_bounds(out: &mut Pieces, scaled: &Scaled) -> Result<(), AllocError>
    ensures { OnOk result (out.new ≡ out.old ++ lines_text
        (map (bound_line value_text (all_columns scaled.now)) (all_bounds scaled.now))) }
{
    let n = scaled.variables();
    let bounds = scaled.program_bounds();
    let mut line = LineText::<2048>::new();
    for (j, side) in bounds.iter().enumerate() {
        put_column_bounds(out, &mut line, n, j as u32, *side)?;
    }
    Ok(())
}

/// Writes the bounds; nothing where there is no column.
pub(crate) fn put_bounds(out: &mut Pieces, scaled: &Scaled) -> Result<(), AllocError>
    ensures { OnOk result (out.new ≡ out.old ++ lines_text
        (unless_empty (all_bounds scaled.now) (section (codes "BOUNDS")
        ∷ map (bound_line value_text (all_columns scaled.now)) (all_bounds scaled.now)))) }
{
    let bounds = scaled.program_bounds();
    if bounds.is_empty() {
        return Ok(());
    }
    put_line(out, b"BOUNDS")?;
    put_listed_bounds(out, scaled)?;
    Ok(())
}
