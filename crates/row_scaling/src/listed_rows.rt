// The sections with lines by row.
ghost use Rattle.std.specs.Prelude.{◌≡◌, ◌≤◌, ◌++◌, length, OnOk};
ghost use Rattle.std.specs.List.{flat_map};
ghost use Rattle.mps_writer.specs.Names.{name_bytes};
ghost use Rattle.row_scaling.specs.Exported.{program_rows};
ghost use Rattle.row_scaling.specs.Parts.{row_named};
ghost use Rattle.row_scaling.specs.Rows.{side_value};
ghost use Rattle.text_base.specs.WordLines.{lines_text};
ghost use Rattle.row_scaling.specs.InsideSections.{lines_in, value_lines};

use crate::names::row_name;
use crate::pieces::{Pieces, put_entry, put_row};
use crate::rows::kind_of;
use crate::sides::right_side;
use crate::{Scaled, ScaledRow};
use exact_numbers::Dec;
use mps_writer::MpsName;
use std::alloc::AllocError;
use written_texts::LineText;

/// A section with lines by row.
#[derive(Clone, Copy)]
pub(crate) enum RowSection {
    Rows,
    Sides,
    Ranges,
}

/// Writes the line of a value at a name, where there is one.
pub(crate) fn put_value(
    out: &mut Pieces,
    line: &mut LineText<2048>,
    word: &[u8],
    name: &MpsName,
    value: Option<Dec>,
) -> Result<(), AllocError>
    requires word { length word.now ≤ 11 }
    requires name { length (name_bytes name.now) ≤ 11 }
    ensures { OnOk result (out.new
        ≡ out.old ++ lines_text (value_lines word.now (name_bytes name.now) (side_value value))) }
{
    let Some(number) = value else {
        return Ok(());
    };
    put_entry(out, line, &MpsName::Word(word), name, number)?;
    Ok(())
}

// Writes the line of a row of this name in a section, where it has one.
fn put_row_in(
    out: &mut Pieces,
    line: &mut LineText<2048>,
    section: RowSection,
    name: &MpsName,
    row: &ScaledRow,
) -> Result<(), AllocError>
    requires { length (name_bytes name.now) ≤ 11 }
    ensures { OnOk result (out.new
        ≡ out.old ++ lines_text (lines_in section (row_named (name_bytes name.now) row.now))) }
{
    match section {
        RowSection::Rows => put_row(out, line, name, kind_of(row)),
        RowSection::Sides => put_value(out, line, b"RHS", name, right_side(row)),
        RowSection::Ranges => put_value(out, line, b"RNG", name, row.range()),
    }
}

/// Writes the lines of the rows in a section.
pub(crate) fn put_listed(
    out: &mut Pieces,
    line: &mut LineText<2048>,
    section: RowSection,
    scaled: &Scaled,
) -> Result<(), AllocError>
    ensures { OnOk result (out.new
        ≡ out.old ++ lines_text (flat_map (lines_in section) (program_rows scaled.now))) }
{
    let n = scaled.constraints();
    let rows = scaled.program_rows();
    for (i, row) in rows.iter().enumerate() {
        let Some(factored) = row else {
            continue;
        };
        let name = row_name(n, i as u32);
        put_row_in(out, line, section, &name, &factored.row)?;
    }
    Ok(())
}
