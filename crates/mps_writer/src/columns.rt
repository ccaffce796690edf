// The columns, with a line before and after each marked stretch.
ghost use Rattle.std.specs.Prelude.{◌≡◌, ◌<◌, ◌^◌, ◌++◌, ◌∷◌, length, codes, map, OnOk, IfOk, All, false};
ghost use Rattle.mps_model.specs.Text.{section, marker_line, change_lines, markers_after, column_lines};
ghost use Rattle.mps_model.specs.Valid.{AreColumns};
ghost use Rattle.exact_numbers.specs.Values.{text_of};
ghost use Rattle.text_base.specs.Names.{IsName};
ghost use Rattle.text_base.specs.WordLines.{line_text, lines_text};

use crate::entries::put_entries;
use mps_model::{MpsColumn, MpsRow};
use std::alloc::AllocError;
use text_base::TextLines;
use written_texts::{LineText, put, put_end, put_line, put_next, put_number};

fn put_marker(out: &mut Vec<u8>, i: u32, word: &[u8]) -> Result<(), AllocError>
    ensures { OnOk result (out.new.items ≡ out.old.items ++ line_text (marker_line i word.now)) }
{
    put(out, b" M")?;
    put_number(out, i as u64)?;
    put(out, b" 'MARKER'")?;
    put_next(out, word)?;
    put_end(out)
}

/// Writes the marker line between two columns, where one is marked and the other is not. Answers the
/// number of marker lines so far.
pub fn put_change(
    out: &mut Vec<u8>,
    before: bool,
    marked: bool,
    markers: u32,
) -> Result<u32, AllocError>
    requires { markers < 2 ^ 31 }
    ensures { IfOk result (λ n. (n ≡ markers_after before marked markers) × (out.new.items
        ≡ out.old.items ++ lines_text (change_lines before marked markers))) }
{
    match (before, marked) {
        (false, true) => {
            put_marker(out, markers, b"'INTORG'")?;
            Ok(markers + 1)
        }
        (true, false) => {
            put_marker(out, markers, b"'INTEND'")?;
            Ok(markers + 1)
        }
        _ => Ok(markers),
    }
}

pub(crate) fn put_columns(
    out: &mut Vec<u8>,
    line: &mut LineText<1024>,
    rows: &[MpsRow],
    names: &TextLines,
    columns: &[MpsColumn],
) -> Result<(), AllocError>
    requires rows { All (λ r. IsName r.name) rows.now }
    requires named { names.now ≡ map (λ r. r.name) rows.now }
    requires columns { AreColumns (length rows.now) columns.now }
    ensures { OnOk result (out.new.items ≡ out.old.items ++ lines_text
        (section (codes "COLUMNS") ∷ column_lines text_of rows.now false 0 columns.now)) }
{
    put_line(out, b"COLUMNS")?;
    let mut before = false;
    let mut markers = 0;
    for column in columns {
        markers = put_change(out, before, column.marked(), markers)?;
        before = column.marked();
        let name = column.name();
        put_entries(out, line, rows, names, name.bytes(), column.entries())?;
    }
    put_change(out, before, false, markers)?;
    Ok(())
}
