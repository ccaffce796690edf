//! The written text of MPS programs: free MPS, one spelling for each program, and its lines.
#![tactic(auto)]

ghost use Rattle.std.specs.Prelude.{◌≡◌, ◌++◌, ◌∷◌, OnOk, IfOk, map, codes};
ghost use Rattle.exact_numbers.specs.Values.{dec_value, text_of, value_text};
ghost use Rattle.mps_model.specs.Mps.{with_values};
ghost use Rattle.mps_model.specs.Text.{mps_text_by, name_lines, sense_lines, section, row_line};
ghost use Rattle.text_base.specs.WordLines.{lines_text};

mod bounds;
mod columns;
mod entries;
mod lines;
mod names;

use bounds::put_bounds;
pub use columns::put_change;
use columns::put_columns;
use entries::{put_ranges, put_rhs, row_names};
pub use lines::{put_bound, put_entry, put_row};
use mps_model::{Mps, MpsRow};
pub use names::{MpsName, put_name};
use std::alloc::{AllocError, Global};
use written_texts::{LineText, put, put_end, put_line, put_next};

// The line of the name; none where the name is empty.
fn put_program_name(out: &mut Vec<u8>, mps: &Mps) -> Result<(), AllocError>
    ensures { OnOk result (out.new.items ≡ out.old.items ++ lines_text (name_lines mps.now.name)) }
{
    if let Some(name) = mps.name() {
        put(out, b"NAME")?;
        put_next(out, name.bytes())?;
        put_end(out)?;
    }
    Ok(())
}

/// Writes the sense where the objective is maximised; nothing where it is minimised.
pub fn put_sense(out: &mut Vec<u8>, maximise: bool) -> Result<(), AllocError>
    ensures { OnOk result (out.new.items ≡ out.old.items ++ lines_text (sense_lines maximise)) }
{
    if maximise {
        put(out, b"OBJSENSE\n MAX\n")?;
    }
    Ok(())
}

fn put_row_lines(
    out: &mut Vec<u8>,
    line: &mut LineText<1024>,
    rows: &[MpsRow],
) -> Result<(), AllocError>
    ensures { OnOk result (out.new.items ≡ out.old.items ++ lines_text (map row_line rows.now)) }
{
    for row in rows {
        line.clear();
        put_row(line, &MpsName::Word(row.name.bytes()), row.kind);
        put(out, line.bytes())?;
    }
    Ok(())
}

fn put_rows(out: &mut Vec<u8>, line: &mut LineText<1024>, rows: &[MpsRow]) -> Result<(), AllocError>
    ensures { OnOk result (out.new.items
        ≡ out.old.items ++ lines_text (section (codes "ROWS") ∷ map row_line rows.now)) }
{
    put_line(out, b"ROWS")?;
    put_row_lines(out, line, rows)
}

// Room for the text, at 24 bytes a line. It only spares copies: the text grows where it does not
// suffice.
fn text_room(mps: &Mps) -> usize {
    let mut lines = mps.rows().len() + mps.rhs().len() + mps.ranges().len() + mps.bounds().len();
    for column in mps.columns() {
        lines = lines.saturating_add(column.entries().len());
    }
    lines.saturating_mul(24)
}

/// The one written text of a program.
pub fn write_mps(alloc: Global, mps: &Mps) -> Result<Vec<u8>, AllocError>
    ensures spelling { IfOk result (λ v. v.items ≡ mps_text_by text_of mps.now) }
    ensures text { IfOk result
        (λ v. v.items ≡ mps_text_by value_text (with_values dec_value mps.now)) }
{
    let rows = mps.rows();
    let columns = mps.columns();
    let rhs = mps.rhs();
    let ranges = mps.ranges();
    let bounds = mps.bounds();
    let names = row_names(alloc, rows)?;
    let mut line = LineText::<1024>::new();
    let mut out = Vec::with_capacity(alloc, text_room(mps))?;
    put_program_name(&mut out, mps)?;
    put_sense(&mut out, mps.maximise())?;
    put_rows(&mut out, &mut line, rows)?;
    put_columns(&mut out, &mut line, rows, &names, columns)?;
    put_rhs(&mut out, &mut line, rows, &names, rhs)?;
    put_ranges(&mut out, &mut line, rows, &names, ranges)?;
    put_bounds(&mut out, &mut line, columns, bounds)?;
    put_line(&mut out, b"ENDATA")?;
    Ok(out)
}
