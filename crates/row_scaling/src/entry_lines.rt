// The lines of a column's entries, a few at once.
ghost use Rattle.std.specs.Prelude.{◌≡◌, ℕ, ◌<◌, ◌≤◌, ◌++◌, length, map, All, OnOk};
ghost use Rattle.exact_numbers.specs.Values.{value_text};
ghost use Rattle.scaled_program.specs.ExportedProgram.{or_obj_zero};
ghost use Rattle.mps_writer.specs.Names.{name_bytes};
ghost use Rattle.mps_model.specs.Text.{entry_lines, name_of_row};
ghost use Rattle.row_scaling.specs.Scaled.{ScaledValue};
ghost use Rattle.text_base.specs.WordLines.{lines_text};
ghost use Rattle.row_scaling.specs.InsideColumns.{entry_value};
ghost use Rattle.row_scaling.specs.InsideHeads.{AreNumbers};
ghost use Rattle.row_scaling.specs.InsideSections.{all_rows};

use crate::names::numbered;
use crate::numbers::zero;
use crate::pieces::{Pieces, put, put_entry};
use exact_numbers::Dec;
use mps_writer::MpsName;
use std::alloc::AllocError;
use written_texts::LineText;

// So many lines are made at once: there is room for them.
const FEW: usize = 16;

// The name of a row of the program, by the constraints of the exported rows.
fn name_of_row(numbers: &[u32], row: u32) -> MpsName<'static>
    ensures text { (s : ScaledValue) → AreNumbers s numbers.now → row < length (all_rows s)
        → name_bytes result ≡ name_of_row (all_rows s) row }
    ensures short { length (name_bytes result) ≤ 11 }
{
    if row == 0 {
        return MpsName::Word(b"obj");
    }
    match numbers.get((row - 1) as usize) {
        Some(number) => numbered(b'c', *number),
        None => MpsName::Word(b"zdef"),
    }
}

// Writes the lines of a few entries, from the last to the first.
fn put_few(lines: &mut LineText<2048>, numbers: &[u32], column: &MpsName, entries: &[(u32, Dec)])
    requires few { length entries.now ≤ 16 }
    requires short { length (name_bytes column.now) ≤ 11 }
    ensures { (s : ScaledValue) → AreNumbers s numbers.now
        → All (λ t. t.0 < length (all_rows s)) entries.now → lines.new ≡ lines_text
        (entry_lines value_text (all_rows s) (name_bytes column.now)
        (map entry_value entries.now)) }
{
    lines.clear();
    let mut left = entries.len();
    'entries: while left > 0 {
        left -= 1;
        let entry = &entries[left];
        let row = name_of_row(numbers, entry.0);
        mps_writer::put_entry(lines, column, &row, entry.1);
    }
}

/// The entries of a column, with a 0 in the objective where there are none.
#[tactic(auto, using(crate::proofs::LineLemmas::entries_end, crate::proofs::LineLemmas::part_of_entries_written))]
pub(crate) fn put_column(
    out: &mut Pieces,
    lines: &mut LineText<2048>,
    numbers: &[u32],
    column: &MpsName,
    entries: &[(u32, Dec)],
) -> Result<(), AllocError>
    requires { length (name_bytes column.now) ≤ 11 }
    ensures { (s : ScaledValue) → AreNumbers s numbers.now
        → All (λ t. t.0 < length (all_rows s)) entries.now
        → OnOk result (out.new ≡ out.old ++ lines_text
        (entry_lines value_text (all_rows s) (name_bytes column.now)
        (or_obj_zero (map entry_value entries.now)))) }
{
    if entries.is_empty() {
        put_entry(out, lines, column, &MpsName::Word(b"obj"), zero())?;
        return Ok(());
    }
    let mut done = 0usize;
    'parts: while done < entries.len() {
        let size = (entries.len() - done).min(FEW);
        let rest = entries.split_at(done).1;
        put_few(lines, numbers, column, rest.split_at(size).0);
        put(out, lines.bytes())?;
        done += size;
    }
    Ok(())
}
