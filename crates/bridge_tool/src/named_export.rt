// The command export with names: from the text of a file and two lists of names to the text of its
// program with these names, or to a refusal.
ghost use Rattle.std.specs.Prelude.{◌≡◌, ◌+◌, ◌≤◌, length, IfOk};
ghost use Rattle.name_files.specs.Renamed.{HasExportedNames, named};
ghost use Rattle.nl_segments.specs.Reader.{HasLines, value_of};
ghost use Rattle.scaled_program.specs.ExportedProgram.{mps_of};
ghost use Rattle.row_scaling.specs.Exported.{scaled_as};
ghost use Rattle.command_core.specs.InsideAnswer.{IsCounted};
ghost use Rattle.bridge_tool.specs.NamedExport.{AreNamedMeant, Named, NamedComesTo, named_promise};
ghost use Rattle.bridge_tool.specs.InsideExport.{IsNamedTextOf};
ghost use Rattle.command_core.specs.SeveralFiles.{Comes};
ghost use Rattle.command_parts.specs.Stages.{fold_steps};

use command_core::{Answer, Refusal, end};
use command_parts::{exported, fold_read, open_columns, open_nl, open_rows, scale};
use mps_model::{Mps, NameList};
use mps_writer::write_mps;
use name_files::rename;
use nl_segments::NlRead;
use row_scaling::Scaled;
use std::alloc::{AllocError, Global};
use text_base::{Desk, Ledger, Steps, Stop};

// The program with these names; the one without them is let go.
fn renamed(
    alloc: Global,
    plain: Mps,
    rows: &NameList,
    columns: &NameList,
) -> Result<Mps, AllocError>
    requires { HasExportedNames (length rows.now) (length columns.now) plain }
    ensures { IfOk result (λ m. m ≡ named plain rows.now columns.now) }
{
    rename(alloc, &plain, rows, columns)
}

// The written text of the program of a scaled one, with these names.
fn write_named(
    alloc: Global,
    scaled: Scaled,
    rows: &NameList,
    columns: &NameList,
) -> Result<Vec<u8>, AllocError>
    requires { HasExportedNames (length rows.now) (length columns.now) (mps_of (scaled_as scaled)) }
    ensures { IfOk result (λ out. IsNamedTextOf out.items (mps_of (scaled_as scaled)) rows.now
        columns.now) }
{
    let plain = exported(alloc, scaled)?;
    let mps = renamed(alloc, plain, rows, columns)?;
    // for the prover alone: it brings what an `Mps` always keeps
    let _ = mps.rows();
    let out = write_mps(alloc, &mps)?;
    Ok(out)
}

// The bytes to write for a file with names, or why it is refused.
fn to_output<L: Ledger>(
    alloc: Global,
    read: NlRead,
    objective: u32,
    rows: &NameList,
    columns: &NameList,
    steps: &mut Steps<L>,
) -> Result<(bool, Vec<u8>), Stop<Refusal>>
    requires lines { HasLines read }
    requires rows { length rows.now ≡ read.file.counts.n_con }
    requires columns { length columns.now ≡ read.file.counts.n_var }
    ensures comes { (n : Named) → n ≡ record {
      nl = value_of read;
      objective = objective;
      rows = rows.now;
      columns = columns.now;
    } → Comes (NamedComesTo n) result }
    ensures means { (n : Named) → n ≡ record {
      nl = value_of read;
      objective = objective;
      rows = rows.now;
      columns = columns.now;
    } → IfOk result (λ t. AreNamedMeant n) }
    ensures above { steps.old ≤ steps.new }
    ensures counts { (n : Named) → n ≡ record {
      nl = value_of read;
      objective = objective;
      rows = rows.now;
      columns = columns.now;
    } → steps.new ≤ steps.old + fold_steps n.nl n.objective }
{
    let linear = fold_read(alloc, read, objective, steps)?;
    let scaled = scale(alloc, linear, objective)?;
    let out = write_named(alloc, scaled, rows, columns)?;
    Ok((true, out))
}

/// Exports a file with names: reads its text and both lists, judges them, and writes what they come
/// to. Tells nothing.
pub(crate) fn export_named<D: Desk, L: Ledger>(
    alloc: Global,
    file: &str,
    objective: u32,
    rows: &str,
    columns: &str,
    desk: &mut D,
    steps: &mut Steps<L>,
) -> Answer
    ensures { IsCounted
        (named_promise (D.meaning desk.old).texts file.now objective rows.now columns.now)
        (D.meaning desk.old) (D.meaning desk.new) steps.old steps.new result }
{
    let read = match open_nl(alloc, desk, file) {
        Ok(read) => read,
        Err(ended) => return ended,
    };
    let row_names = match open_rows(alloc, desk, &read.file, 2, rows) {
        Ok(names) => names,
        Err(ended) => {
            drop(read);
            return ended;
        }
    };
    let column_names = match open_columns(alloc, desk, &read.file, 3, columns) {
        Ok(names) => names,
        Err(ended) => {
            drop(read);
            drop(row_names);
            return ended;
        }
    };
    let judged = to_output(alloc, read, objective, &row_names, &column_names, steps);
    drop(row_names);
    drop(column_names);
    end(desk, judged)
}
