// The command export: from the text of a file to the text of its program, or to a refusal.
ghost use Rattle.std.specs.Prelude.{◌≡◌, ◌+◌, ◌≤◌, IfOk};
ghost use Rattle.std.specs.List.{flat_map};
ghost use Rattle.exact_numbers.specs.Values.{value_text};
ghost use Rattle.mps_model.specs.Text.{mps_text_by};
ghost use Rattle.nl_segments.specs.Reader.{HasLines, value_of};
ghost use Rattle.scaled_program.specs.ExportedProgram.{mps_of};
ghost use Rattle.row_scaling.specs.Exported.{scaled_as};
ghost use Rattle.command_core.specs.InsideAnswer.{IsCounted};
ghost use Rattle.bridge_tool.specs.Export.{ExportsAs, IsExportMeant, export_promise};
ghost use Rattle.command_core.specs.SeveralFiles.{ComesInPieces};
ghost use Rattle.command_parts.specs.Stages.{fold_steps};

use command_core::{Answer, Refusal, end_in_pieces};
use command_parts::{fold_read, open_nl, scale};
use nl_segments::NlRead;
use row_scaling::{Scaled, text_in_pieces};
use std::alloc::{AllocError, Global};
use text_base::{Desk, Ledger, Steps, Stop};

// The written text of the program of a scaled one.
fn write_program(alloc: Global, scaled: Scaled) -> Result<Vec<Vec<u8>>, AllocError>
    ensures { IfOk result (λ out. flat_map (λ p. p.items) out.items
        ≡ mps_text_by value_text (mps_of (scaled_as scaled))) }
{
    text_in_pieces(alloc, scaled)
}

// The bytes to write for a file, or why it is refused.
fn to_output<L: Ledger>(
    alloc: Global,
    read: NlRead,
    objective: u32,
    steps: &mut Steps<L>,
) -> Result<(bool, Vec<Vec<u8>>), Stop<Refusal>>
    requires { HasLines read }
    ensures comes { ComesInPieces (ExportsAs (value_of read) objective) result }
    ensures means { IfOk result (λ t. IsExportMeant (value_of read) objective) }
    ensures above { steps.old ≤ steps.new }
    ensures counts { steps.new ≤ steps.old + fold_steps (value_of read) objective }
{
    let linear = fold_read(alloc, read, objective, steps)?;
    let scaled = scale(alloc, linear, objective)?;
    let out = write_program(alloc, scaled)?;
    Ok((true, out))
}

/// Exports a file: reads its text, judges it, and writes what it comes to. Tells nothing.
pub(crate) fn export<D: Desk, L: Ledger>(
    alloc: Global,
    file: &str,
    objective: u32,
    desk: &mut D,
    steps: &mut Steps<L>,
) -> Answer
    ensures { IsCounted (export_promise (D.meaning desk.old).texts file.now objective)
        (D.meaning desk.old) (D.meaning desk.new) steps.old steps.new result }
{
    let read = match open_nl(alloc, desk, file) {
        Ok(read) => read,
        Err(ended) => return ended,
    };
    let judged = to_output(alloc, read, objective, steps);
    end_in_pieces(desk, judged)
}
