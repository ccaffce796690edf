// The command make: the instance of a seed and a size is written, read, folded and exported, and
// summed up.
ghost use Rattle.std.specs.Prelude.{◌≡◌, ◌≢◌, ◌+◌, ◌≤◌, IfOk};
ghost use Rattle.bridge_tool.specs.Instance.{instance};
ghost use Rattle.linear_fold.specs.FoldedFaults.{step_bound};
ghost use Rattle.nl_segments.specs.Reader.{HasLines, value_of};
ghost use Rattle.scaled_program.specs.ExportedProgram.{mps_of};
ghost use Rattle.row_scaling.specs.Exported.{scaled_as};
ghost use Rattle.command_core.specs.InsideAnswer.{IsWorked, status_of};
ghost use Rattle.bridge_tool.specs.Make.{IsSummedUp, LeavesInput, MakesAs, make_promise, made_text};
ghost use Rattle.command_core.specs.SeveralFiles.{Comes};
ghost use Rattle.command_parts.specs.Stages.{fold_steps};

use crate::make_instance;
use crate::summary::{coefficient_count, exported_count, summary_line};
use command_core::{Answer, Refusal, end};
use command_parts::{exported, fold_read, nl_refusal, scale};
use mps_writer::write_mps;
use nl_segments::{NlRead, read_nl};
use nl_writer::write_nl;
use row_scaling::Scaled;
use std::alloc::{AllocError, Global};
use text_base::{Desk, Ledger, Steps, Stop};

// The summary of the program of a scaled one, which has so many variables and exported rows.
fn sum_up(alloc: Global, scaled: Scaled, variables: u32, rows: usize) -> Result<Vec<u8>, AllocError>
    ensures { IfOk result (λ out. IsSummedUp variables rows (mps_of (scaled_as scaled)) out.items) }
{
    let mps = exported(alloc, scaled)?;
    // for the prover alone: it brings what an `Mps` always keeps
    let _ = mps.rows();
    let terms = coefficient_count(&mps, rows);
    let text = write_mps(alloc, &mps)?;
    let line = summary_line(alloc, variables, rows, terms, text.as_slice().len())?;
    Ok(line)
}

// The summary of a file, or why it is refused.
fn judge_read<L: Ledger>(
    alloc: Global,
    read: NlRead,
    steps: &mut Steps<L>,
) -> Result<(bool, Vec<u8>), Stop<Refusal>>
    requires { HasLines read }
    ensures comes { Comes (MakesAs (value_of read)) result }
    ensures above { steps.old ≤ steps.new }
    ensures counts { steps.new ≤ steps.old + fold_steps (value_of read) 0 }
{
    let variables = read.file.header().counts().n_var;
    let linear = fold_read(alloc, read, 0, steps)?;
    let rows = exported_count(&linear);
    let scaled = scale(alloc, linear, 0)?;
    let out = sum_up(alloc, scaled, variables, rows)?;
    Ok((true, out))
}

// The written text of an instance.
fn instance_text(alloc: Global, seed: u32, size: u32) -> Result<Vec<u8>, AllocError>
    requires { size ≤ 20000 }
    ensures { IfOk result (λ text. text.items ≡ made_text seed size) }
{
    let file = make_instance(alloc, seed, size)?;
    let text = write_nl(alloc, &file);
    drop(file);
    text
}

// The summary of the written text of an instance, or why it is refused.
fn to_output<L: Ledger>(
    alloc: Global,
    seed: u32,
    size: u32,
    steps: &mut Steps<L>,
) -> Result<(bool, Vec<u8>), Stop<Refusal>>
    requires { size ≤ 20000 }
    ensures comes { Comes (make_promise seed size).comes result }
    ensures above { steps.old ≤ steps.new }
    ensures counts { steps.new ≤ steps.old + step_bound (instance seed size) }
{
    let text = instance_text(alloc, seed, size)?;
    match read_nl(alloc, &text) {
        Ok(read) => judge_read(alloc, read, steps),
        Err(stop) => Err(stop.map_fault(|fault| nl_refusal(fault))),
    }
}

/// Makes an instance, and writes the summary of what it is exported as. Starts no text, and tells
/// nothing.
pub(crate) fn make<D: Desk, L: Ledger>(
    alloc: Global,
    seed: u32,
    size: u32,
    desk: &mut D,
    steps: &mut Steps<L>,
) -> Answer
    requires { size ≤ 20000 }
    ensures worked { IsWorked (make_promise seed size) (D.meaning desk.old) (D.meaning desk.new)
        result }
    ensures known { status_of result ≢ 3 }
    ensures leaves { LeavesInput (D.meaning desk.old) (D.meaning desk.new) (status_of result) }
    ensures above { steps.old ≤ steps.new }
    ensures counts { steps.new ≤ steps.old + step_bound (instance seed size) }
{
    let judged = to_output(alloc, seed, size, steps);
    end(desk, judged)
}
