// Commands of one file: what it says is written in one form, or as a file that means the same.
ghost use Rattle.std.specs.Prelude.{◌≡◌, true, IfOk};
ghost use Rattle.mps_reader.specs.Written.{mps_text};
ghost use Rattle.nl_writer.specs.Written.{nl_text};
ghost use Rattle.sol_files.specs.Written.{sol_text};
ghost use Rattle.command_core.specs.InsideAnswer.{IsAtRest};
ghost use Rattle.command_core.specs.Outcome.{Done};
ghost use Rattle.command_core.specs.SeveralFiles.{Comes};
ghost use Rattle.bridge_tool.specs.Import.{import_outcome};
ghost use Rattle.bridge_tool.specs.OneFile.{IsMpsMeant, row_of, row_promise};

use crate::verify_mps::{Layout, open_text};
use command_core::{Answer, Refusal, end};
use command_parts::{import_refusal, open_mps, open_nl, open_sol};
use mps_import::import;
use mps_model::Mps;
use mps_writer::write_mps;
use nl_segments::NlRead;
use nl_writer::write_nl;
use sol_files::{Sol, write_sol};
use std::alloc::Global;
use text_base::{Desk, Stop};

/// A command of one file: what it reads, and what it writes of that.
#[derive(Clone, Copy)]
pub(crate) enum OneFile {
    /// An .nl text, in the one written form.
    Nl,
    /// An MPS text in this form, in the one written form.
    Mps(Layout),
    /// A .sol text, in the one written form.
    Sol,
    /// An MPS text, as the .nl text of its program.
    Import,
}

// The bytes to write for a file.
fn nl_output(alloc: Global, read: NlRead) -> Result<(bool, Vec<u8>), Stop<Refusal>>
    ensures { Comes (λ outcome. outcome ≡ Done true (nl_text read.file)) result }
{
    let out = write_nl(alloc, &read.file);
    drop(read);
    Ok((true, out?))
}

// The bytes to write for a program.
fn mps_output(alloc: Global, mps: &Mps) -> Result<(bool, Vec<u8>), Stop<Refusal>>
    ensures comes { Comes (λ outcome. outcome ≡ Done true (mps_text mps.now)) result }
    ensures means { IfOk result (λ t. IsMpsMeant mps.now) }
{
    // for the prover alone: it brings what an `Mps` always keeps
    let _ = mps.rows();
    let out = write_mps(alloc, mps)?;
    Ok((true, out))
}

// The bytes to write for a .sol value.
fn sol_output(alloc: Global, sol: &Sol) -> Result<(bool, Vec<u8>), Stop<Refusal>>
    ensures { Comes (λ outcome. outcome ≡ Done true (sol_text sol.now)) result }
{
    let out = write_sol(alloc, sol)?;
    Ok((true, out))
}

// The bytes to write for a program that is imported, or why it is refused.
fn import_output(alloc: Global, mps: &Mps) -> Result<(bool, Vec<u8>), Stop<Refusal>>
    ensures { Comes (λ outcome. outcome ≡ import_outcome mps.now) result }
{
    match import(alloc, mps) {
        Ok(imported) => {
            let out = write_nl(alloc, &imported.file)?;
            Ok((true, out))
        }
        Err(stop) => Err(stop.map_fault(|fault| import_refusal(fault))),
    }
}

/// Works a command of one file: reads its text, judges it, and writes what it comes to. Tells
/// nothing.
pub(crate) fn rewrite<D: Desk>(alloc: Global, of: OneFile, file: &str, desk: &mut D) -> Answer
    ensures { IsAtRest (row_promise (D.meaning desk.old).texts (row_of of) file.now)
        (D.meaning desk.old) (D.meaning desk.new) result }
{
    match of {
        OneFile::Nl => {
            let read = match open_nl(alloc, desk, file) {
                Ok(read) => read,
                Err(ended) => return ended,
            };
            let judged = nl_output(alloc, read);
            end(desk, judged)
        }
        OneFile::Mps(layout) => {
            let mps = match open_text(alloc, desk, layout, file) {
                Ok(mps) => mps,
                Err(ended) => return ended,
            };
            let judged = mps_output(alloc, &mps);
            drop(mps);
            end(desk, judged)
        }
        OneFile::Sol => {
            let sol = match open_sol(alloc, desk, file, 1) {
                Ok(sol) => sol,
                Err(ended) => return ended,
            };
            let judged = sol_output(alloc, &sol);
            drop(sol);
            end(desk, judged)
        }
        OneFile::Import => {
            let mps = match open_mps(alloc, desk, file) {
                Ok(mps) => mps,
                Err(ended) => return ended,
            };
            let judged = import_output(alloc, &mps);
            drop(mps);
            end(desk, judged)
        }
    }
}
