// The command return: from an .nl text and an answer to the text of its .sol file, or to a
// refusal.
ghost use Rattle.std.specs.Prelude.{◌≡◌, ◌+◌, ◌≤◌};
ghost use Rattle.nl_segments.specs.Reader.{HasLines, value_of};
ghost use Rattle.dual_return.specs.Return.{IsAnswerFor};
ghost use Rattle.command_core.specs.InsideAnswer.{IsCounted};
ghost use Rattle.bridge_tool.specs.Return.{Makes, ReturnsAs, named_return_promise, return_promise};
ghost use Rattle.command_core.specs.SeveralFiles.{Comes};
ghost use Rattle.command_parts.specs.Stages.{fold_steps};

use answer_file::Answer as Given;
use command_core::{Answer, Refusal, end};
use command_parts::{
    fold_read, open_answer, open_columns, open_named, open_nl, open_rows, return_refusal, scale,
};
use dual_return::{options_of, solution_by_header};
use nl_segments::NlRead;
use sol_files::{Sol, write_sol};
use std::alloc::Global;
use text_base::{Desk, Ledger, Steps, Stop};

// The .sol value of an answer for a file, which is let go with the fold, or the first fault of
// the fold, of scaling or of a dual.
fn make<L: Ledger>(
    alloc: Global,
    read: NlRead,
    given: &Given,
    steps: &mut Steps<L>,
) -> Result<Sol, Stop<Refusal>>
    requires lines { HasLines read }
    requires made { IsAnswerFor read.file given.now }
    ensures makes { Makes (value_of read) given.now result }
    ensures above { steps.old ≤ steps.new }
    ensures counts { steps.new ≤ steps.old + fold_steps (value_of read)
        given.now.objective }
{
    let objective = given.objective();
    let options = options_of(&read.file);
    let header = read.file.header();
    let counts = *header.counts();
    let linear = fold_read(alloc, read, objective, steps)?;
    let scaled = scale(alloc, linear, objective)?;
    match solution_by_header(alloc, counts, options, &scaled, given) {
        Ok(sol) => Ok(sol),
        Err(Stop::Fault(fault)) => Err(Stop::Fault(return_refusal(fault))),
        Err(Stop::Memory) => Err(Stop::Memory),
    }
}

// The bytes to write for an answer for a file, which is let go, or why it is refused.
fn to_output<L: Ledger>(
    alloc: Global,
    read: NlRead,
    given: &Given,
    steps: &mut Steps<L>,
) -> Result<(bool, Vec<u8>), Stop<Refusal>>
    requires lines { HasLines read }
    requires made { IsAnswerFor read.file given.now }
    ensures comes { Comes (ReturnsAs (value_of read) given.now) result }
    ensures above { steps.old ≤ steps.new }
    ensures counts { steps.new ≤ steps.old + fold_steps (value_of read)
        given.now.objective }
{
    let sol = make(alloc, read, given, steps)?;
    let out = write_sol(alloc, &sol)?;
    Ok((true, out))
}

/// Returns an answer for a file: reads both texts, judges them, and writes the .sol text that they
/// come to. Tells nothing.
pub(crate) fn return_answer<D: Desk, L: Ledger>(
    alloc: Global,
    nl: &str,
    answer: &str,
    desk: &mut D,
    steps: &mut Steps<L>,
) -> Answer
    ensures { IsCounted (return_promise (D.meaning desk.old).texts nl.now answer.now)
        (D.meaning desk.old) (D.meaning desk.new) steps.old steps.new result }
{
    let read = match open_nl(alloc, desk, nl) {
        Ok(read) => read,
        Err(ended) => return ended,
    };
    let given = match open_answer(alloc, desk, &read.file, answer) {
        Ok(given) => given,
        Err(ended) => {
            drop(read);
            return ended;
        }
    };
    let judged = to_output(alloc, read, &given, steps);
    drop(given);
    end(desk, judged)
}

/// Returns an answer for a file with names: reads its text, both lists and the answer, judges them,
/// and writes the .sol text that they come to. Tells nothing.
pub(crate) fn return_named<D: Desk, L: Ledger>(
    alloc: Global,
    nl: &str,
    answer: &str,
    rows: &str,
    columns: &str,
    desk: &mut D,
    steps: &mut Steps<L>,
) -> Answer
    ensures { IsCounted
        (named_return_promise (D.meaning desk.old).texts nl.now answer.now rows.now columns.now)
        (D.meaning desk.old) (D.meaning desk.new) steps.old steps.new result }
{
    let read = match open_nl(alloc, desk, nl) {
        Ok(read) => read,
        Err(ended) => return ended,
    };
    let row_names = match open_rows(alloc, desk, &read.file, 3, rows) {
        Ok(names) => names,
        Err(ended) => {
            drop(read);
            return ended;
        }
    };
    let column_names = match open_columns(alloc, desk, &read.file, 4, columns) {
        Ok(names) => names,
        Err(ended) => {
            drop(read);
            drop(row_names);
            return ended;
        }
    };
    let given = match open_named(alloc, desk, &read.file, row_names, column_names, answer) {
        Ok(given) => given,
        Err(ended) => {
            drop(read);
            return ended;
        }
    };
    let judged = to_output(alloc, read, &given, steps);
    drop(given);
    end(desk, judged)
}
