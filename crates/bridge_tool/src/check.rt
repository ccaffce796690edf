// The command check: from an .nl text and a .sol text to the line of a verdict, or to a
// refusal.
ghost use Rattle.std.specs.Prelude.{◌≡◌, ◌+◌, ◌≤◌, ◌<ℤ◌, pos, IfOk, MatchOption, None, Some, length};
ghost use Rattle.linear_program.specs.Linear.{row_count, variable_count};
ghost use Rattle.certificates.specs.Verdict.{verdict};
ghost use Rattle.linear_fold.specs.FoldedFaults.{first_fold_fault};
ghost use Rattle.linear_program.specs.Programs.{linear_value};
ghost use Rattle.nl_segments.specs.Reader.{HasLines, value_of};
ghost use Rattle.exact_checks.specs.Answers.{answer_of};
ghost use Rattle.exact_checks.specs.Terms.{values_of};
ghost use Rattle.command_core.specs.InsideAnswer.{IsCounted};
ghost use Rattle.bridge_tool.specs.Check.{by_fold, check_outcome, check_promise, most_steps, objective_number, steps_by_number, unfit};
ghost use Rattle.command_core.specs.SeveralFiles.{Comes};
ghost use Rattle.command_parts.specs.VerdictTold.{is_yes, verdict_line};

use certificate_check::{certify, fit};
use command_core::{Answer, Refusal, end};
use command_parts::{
    fit_refusal, fold_read, is_yes, negative_refusal, open_nl, open_sol, verdict_line,
};
use exact_checks::{Columns, Verdict};
use exact_numbers::Dec;
use linear_program::Linear;
use nl_model::NlFile;
use nl_segments::NlRead;
use sol_files::Sol;
use std::alloc::{AllocError, Global};
use text_base::{Desk, Ledger, Steps, Stop};

// The number of the objective: that of the objno line, or 0 without one.
fn objective_number(sol: &Sol) -> i32
    ensures { result ≡ objective_number sol.now }
{
    match sol.objno() {
        Some((number, _)) => number,
        None => 0,
    }
}

// The number of an objective that is not below 0.
fn plain_objective(number: i32) -> Option<u32>
    ensures { MatchOption result (number <ℤ pos 0) (λ k. number ≡ pos k) }
{
    if number < 0 {
        return None;
    }
    Some(number as u32)
}

// The verdict on a point and duals for a linear program, which is let go.
fn verdict_of(alloc: Global, linear: Linear, x: &[Dec], y: &[Dec]) -> Result<Verdict, AllocError>
    requires numbers { length x.now ≡ variable_count (linear_value linear) }
    requires duals { length y.now ≡ row_count (linear_value linear) }
    ensures { IfOk result (λ v. answer_of v ≡ verdict (linear_value linear) (values_of x.now)
        (values_of y.now)) }
{
    let columns = Columns::from_linear(alloc, linear)?;
    Ok(certify(&columns, x, y))
}

// Whether that verdict is yes, and its line.
fn told_verdict(
    alloc: Global,
    linear: Linear,
    x: &[Dec],
    y: &[Dec],
) -> Result<(bool, Vec<u8>), AllocError>
    requires numbers { length x.now ≡ variable_count (linear_value linear) }
    requires duals { length y.now ≡ row_count (linear_value linear) }
    ensures holds { IfOk result (λ t. t.0
        ≡ is_yes (verdict (linear_value linear) (values_of x.now) (values_of y.now))) }
    ensures line { IfOk result (λ t. t.1.items
        ≡ verdict_line (verdict (linear_value linear) (values_of x.now) (values_of y.now))) }
{
    let verdict = verdict_of(alloc, linear, x, y)?;
    let line = verdict_line(alloc, verdict)?;
    Ok((is_yes(verdict), line))
}

// The verdict on a solution that fits the file, with this objective, or the first fault of
// the fold.
fn certified<L: Ledger>(
    alloc: Global,
    read: NlRead,
    sol: &Sol,
    objective: u32,
    steps: &mut Steps<L>,
) -> Result<(bool, Vec<u8>), Stop<Refusal>>
    requires lines { HasLines read }
    requires fits { unfit (value_of read) sol.now ≡ None }
    ensures comes { Comes (λ outcome. outcome ≡ by_fold (value_of read) sol.now objective
        (first_fold_fault read.file objective)) result }
    ensures above { steps.old ≤ steps.new }
    ensures counts { steps.new
        ≤ steps.old + steps_by_number (value_of read) (pos objective) }
{
    let x = sol.primals();
    let y = sol.duals();
    let linear = fold_read(alloc, read, objective, steps)?;
    let told = told_verdict(alloc, linear, x.items(), y.items())?;
    Ok(told)
}

// The verdict of a file, which is let go, and a solution, or why it is refused.
fn to_verdict<L: Ledger>(
    alloc: Global,
    read: NlRead,
    sol: &Sol,
    steps: &mut Steps<L>,
) -> Result<(bool, Vec<u8>), Stop<Refusal>>
    requires { HasLines read }
    ensures comes { Comes (λ outcome. outcome ≡ check_outcome (value_of read) sol.now) result }
    ensures above { steps.old ≤ steps.new }
    ensures counts { steps.new ≤ steps.old + most_steps (value_of read) sol.now }
{
    if let Err(fault) = fit(&read.file, sol) {
        return Err(Stop::Fault(fit_refusal(fault)));
    }
    let number = objective_number(sol);
    let Some(objective) = plain_objective(number) else {
        return Err(Stop::Fault(negative_refusal(number)));
    };
    certified(alloc, read, sol, objective, steps)
}

/// Judges a solution of a file: reads both texts and writes the verdict that they come to. Tells
/// nothing.
pub(crate) fn check<D: Desk, L: Ledger>(
    alloc: Global,
    nl: &str,
    sol: &str,
    desk: &mut D,
    steps: &mut Steps<L>,
) -> Answer
    ensures { IsCounted (check_promise (D.meaning desk.old).texts nl.now sol.now)
        (D.meaning desk.old) (D.meaning desk.new) steps.old steps.new result }
{
    let read = match open_nl(alloc, desk, nl) {
        Ok(read) => read,
        Err(ended) => return ended,
    };
    let solution = match open_sol(alloc, desk, sol, 2) {
        Ok(solution) => solution,
        Err(answer) => {
            drop(read);
            return answer;
        }
    };
    let judged = to_verdict(alloc, read, &solution, steps);
    drop(solution);
    end(desk, judged)
}
