// The lines of verdicts, and of faults of solutions that do not fit their file.
ghost use Rattle.std.specs.Prelude.{◌≡◌, ◌++◌, IfOk, OnOk, string_bytes};
ghost use Rattle.exact_checks.specs.Answers.{answer_of};
ghost use Rattle.exact_checks.specs.declared.verdict.Verdict.TheVariants.{TooWide};
ghost use Rattle.command_parts.specs.VerdictTold.{fit_line, is_yes, negative_line, verdict_line, verdict_text};

use certificate_check::FitFault;
use command_core::{Refusal, fixed, put_signed, refusal_of};
use exact_checks::{Spot, Verdict};
use std::alloc::{AllocError, Global};

// Where a number does not fit.
fn put_too_wide(line: &mut String, place: Spot) -> Result<(), AllocError>
    ensures { OnOk result (string_bytes line.new ≡ string_bytes line.old
        ++ verdict_text (answer_of (TooWide place))) }
{
    match place {
        Spot::Row(row) => write!(line, "too wide at row {row}"),
        Spot::Cost(variable) => write!(line, "too wide at cost {variable}"),
        Spot::Objective => write!(line, "too wide at objective"),
        Spot::Total => write!(line, "too wide at total"),
    }
}

fn put_verdict(line: &mut String, verdict: Verdict) -> Result<(), AllocError>
    ensures { OnOk result (string_bytes line.new ≡ string_bytes line.old
        ++ verdict_text (answer_of verdict)) }
{
    match verdict {
        Verdict::Yes(value) => write!(line, "yes {value}"),
        Verdict::RowBroken(row) => write!(line, "row {row} broken"),
        Verdict::BoundBroken(variable) => write!(line, "bound {variable} broken"),
        Verdict::RowSideMissing(row) => write!(line, "row {row} has no side"),
        Verdict::BoundSideMissing(variable) => write!(line, "bound {variable} has no side"),
        Verdict::Gap(value, bound) => write!(line, "gap {value} {bound}"),
        Verdict::TooWide(place) => put_too_wide(line, place),
    }
}

/// The line of a verdict.
pub fn verdict_line(alloc: Global, verdict: Verdict) -> Result<Vec<u8>, AllocError>
    ensures { IfOk result (λ line. line.items ≡ verdict_line (answer_of verdict)) }
{
    let mut line = String::new(alloc);
    put_verdict(&mut line, verdict)?;
    line.push('\n')?;
    Ok(line.into_bytes())
}

/// Whether a verdict is yes.
pub fn is_yes(verdict: Verdict) -> bool
    ensures { result ≡ is_yes (answer_of verdict) }
{
    match verdict {
        Verdict::Yes(_) => true,
        Verdict::Gap(_, _) => false,
        Verdict::RowBroken(_) | Verdict::BoundBroken(_) => false,
        Verdict::RowSideMissing(_) | Verdict::BoundSideMissing(_) => false,
        Verdict::TooWide(_) => false,
    }
}

/// The refusal of a solution, the second file of its command, that does not fit the first.
pub fn fit_refusal(fault: FitFault) -> Refusal
    ensures { result.line ≡ fit_line fault }
{
    refusal_of("file 2", fault.text())
}

/// The refusal of an objective of a number below 0.
pub fn negative_refusal(number: i32) -> Refusal
    ensures { result.line ≡ negative_line number }
{
    let mut line = fixed(b": no such objective\n");
    put_signed(&mut line, number);
    line.put_word(b"refused objective ");
    Refusal { line }
}
