// The lines that tell faults of .nl texts, of the fold and of scaling.
ghost use Rattle.std.specs.Prelude.{◌≡◌, ◌+◌, ◌≤◌, ◌++◌, length};
ghost use Rattle.command_parts.specs.NlTold.{HasLine, fold_line, nl_line, scale_line};
ghost use Rattle.nl_lines.specs.Reasons.{opcode_text};

use command_core::{Refusal, put_number, put_refused_at, refusal};
use linear_fold::FoldFault;
use nl_lines::{NlFault, NlReason};
use nl_segments::Places;
use row_scaling::ScaleFault;
use written_texts::LineText;

// Puts the number of a refused opcode in front, after a blank.
fn put_opcode(line: &mut LineText<128>, reason: NlReason)
    requires { length line.old ≤ 9 }
    ensures text { line.new ≡ opcode_text reason ++ line.old }
    ensures short { length line.new ≤ length line.old + 11 }
{
    if let NlReason::RefusedOpcode(opcode) = reason {
        put_number(line, opcode);
        line.put_word(b" ");
    }
}

/// The refusal of a fault of an .nl text.
pub fn nl_refusal(fault: NlFault) -> Refusal
    ensures { result.line ≡ nl_line fault }
{
    let mut line = LineText::new();
    line.put_word(b"\n");
    put_opcode(&mut line, fault.reason);
    line.put_word(fault.reason.text().as_bytes());
    put_refused_at(&mut line, 1, b"line", fault.line);
    Refusal { line }
}

/// The refusal of a fault of the fold, whose place is looked up.
pub fn fold_refusal(places: &Places, fault: FoldFault) -> Refusal
    requires { HasLine places.now fault }
    ensures { result.line ≡ fold_line places.now fault }
{
    match fault {
        FoldFault::Nonlinear(at) => refusal(1, b"line", places.line(at), fault.text()),
        FoldFault::DivideByZero(at) => refusal(1, b"line", places.line(at), fault.text()),
        FoldFault::TooWide(at) => refusal(1, b"line", places.line(at), fault.text()),
        FoldFault::RefusedPower(at) => refusal(1, b"line", places.line(at), fault.text()),
        FoldFault::FoldTooLarge(at) => refusal(1, b"line", places.line(at), fault.text()),
        FoldFault::NoSuchObjective(k) => refusal(1, b"objective", k, fault.text()),
    }
}

/// The refusal of a fault of scaling with this objective.
pub fn scale_refusal(objective: u32, fault: ScaleFault) -> Refusal
    ensures { result.line ≡ scale_line objective fault }
{
    match fault {
        ScaleFault::RowTooWide(i) => refusal(1, b"row", i, fault.text()),
        ScaleFault::ObjectiveTooWide => refusal(1, b"objective", objective, fault.text()),
    }
}
