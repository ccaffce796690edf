// What is told of an answer that cannot be returned.
ghost use Rattle.std.specs.Prelude.{◌≡◌};
ghost use Rattle.command_parts.specs.AnswerTold.{return_line};

use command_core::{Refusal, refusal};
use dual_return::ReturnFault;

/// The refusal of a dual that is too wide.
pub fn return_refusal(fault: ReturnFault) -> Refusal
    ensures { result.line ≡ return_line fault }
{
    match fault {
        ReturnFault::DualTooWide(con) => refusal(1, b"row", con, fault.text()),
    }
}
