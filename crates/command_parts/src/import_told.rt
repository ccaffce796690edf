// The lines that tell faults of an import.
ghost use Rattle.std.specs.Prelude.{◌≡◌};
ghost use Rattle.command_parts.specs.ImportTold.{import_line};

use command_core::{Refusal, refusal, refusal_of};
use mps_program::MpsFault;

/// The refusal of a fault of an import.
pub fn import_refusal(fault: MpsFault) -> Refusal
    ensures { result.line ≡ import_line fault }
{
    match fault {
        MpsFault::TooLarge => refusal_of("program", fault.text()),
        MpsFault::TooWide(row) => refusal(1, b"row", row, fault.text()),
        MpsFault::EmptyInterval(column) => refusal(1, b"column", column, fault.text()),
    }
}
