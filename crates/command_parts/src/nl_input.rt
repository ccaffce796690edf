// Reading and judging an .nl file.
ghost use Rattle.std.specs.Prelude.{◌≡◌, ◌≢◌, IfErr, IfOk};
ghost use Rattle.nl_segments.specs.Reader.{HasLines, IsNl, fault_of, value_of};
ghost use Rattle.command_parts.specs.NlTold.{nl_line};
ghost use Rattle.command_core.specs.InsideAnswer.{status_of};
ghost use Rattle.command_parts.specs.Refusal.{HasTextRefusal};
ghost use Rattle.command_core.specs.SeveralFiles.{ReadsFile};

use crate::input::{Source, open};
use crate::nl_told::nl_refusal;
use command_core::{Answer, Refusal};
use nl_segments::{NlGrammar, NlRead, NlReason, fault_of};
use std::alloc::Global;
use text_base::{Desk, TextFault};

impl Source for NlGrammar {
    ghost told = { λ _ fault. nl_line (fault_of fault) };

    fn told(_number: u32, fault: TextFault<NlReason>) -> Refusal
        ensures { result.line ≡ nl_line (fault_of fault) }
    {
        nl_refusal(fault_of(fault))
    }
}

/// What the first file of a command says, or the answer that ends the command.
pub fn open_nl<D: Desk>(alloc: Global, desk: &mut D, file: &str) -> Result<NlRead, Answer>
    ensures reads { ReadsFile value_of IsNl HasTextRefusal file.now (D.meaning desk.old)
        (D.meaning desk.new) result }
    ensures lines { IfOk result HasLines }
    ensures known { IfErr result (λ answer. status_of answer ≢ 3) }
{
    open(alloc, desk, file, 1, NlGrammar::new(alloc))
}
