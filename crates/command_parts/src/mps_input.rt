// Reading and judging an MPS file, free or of fixed columns.
ghost use Rattle.std.specs.Prelude.{◌≡◌, ◌≢◌, IfErr};
ghost use Rattle.fixed_mps.specs.Reader.{IsFixedText};
ghost use Rattle.mps_reader.specs.Reader.{IsMpsText};
ghost use Rattle.mps_reader.specs.Reasons.{mps_reason_text};
ghost use Rattle.command_core.specs.Told.{fault_line};
ghost use Rattle.command_core.specs.InsideAnswer.{status_of};
ghost use Rattle.command_parts.specs.Refusal.{IsFixedRefused, IsMpsRefused};
ghost use Rattle.command_core.specs.SeveralFiles.{ReadsFile, itself};

use crate::input::{Source, open};
use command_core::{Answer, Refusal, refusal};
use fixed_mps::FixedGrammar;
use mps_model::Mps;
use mps_reader::{MpsFault, MpsGrammar};
use std::alloc::Global;
use text_base::Desk;

impl Source for MpsGrammar {
    ghost told = { λ _. fault_line mps_reason_text 1 };

    fn told(_number: u32, fault: MpsFault) -> Refusal
        ensures { result.line ≡ fault_line mps_reason_text 1 fault }
    {
        refusal(1, b"line", fault.line, fault.reason.text())
    }
}

impl Source for FixedGrammar {
    ghost told = { λ _. fault_line mps_reason_text 1 };

    fn told(_number: u32, fault: MpsFault) -> Refusal
        ensures { result.line ≡ fault_line mps_reason_text 1 fault }
    {
        refusal(1, b"line", fault.line, fault.reason.text())
    }
}

/// What a file says as an MPS text, or the answer that ends the command.
pub fn open_mps<D: Desk>(alloc: Global, desk: &mut D, file: &str) -> Result<Mps, Answer>
    ensures reads { ReadsFile itself IsMpsText IsMpsRefused file.now (D.meaning desk.old)
        (D.meaning desk.new) result }
    ensures known { IfErr result (λ answer. status_of answer ≢ 3) }
{
    open(alloc, desk, file, 1, MpsGrammar::new(alloc)?)
}

/// What a file says as an MPS text of fixed columns, or the answer that ends the command.
pub fn open_fixed<D: Desk>(alloc: Global, desk: &mut D, file: &str) -> Result<Mps, Answer>
    ensures reads { ReadsFile itself IsFixedText IsFixedRefused file.now (D.meaning desk.old)
        (D.meaning desk.new) result }
    ensures known { IfErr result (λ answer. status_of answer ≢ 3) }
{
    open(alloc, desk, file, 1, FixedGrammar::new(alloc)?)
}
