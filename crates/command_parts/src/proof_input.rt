// Reading and judging a proof text.
ghost use Rattle.std.specs.Prelude.{◌≡◌, ◌≢◌, IfErr, IfOk};
ghost use Rattle.problems.specs.Files.{IsProofIn};
ghost use Rattle.branch_proof.specs.Reader.{IsProofText};
ghost use Rattle.problems.specs.NlSetting.{setting_of};
ghost use Rattle.branch_proof.specs.Reasons.{proof_reason_text};
ghost use Rattle.command_core.specs.Told.{fault_line};
ghost use Rattle.command_core.specs.InsideAnswer.{status_of};
ghost use Rattle.command_parts.specs.Refusal.{IsProofRefused};
ghost use Rattle.command_core.specs.SeveralFiles.{ReadsFile, itself};

use crate::input::{Source, open};
use branch_proof::{ProofFault, ProofGrammar};
use certificates::proof::Proof;
use command_core::{Answer, Refusal, refusal};
use nl_model::{NlFile, all_kinds};
use std::alloc::Global;
use text_base::Desk;

impl Source for ProofGrammar {
    ghost told = { fault_line proof_reason_text };

    fn told(number: u32, fault: ProofFault) -> Refusal
        ensures { result.line ≡ fault_line proof_reason_text number fault }
    {
        refusal(number, b"line", fault.line, fault.reason.text())
    }
}

/// The proof of this file that a text says, which is this one of its command, or the answer that
/// ends the command.
pub fn open_proof<D: Desk>(
    alloc: Global,
    desk: &mut D,
    file: &NlFile,
    name: &str,
    number: u32,
) -> Result<Proof, Answer>
    ensures reads { ReadsFile itself (IsProofText (setting_of file.now))
        (IsProofRefused (setting_of file.now) number) name.now (D.meaning desk.old)
        (D.meaning desk.new) result }
    ensures proof { IfOk result (λ p. IsProofIn file.now p) }
    ensures known { IfErr result (λ answer. status_of answer ≢ 3) }
{
    let kinds = all_kinds(alloc, file)?;
    let counts = file.header().counts();
    let grammar = ProofGrammar::new(alloc, counts.n_con, kinds)?;
    open(alloc, desk, name, number, grammar)
}
