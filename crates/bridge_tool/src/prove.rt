// The command prove: from an .nl text and a proof text to the line of a verdict, or to a
// refusal.
ghost use Rattle.std.specs.Prelude.{◌≡◌, ◌+◌, ◌≤◌, is_none, IfOk};
ghost use Rattle.linear_program.specs.Programs.{linear_value};
ghost use Rattle.nl_segments.specs.Reader.{HasLines, value_of};
ghost use Rattle.problems.specs.Files.{IsProofIn};
ghost use Rattle.branch_proof.specs.Leaves.{IsProved, IsVerdictOn, fault_of};
ghost use Rattle.certificates.specs.Proofs.{IsProofOf};
ghost use Rattle.command_core.specs.InsideAnswer.{IsCounted};
ghost use Rattle.bridge_tool.specs.Prove.{IsLeftOpen, IsProvedOf, claimed_objective, prove_outcome, prove_promise};
ghost use Rattle.command_parts.specs.ProofTold.{leaf_line};
ghost use Rattle.command_core.specs.SeveralFiles.{ByVerdict, Comes};
ghost use Rattle.command_parts.specs.Stages.{fold_steps};

use branch_proof::{ProofVerdict, check_proof_by_rows};
use certificates::proof::{Claim, Proof};
use command_core::{Answer, Refusal, end};
use command_parts::{fold_read, leaf_line, open_nl, open_proof};
use exact_checks::Program;
use linear_program::Linear;
use nl_segments::NlRead;
use std::alloc::{AllocError, Global};
use text_base::{Desk, Ledger, Steps, Stop};

// The number of the objective of the claim; 0 where it is of none.
fn claimed_objective(proof: &Proof) -> u32
    ensures { result ≡ claimed_objective proof.now.claim }
{
    match proof.claim() {
        Claim::Value(objective, _) => objective,
        Claim::Infeasible => 0,
    }
}

// The verdict on a proof of a linear program, which is let go as soon as its rows are held.
fn verdict_of(alloc: Global, linear: Linear, proof: &Proof) -> Result<ProofVerdict, AllocError>
    requires { IsProofOf (linear_value linear) proof.now }
    ensures exact { IfOk result (λ v. IsVerdictOn (linear_value linear) proof.now v) }
    ensures proved { IfOk result (λ v. IsProved (linear_value linear) proof.now.claim v) }
{
    let program = Program::from_linear(alloc, linear)?;
    let verdict = check_proof_by_rows(alloc, &program, proof)?;
    Ok(verdict)
}

fn is_yes(verdict: ProofVerdict) -> bool
    ensures { result ≡ is_none (fault_of verdict) }
{
    matches!(verdict, ProofVerdict::Yes)
}

// Whether a verdict is yes, and its line.
fn told_verdict(alloc: Global, verdict: ProofVerdict) -> Result<(bool, Vec<u8>), AllocError>
    ensures holds { IfOk result (λ t. t.0 ≡ is_none (fault_of verdict)) }
    ensures line { IfOk result (λ t. t.1.items ≡ leaf_line (fault_of verdict)) }
{
    let line = leaf_line(alloc, verdict)?;
    Ok((is_yes(verdict), line))
}

// The verdict on a proof of a file, which is let go with the fold, or its first fault.
fn to_verdict<L: Ledger>(
    alloc: Global,
    read: NlRead,
    proof: &Proof,
    steps: &mut Steps<L>,
) -> Result<(bool, Vec<u8>), Stop<Refusal>>
    requires lines { HasLines read }
    requires proof { IsProofIn read.file proof.now }
    ensures comes { Comes (λ outcome. outcome ≡ prove_outcome (value_of read) proof.now)
        result }
    ensures says { IfOk result (λ t. ByVerdict t.0 (IsProvedOf (value_of read) proof.now)
        (IsLeftOpen (value_of read) proof.now)) }
    ensures above { steps.old ≤ steps.new }
    ensures counts { steps.new ≤ steps.old + fold_steps (value_of read)
        (claimed_objective proof.now.claim) }
{
    let objective = claimed_objective(proof);
    let linear = fold_read(alloc, read, objective, steps)?;
    let verdict = verdict_of(alloc, linear, proof)?;
    let told = told_verdict(alloc, verdict)?;
    Ok(told)
}

/// Judges a proof of a claim on a file: reads both texts and writes the verdict that they come to.
/// Tells nothing.
pub(crate) fn prove<D: Desk, L: Ledger>(
    alloc: Global,
    nl: &str,
    proof: &str,
    desk: &mut D,
    steps: &mut Steps<L>,
) -> Answer
    ensures { IsCounted (prove_promise (D.meaning desk.old).texts nl.now proof.now)
        (D.meaning desk.old) (D.meaning desk.new) steps.old steps.new result }
{
    let read = match open_nl(alloc, desk, nl) {
        Ok(read) => read,
        Err(ended) => return ended,
    };
    let given = match open_proof(alloc, desk, &read.file, proof, 2) {
        Ok(given) => given,
        Err(answer) => {
            drop(read);
            return answer;
        }
    };
    let judged = to_verdict(alloc, read, &given, steps);
    drop(given);
    end(desk, judged)
}
