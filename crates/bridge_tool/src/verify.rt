// The command verify: from an .nl text and a certificate to the line of a verdict, or to a
// refusal.
ghost use Rattle.std.specs.Prelude.{◌≡◌, ◌+◌, ◌≤◌, IfOk, None};
ghost use Rattle.linear_program.specs.Programs.{linear_value};
ghost use Rattle.nl_model.specs.Rules.{IsFile};
ghost use Rattle.nl_segments.specs.Reader.{HasLines, value_of};
ghost use Rattle.certificates.specs.Certificates.{IsCertificateOf, claim_objective};
ghost use Rattle.certificate_judge.specs.Outcomes.{outcome_of};
ghost use Rattle.problems.specs.Files.{IsCertificateIn};
ghost use Rattle.command_core.specs.InsideAnswer.{IsCounted};
ghost use Rattle.command_core.specs.Outcome.{Done};
ghost use Rattle.command_core.specs.SeveralFiles.{Comes};
ghost use Rattle.command_parts.specs.Stages.{fold_steps};
ghost use Rattle.bridge_tool.specs.Verify.{by_linear, claim_shown, nl_claim_row, verify_outcome, verify_promise};

use crate::verify_mps::Layout;
use certificate_judge::{Outcome, check_certificate};
use certificates::Certificate;
use command_core::{Answer, Refusal, end};
use command_parts::{claim_objective, fold_read, is_held, open_certificate, open_nl, outcome_line};
use exact_checks::Program;
use linear_program::Linear;
use nl_segments::NlRead;
use std::alloc::{AllocError, Global};
use text_base::{Desk, Ledger, Steps, Stop};

/// A text that states a problem.
#[derive(Clone, Copy)]
pub(crate) enum ProblemText {
    /// An .nl text: the problem of its file.
    Nl,
    /// An MPS text in this form: the problem of its program.
    Mps(Layout),
}

/// What a certificate comes to in a linear program, which is let go as soon as its rows are held.
pub(crate) fn outcome_on(
    alloc: Global,
    linear: Linear,
    certificate: &Certificate,
) -> Result<Outcome, AllocError>
    requires { IsCertificateOf (linear_value linear) certificate.now }
    ensures { IfOk result (λ o. outcome_of o
        ≡ claim_shown (linear_value linear) certificate.now) }
{
    let program = Program::from_linear(alloc, linear)?;
    let outcome = check_certificate(alloc, &program, certificate)?;
    Ok(outcome)
}

/// Whether the claim holds in a linear program, and the line of the verdict.
pub(crate) fn verdict_on(
    alloc: Global,
    linear: Linear,
    certificate: &Certificate,
) -> Result<(bool, Vec<u8>), AllocError>
    requires { IsCertificateOf (linear_value linear) certificate.now }
    ensures { IfOk result (λ t. Done t.0 t.1.items ≡ by_linear certificate.now
        (claim_shown (linear_value linear) certificate.now) None) }
{
    let outcome = outcome_on(alloc, linear, certificate)?;
    let line = outcome_line(alloc, certificate.claim(), outcome)?;
    Ok((is_held(outcome), line))
}

// The verdict on a certificate for a file, which is let go with the fold, or its first fault.
fn to_verdict<L: Ledger>(
    alloc: Global,
    read: NlRead,
    certificate: &Certificate,
    steps: &mut Steps<L>,
) -> Result<(bool, Vec<u8>), Stop<Refusal>>
    requires lines { HasLines read }
    requires certificate { IsCertificateIn read.file certificate.now }
    ensures comes { Comes (λ outcome. outcome ≡ verify_outcome nl_claim_row (value_of read)
        certificate.now) result }
    ensures file { IsFile read.file }
    ensures above { steps.old ≤ steps.new }
    ensures counts { steps.new ≤ steps.old + fold_steps (value_of read)
        (claim_objective certificate.now.claim) }
{
    let objective = claim_objective(certificate.claim());
    let linear = fold_read(alloc, read, objective, steps)?;
    let told = verdict_on(alloc, linear, certificate)?;
    Ok(told)
}

/// Judges a certificate for a claim on a file: reads both texts and writes the verdict that they
/// come to. Tells nothing.
pub(crate) fn verify<D: Desk, L: Ledger>(
    alloc: Global,
    nl: &str,
    certificate: &str,
    desk: &mut D,
    steps: &mut Steps<L>,
) -> Answer
    ensures { IsCounted
        (verify_promise (D.meaning desk.old).texts nl_claim_row nl.now certificate.now)
        (D.meaning desk.old) (D.meaning desk.new) steps.old steps.new result }
{
    let read = match open_nl(alloc, desk, nl) {
        Ok(read) => read,
        Err(ended) => return ended,
    };
    let given = match open_certificate(alloc, desk, &read.file, certificate, 2) {
        Ok(given) => given,
        Err(answer) => {
            drop(read);
            return answer;
        }
    };
    let judged = to_verdict(alloc, read, &given, steps);
    drop(given);
    end(desk, judged)
}
