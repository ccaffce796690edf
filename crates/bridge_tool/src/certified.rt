// The command certified: from an .nl text and a certificate to the .sol text of its claim, to
// nothing where the claim does not hold, or to a refusal.
ghost use Rattle.std.specs.Prelude.{◌≡◌, ◌+◌, ◌<◌, ◌≤◌, ◌^◌, IfOk};
ghost use Rattle.nl_model.specs.Rules.{IsFile};
ghost use Rattle.nl_segments.specs.Reader.{HasLines, value_of};
ghost use Rattle.certificates.specs.Certificates.{claim_objective};
ghost use Rattle.problems.specs.Files.{IsCertificateIn};
ghost use Rattle.certificate_judge.specs.Outcomes.{outcome_of};
ghost use Rattle.command_core.specs.InsideAnswer.{IsCounted};
ghost use Rattle.command_core.specs.SeveralFiles.{Comes};
ghost use Rattle.command_parts.specs.CertificateTold.{HasFittingBound, outcome_text};
ghost use Rattle.command_parts.specs.Stages.{fold_steps};
ghost use Rattle.bridge_tool.specs.Certified.{CertifiesAs, TextComes, certified_promise};
ghost use Rattle.certified_solution.specs.Solution.{IsCertificateBy};
ghost use Rattle.sol_files.specs.Built.{IsMessageLine};

use crate::verify::outcome_on;
use certificate_judge::Outcome;
use certificates::{Certificate, Claim};
use certified_solution::certified_solution;
use command_core::{Answer, Refusal, end, refusal_of};
use command_parts::{claim_objective, fold_read, is_held, open_certificate, open_nl, outcome_line};
use dual_return::options_of;
use nl_model::{Counts, Options};
use nl_segments::NlRead;
use sol_files::write_sol;
use std::alloc::{AllocError, Global};
use text_base::{Desk, Ledger, Steps, Stop};

// The line of a verdict on a certificate for this claim, without its end.
fn message_of(alloc: Global, claim: Claim, outcome: Outcome) -> Result<Vec<u8>, AllocError>
    requires { HasFittingBound claim }
    ensures { IfOk result (λ line. line.items ≡ outcome_text claim (outcome_of outcome)) }
{
    let mut line = outcome_line(alloc, claim, outcome)?;
    line.truncate(line.len() - 1);
    Ok(line)
}

// The .sol text of a claim that holds, with this line as its message, or why it is refused.
fn sol_text_of(
    alloc: Global,
    counts: Counts,
    options: Options,
    line: &[u8],
    objective: u32,
    certificate: &Certificate,
) -> Result<(bool, Vec<u8>), Stop<Refusal>>
    requires certificate { IsCertificateBy counts.n_con counts.n_var certificate.now }
    requires line { IsMessageLine line.now }
    requires objective { objective ≡ claim_objective certificate.now.claim }
    requires small { objective < 2 ^ 31 }
    ensures { Comes (TextComes options counts.n_con counts.n_var line.now certificate.now) result }
{
    match certified_solution(
        alloc,
        options,
        counts.n_con,
        counts.n_var,
        line,
        objective,
        certificate,
    )? {
        Some(sol) => {
            let out = write_sol(alloc, &sol)?;
            Ok((true, out))
        }
        None => Err(Stop::Fault(refusal_of("file 2", "value not decimal"))),
    }
}

// The bytes to write of a certificate for a file, which is let go with the fold, or why it is
// refused.
fn to_output<L: Ledger>(
    alloc: Global,
    read: NlRead,
    certificate: &Certificate,
    steps: &mut Steps<L>,
) -> Result<(bool, Vec<u8>), Stop<Refusal>>
    requires lines { HasLines read }
    requires certificate { IsCertificateIn read.file certificate.now }
    ensures comes { Comes (CertifiesAs (value_of read) certificate.now) result }
    ensures file { IsFile read.file }
    ensures above { steps.old ≤ steps.new }
    ensures counts { steps.new ≤ steps.old + fold_steps (value_of read)
        (claim_objective certificate.now.claim) }
{
    let objective = claim_objective(certificate.claim());
    let options = options_of(&read.file);
    let header = read.file.header();
    let counts = *header.counts();
    let linear = fold_read(alloc, read, objective, steps)?;
    let outcome = outcome_on(alloc, linear, certificate)?;
    if !is_held(outcome) {
        return Ok((false, Vec::new(alloc)));
    }
    let message = message_of(alloc, certificate.claim(), outcome)?;
    sol_text_of(alloc, counts, options, &message, objective, certificate)
}

/// Certifies an answer: reads both texts, judges the certificate, and writes the .sol text of its
/// claim, where that holds. Tells nothing.
pub(crate) fn certified<D: Desk, L: Ledger>(
    alloc: Global,
    nl: &str,
    certificate: &str,
    desk: &mut D,
    steps: &mut Steps<L>,
) -> Answer
    ensures { IsCounted (certified_promise (D.meaning desk.old).texts nl.now certificate.now)
        (D.meaning desk.old) (D.meaning desk.new) steps.old steps.new result }
{
    let read = match open_nl(alloc, desk, nl) {
        Ok(read) => read,
        Err(ended) => return ended,
    };
    let given = match open_certificate(alloc, desk, &read.file, certificate, 2) {
        Ok(given) => given,
        Err(answer) => {
            drop(read);
            return answer;
        }
    };
    let judged = to_output(alloc, read, &given, steps);
    drop(given);
    end(desk, judged)
}
