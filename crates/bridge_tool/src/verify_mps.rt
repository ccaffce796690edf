// The commands verify_mps and verify_fixed: from an MPS text and a certificate to the line of a
// verdict, or to a refusal.
ghost use Rattle.std.specs.Prelude.{◌≡◌, ◌≢◌, IfErr, IfOk};
ghost use Rattle.linear_program.specs.Programs.{IsLinear, linear_value};
ghost use Rattle.certificates.specs.Certificates.{IsCertificateOf, claim_objective};
ghost use Rattle.certificates.specs.Setting.{IsCertificateFor, program_setting};
ghost use Rattle.certificate_text.specs.Reader.{IsCertificateText};
ghost use Rattle.command_core.specs.InsideAnswer.{IsAtRest, status_of};
ghost use Rattle.bridge_tool.specs.InsideVerify.{GivesProgram};
ghost use Rattle.command_core.specs.SeveralFiles.{Comes, ReadsFile, itself};
ghost use Rattle.command_parts.specs.Refusal.{IsCertificateRefused};
ghost use Rattle.bridge_tool.specs.Verify.{IsTextIn, IsTextRefused, by_linear, claim_shown, mps_claim_row, no_objective, verify_promise};

use crate::verify::verdict_on;
use certificates::Certificate;
use command_core::{Answer, Refusal, answered, end, refusal};
use command_parts::{claim_objective, import_refusal, open_certificate_over, open_fixed, open_mps};
use linear_fold::FoldFault;
use linear_program::Linear;
use mps_model::Mps;
use mps_program::linear_of;
use std::alloc::Global;
use text_base::{Desk, Stop};

/// How an MPS text stands on its lines: in free form, or in fixed columns.
#[derive(Clone, Copy)]
pub(crate) enum Layout {
    Free,
    Fixed,
}

/// What a file says as an MPS text in this form, or the answer that ends the command.
pub(crate) fn open_text<D: Desk>(
    alloc: Global,
    desk: &mut D,
    layout: Layout,
    file: &str,
) -> Result<Mps, Answer>
    ensures reads { ReadsFile itself (IsTextIn layout) (IsTextRefused layout) file.now
        (D.meaning desk.old) (D.meaning desk.new) result }
    ensures known { IfErr result (λ answer. status_of answer ≢ 3) }
{
    match layout {
        Layout::Free => open_mps(alloc, desk, file),
        Layout::Fixed => open_fixed(alloc, desk, file),
    }
}

// The linear program of an MPS program, or why it has none.
fn to_linear(alloc: Global, mps: &Mps) -> Result<Linear, Stop<Refusal>>
    ensures { GivesProgram mps.now result }
{
    match linear_of(alloc, mps) {
        Ok(linear) => Ok(linear),
        Err(Stop::Fault(fault)) => Err(Stop::Fault(import_refusal(fault))),
        Err(Stop::Memory) => Err(Stop::Memory),
    }
}

// The certificate for a linear program that the second file says, or the answer that ends the
// command.
fn open_for<D: Desk>(
    alloc: Global,
    desk: &mut D,
    linear: &Linear,
    name: &str,
) -> Result<Certificate, Answer>
    ensures reads { ReadsFile itself (IsCertificateText (program_setting linear.now))
        (IsCertificateRefused (program_setting linear.now) 2) name.now (D.meaning desk.old)
        (D.meaning desk.new) result }
    ensures for_setting { IfOk result (λ c. IsCertificateFor (program_setting linear.now) c) }
    ensures valid { IsLinear linear.now }
    ensures known { IfErr result (λ answer. status_of answer ≢ 3) }
{
    let rows = linear.bodies().len() as u32;
    match Vec::from_slice(alloc, linear.kinds()) {
        Ok(kinds) => open_certificate_over(alloc, desk, rows, kinds, name, 2),
        Err(_) => Err(Answer::NoMemory),
    }
}

// The verdict on a certificate for a linear program, which is let go, or that it has no objective
// of its number.
fn to_verdict(
    alloc: Global,
    linear: Linear,
    certificate: &Certificate,
) -> Result<(bool, Vec<u8>), Stop<Refusal>>
    requires { IsCertificateOf (linear_value linear) certificate.now }
    ensures { Comes (λ outcome. outcome ≡ by_linear certificate.now
        (claim_shown (linear_value linear) certificate.now)
        (no_objective (claim_objective certificate.now.claim))) result }
{
    let objective = claim_objective(certificate.claim());
    if objective > 0 {
        drop(linear);
        let fault = FoldFault::NoSuchObjective(objective);
        let refused = refusal(1, b"objective", objective, fault.text());
        return Err(Stop::Fault(refused));
    }
    let told = verdict_on(alloc, linear, certificate)?;
    Ok(told)
}

/// Judges a certificate for a claim on an MPS program: reads both texts and writes the verdict that
/// they come to. Tells nothing.
pub(crate) fn verify_program<D: Desk>(
    alloc: Global,
    layout: Layout,
    mps: &str,
    certificate: &str,
    desk: &mut D,
) -> Answer
    ensures { IsAtRest
        (verify_promise (D.meaning desk.old).texts (mps_claim_row layout) mps.now certificate.now)
        (D.meaning desk.old) (D.meaning desk.new) result }
{
    let read = match open_text(alloc, desk, layout, mps) {
        Ok(read) => read,
        Err(ended) => return ended,
    };
    let judged = to_linear(alloc, &read);
    drop(read);
    let linear = match answered(judged) {
        Ok(linear) => linear,
        Err(ended) => return ended,
    };
    let given = match open_for(alloc, desk, &linear, certificate) {
        Ok(given) => given,
        Err(ended) => {
            drop(linear);
            return ended;
        }
    };
    let verdict = to_verdict(alloc, linear, &given);
    drop(given);
    end(desk, verdict)
}
