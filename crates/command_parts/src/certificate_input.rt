// Reading and judging the text of a certificate.
ghost use Rattle.std.specs.Prelude.{◌≡◌, ◌≢◌, IfErr, IfOk};
ghost use Rattle.certificates.specs.Setting.{IsCertificateFor};
ghost use Rattle.problems.specs.Files.{IsCertificateIn};
ghost use Rattle.certificate_text.specs.Reader.{IsCertificateText};
ghost use Rattle.problems.specs.NlSetting.{setting_of};
ghost use Rattle.certificate_text.specs.Reasons.{certificate_reason_text};
ghost use Rattle.command_core.specs.Told.{fault_line};
ghost use Rattle.command_core.specs.InsideAnswer.{status_of};
ghost use Rattle.command_parts.specs.Refusal.{IsCertificateRefused};
ghost use Rattle.command_core.specs.SeveralFiles.{ReadsFile, itself};

use crate::input::{Source, open};
use certificate_text::{CertificateFault, CertificateGrammar};
use certificates::Certificate;
use command_core::{Answer, Refusal, refusal};
use linear_program::Kind;
use nl_model::{NlFile, all_kinds};
use std::alloc::Global;
use text_base::Desk;

impl Source for CertificateGrammar {
    ghost told = { fault_line certificate_reason_text };

    fn told(number: u32, fault: CertificateFault) -> Refusal
        ensures { result.line ≡ fault_line certificate_reason_text number fault }
    {
        refusal(number, b"line", fault.line, fault.reason.text())
    }
}

/// The certificate over so many rows, and variables of these kinds, that a text says, which is this
/// one of its command, or the answer that ends the command.
pub fn open_certificate_over<D: Desk>(
    alloc: Global,
    desk: &mut D,
    rows: u32,
    kinds: Vec<Kind>,
    name: &str,
    number: u32,
) -> Result<Certificate, Answer>
    ensures reads { ReadsFile itself
        (IsCertificateText (record { rows = rows; kinds = kinds.items }))
        (IsCertificateRefused (record { rows = rows; kinds = kinds.items }) number) name.now
        (D.meaning desk.old) (D.meaning desk.new) result }
    ensures certificate { IfOk result (λ c. IsCertificateFor
        (record { rows = rows; kinds = kinds.items }) c) }
    ensures known { IfErr result (λ answer. status_of answer ≢ 3) }
{
    let grammar = CertificateGrammar::new(alloc, rows, kinds)?;
    open(alloc, desk, name, number, grammar)
}

/// The certificate of this file that a text says, which is this one of its command, or the answer
/// that ends the command.
pub fn open_certificate<D: Desk>(
    alloc: Global,
    desk: &mut D,
    file: &NlFile,
    name: &str,
    number: u32,
) -> Result<Certificate, Answer>
    ensures reads { ReadsFile itself (IsCertificateText (setting_of file.now))
        (IsCertificateRefused (setting_of file.now) number) name.now (D.meaning desk.old)
        (D.meaning desk.new) result }
    ensures certificate { IfOk result (λ c. IsCertificateIn file.now c) }
    ensures known { IfErr result (λ answer. status_of answer ≢ 3) }
{
    let kinds = all_kinds(alloc, file)?;
    let rows = file.header().counts().n_con;
    open_certificate_over(alloc, desk, rows, kinds, name, number)
}
