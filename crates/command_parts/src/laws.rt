// Each law is proved by a function with an empty body.
ghost use Rattle.std.specs.Prelude.{List, ℕ, length};
ghost use Rattle.answer_file.specs.Names.{Setting as AnswerSetting};
ghost use Rattle.certificates.specs.Setting.{Setting as CertificateSetting};
ghost use Rattle.linear_fold.specs.FoldedFaults.{HasFaultPlace};
ghost use Rattle.linear_fold.specs.declared.fold_fault.FoldFault.{FoldFault};
ghost use Rattle.name_files.specs.Names.{Counts};
ghost use Rattle.nl_segments.specs.Grammar.{NlValue};
ghost use Rattle.nl_segments.specs.Reader.{IsNl};
ghost use Rattle.text_base.specs.Reading.{lines_of};
ghost use Rattle.command_parts.specs.NameLists.{IsListRefused};
ghost use Rattle.command_parts.specs.NlTold.{HasFaultLine};
ghost use Rattle.command_parts.specs.Refusal.{HasTextRefusal, IsAnswerRefused, IsCertificateRefused, IsFixedRefused, IsMpsRefused, IsProofRefused, IsSolRefused};
ghost use Rattle.command_parts.specs.Stages.{CannotBeExported};
ghost use Rattle.command_parts.specs.ToldLines.{TellsLine, TellsPlace};

/// What is told of a text that is refused, whichever reader refuses it, names the text by its number
/// among the files of the command, and one of its lines or the line after the last, and never line
/// 0. What is told of a file that does not fold or scale may name a row or the objective instead. A
/// fault of the fold at a place of the file stands at one of its lines.
#[tactic(auto, using(crate::proofs::FaultLines::text_told, crate::proofs::FaultLines::sol_told, crate::proofs::FaultLines::mps_told, crate::proofs::FaultLines::fixed_told, crate::proofs::FaultLines::fault_lines))]
pub fn told_lines_are_lines()
    ensures nl { (text told : List ℕ) → HasTextRefusal text told → TellsLine 1 text told }
    ensures sol { (file : ℕ) (text told : List ℕ) → IsSolRefused file text told
        → TellsLine file text told }
    ensures answer { (s : AnswerSetting) (text told : List ℕ) → IsAnswerRefused s text told
        → TellsLine 2 text told }
    ensures names { (counts : Counts) (file : ℕ) (text told : List ℕ)
        → IsListRefused counts file text told → TellsLine file text told }
    ensures proof { (s : CertificateSetting) (file : ℕ) (text told : List ℕ)
        → IsProofRefused s file text told → TellsLine file text told }
    ensures certificate { (s : CertificateSetting) (file : ℕ) (text told : List ℕ)
        → IsCertificateRefused s file text told → TellsLine file text told }
    ensures mps { (text told : List ℕ) → IsMpsRefused text told → TellsLine 1 text told }
    ensures fixed { (text told : List ℕ) → IsFixedRefused text told → TellsLine 1 text told }
    ensures stages { (text : List ℕ) (value : NlValue) (k : ℕ) (told : List ℕ) → IsNl text value
        → CannotBeExported value k told → TellsPlace text told }
    ensures places { (text : List ℕ) (value : NlValue) (fault : FoldFault) → IsNl text value
        → HasFaultPlace value.file fault → HasFaultLine (length (lines_of text)) value.places
        fault }
{}
