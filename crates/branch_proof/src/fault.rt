// What is wrong with a proof text.
ghost use Rattle.std.specs.Prelude.{◌≡◌, ◌≤◌, length};
ghost use Rattle.branch_proof.specs.Reasons.{proof_reason_text};

use std::fmt;
use text_base::TextFault;

/// Why a line is refused, in the order of the tests: a line fault first, then the others of the
/// line. `BadFirst` and `Short` may stand at the line after the last.
#[derive(Clone, Copy, Debug, PartialEq, Eq)]
pub enum ProofReason {
    LineTooLong,
    InputTooLong,
    BadFirst,
    Extra,
    BadLine,
    BadNumber,
    IndexOut,
    NotWhole,
    RepeatedIndex,
    TooLarge,
    Short,
}

impl ProofReason {
    /// What is said of it.
    pub fn text(self) -> &'static str
        ensures text { result.now ≡ proof_reason_text self }
        ensures brief { length result.now ≤ 24 }
    {
        match self {
            ProofReason::LineTooLong => "line too long",
            ProofReason::InputTooLong => "input too long",
            ProofReason::BadFirst => "bad first line",
            ProofReason::Extra => "extra line",
            ProofReason::BadLine => "bad line",
            ProofReason::BadNumber => "bad number",
            ProofReason::IndexOut => "index out of range",
            ProofReason::NotWhole => "not whole",
            ProofReason::RepeatedIndex => "repeated index",
            ProofReason::TooLarge => "too large",
            ProofReason::Short => "short file",
        }
    }
}

impl fmt::Display for ProofReason {
    ghost use Rattle.std.specs.Prelude.{Some};
    ghost use Rattle.branch_proof.specs.Reasons.{proof_reason_text};

    ghost output = { λ reason. Some (proof_reason_text reason) };

    fn fmt<W: fmt::Write>(&self, f: &mut fmt::Formatter<W>) -> fmt::Result {
        let text = self.text();
        write!(f, "{text}")
    }
}

/// The first fault of a proof text, and the line where it stands.
pub type ProofFault = TextFault<ProofReason>;
