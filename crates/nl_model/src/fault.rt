// Why a tree has no line, and where.
ghost use Rattle.std.specs.Prelude.{◌≡◌, ◌≤◌, length};
ghost use Rattle.nl_model.specs.Reasons.{tree_reason_text};

use std::fmt;

/// Why a tree has no line.
#[derive(Clone, Copy, Debug, PartialEq, Eq)]
pub enum Reason {
    /// Neither side of a product, a divisor, or an operand that must be constant is constant.
    Nonlinear,
    DivideByZero,
    /// A number beyond fractions of 128 bits.
    TooWide,
    /// An exponent that is not whole from 0 to 127.
    RefusedPower,
}

impl Reason {
    /// What is said of it.
    pub fn text(self) -> &'static str
        ensures text { result.now ≡ tree_reason_text self }
        ensures brief { length result.now ≤ 24 }
    {
        match self {
            Reason::Nonlinear => "nonlinear",
            Reason::DivideByZero => "division by zero",
            Reason::TooWide => "too wide",
            Reason::RefusedPower => "refused power",
        }
    }
}

impl fmt::Display for Reason {
    ghost use Rattle.std.specs.Prelude.{Some};
    ghost use Rattle.nl_model.specs.Reasons.{tree_reason_text};

    ghost output = { λ reason. Some (tree_reason_text reason) };

    fn fmt<W: fmt::Write>(&self, f: &mut fmt::Formatter<W>) -> fmt::Result {
        f.write_str(self.text())
    }
}

/// A fault, at the number of its node: nodes in prefix order, then linear terms.
#[derive(Clone, Copy, Debug, PartialEq, Eq)]
pub struct Fault {
    pub place: usize,
    pub reason: Reason,
}
