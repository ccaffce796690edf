// Why a linear program has no decimal program.
ghost use Rattle.std.specs.Prelude.{◌≡◌, ◌≤◌, length};
ghost use Rattle.row_scaling.specs.Reasons.{scale_fault_text};

use std::fmt;

/// The first fault of scaling: a row, by number, or the objective.
#[derive(Clone, Copy, Debug, PartialEq, Eq)]
pub enum ScaleFault {
    /// A number of this row is beyond 128 bits.
    RowTooWide(u32),
    /// The objective is not decimal, and a number of its scaled form is beyond 128 bits.
    ObjectiveTooWide,
}

impl ScaleFault {
    /// What is said of it, without its number.
    pub fn text(self) -> &'static str
        ensures text { result.now ≡ scale_fault_text self }
        ensures brief { length result.now ≤ 24 }
    {
        match self {
            ScaleFault::RowTooWide(_) => "row too wide",
            ScaleFault::ObjectiveTooWide => "objective too wide",
        }
    }
}

impl fmt::Display for ScaleFault {
    ghost use Rattle.std.specs.Prelude.{Some};
    ghost use Rattle.row_scaling.specs.Reasons.{shown_text};

    ghost output = { λ fault. Some (shown_text fault) };

    fn fmt<W: fmt::Write>(&self, f: &mut fmt::Formatter<W>) -> fmt::Result {
        let text = self.text();
        match self {
            ScaleFault::RowTooWide(i) => write!(f, "row {i}: {text}"),
            ScaleFault::ObjectiveTooWide => write!(f, "{text}"),
        }
    }
}
