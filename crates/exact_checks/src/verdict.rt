// Verdicts.
ghost use Rattle.std.specs.Prelude.{◌≡◌};
ghost use Rattle.certificates.specs.Verdict.{no_bound, IsDualFault};
ghost use Rattle.exact_checks.specs.Answers.{bound_answer_of, cause_of};

use exact_numbers::Frac;

/// Where a number does not fit.
#[derive(Clone, Copy, PartialEq, Eq)]
pub enum Spot {
    Row(u32),
    Cost(u32),
    Objective,
    Total,
}

/// What a point and the duals show.
#[derive(Clone, Copy, PartialEq, Eq)]
pub enum Verdict {
    Yes(Frac),
    RowBroken(u32),
    BoundBroken(u32),
    RowSideMissing(u32),
    BoundSideMissing(u32),
    Gap(Frac, Frac),
    TooWide(Spot),
}

/// What is minimised or maximised: the objective of the program, or 0, minimised.
#[derive(Clone, Copy, PartialEq, Eq)]
pub enum Goal {
    Objective,
    Zero,
}

/// What the duals alone show.
#[derive(Clone, Copy, PartialEq, Eq)]
pub enum BoundVerdict {
    Bound(Frac),
    RowSideMissing(u32),
    BoundSideMissing(u32),
    TooWide(Spot),
}

/// Why there is no answer.
#[derive(Clone, Copy)]
pub enum Fault {
    RowBroken(u32),
    BoundBroken(u32),
    RowSideMissing(u32),
    BoundSideMissing(u32),
    TooWide(Spot),
}

/// Why the duals alone show no bound.
pub fn bound_refusal(fault: Fault) -> BoundVerdict
    requires { IsDualFault (cause_of fault) }
    ensures { bound_answer_of result ≡ no_bound (cause_of fault) }
{
    match fault {
        Fault::RowSideMissing(row) => BoundVerdict::RowSideMissing(row),
        Fault::BoundSideMissing(variable) => BoundVerdict::BoundSideMissing(variable),
        Fault::TooWide(spot) => BoundVerdict::TooWide(spot),
        Fault::RowBroken(_) | Fault::BoundBroken(_) => BoundVerdict::TooWide(Spot::Total),
    }
}
