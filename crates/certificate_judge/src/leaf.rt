// Whether a leaf closes.
ghost use Rattle.std.specs.Prelude.{◌≡◌, ℕ, if◌then◌else◌, None, Some};
ghost use Rattle.std.specs.Option.{option_map};
ghost use Rattle.certificates.specs.Branch.{is_as_good, open_gap};
ghost use Rattle.certificates.specs.Parts.{Part};
ghost use Rattle.certificates.specs.Verdict.{bound};
ghost use Rattle.exact_numbers.specs.Values.{frac_value};
ghost use Rattle.exact_checks.specs.Answers.{bound_answer_of};
ghost use Rattle.certificate_judge.specs.Outcomes.{leaf_fault_of};
ghost use Rattle.certificate_judge.specs.Walks.{leaf_check};

use crate::outcome::LeafFault;
use exact_checks::{BoundVerdict, Goal, frac_is_at_most};
use exact_numbers::Frac;

pub(crate) fn is_as_good(maximise: bool, a: Frac, b: Frac) -> bool
    ensures { result ≡ is_as_good maximise (frac_value a) (frac_value b) }
{
    if maximise {
        frac_is_at_most(b, a)
    } else {
        frac_is_at_most(a, b)
    }
}

// Whether a bound closes a leaf of a part with this sense and this value.
fn closes(goal: Goal, maximise: bool, value: Frac, found: Frac) -> bool
    ensures { (p : Part) → p.program.maximise ≡ maximise → p.value ≡ frac_value value → (k : ℕ)
        → leaf_check goal p k (bound (frac_value found))
        ≡ (if result then None else Some (open_gap k (frac_value found))) }
{
    match goal {
        Goal::Objective => is_as_good(maximise, value, found),
        Goal::Zero => !frac_is_at_most(found, Frac::zero()),
    }
}

// Why a leaf with this bound does not close.
pub(crate) fn leaf_fault(
    goal: Goal,
    maximise: bool,
    value: Frac,
    bound: BoundVerdict,
) -> Option<LeafFault>
    ensures { (p : Part) → p.program.maximise ≡ maximise → p.value ≡ frac_value value → (k : ℕ)
        → option_map (leaf_fault_of k) result ≡ leaf_check goal p k (bound_answer_of bound) }
{
    match bound {
        BoundVerdict::Bound(bound) => {
            if closes(goal, maximise, value, bound) {
                None
            } else {
                Some(LeafFault::Gap(bound))
            }
        }
        BoundVerdict::RowSideMissing(row) => Some(LeafFault::RowSide(row)),
        BoundVerdict::BoundSideMissing(variable) => Some(LeafFault::BoundSide(variable)),
        BoundVerdict::TooWide(_) => Some(LeafFault::TooWide),
    }
}
