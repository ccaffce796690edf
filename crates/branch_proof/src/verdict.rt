// The verdict on a proof.
ghost use Rattle.std.specs.Prelude.{◌≡◌};
ghost use Rattle.certificate_judge.specs.Outcomes.{fault_found};
ghost use Rattle.branch_proof.specs.Leaves.{fault_of};

use certificate_judge::LeafFault;
use exact_numbers::Frac;

/// Whether a proof holds, or the first leaf that does not close; leaves are counted from 0.
#[derive(Clone, Copy, PartialEq, Eq)]
pub enum ProofVerdict {
    Yes,
    RowSide(u32, u32),
    BoundSide(u32, u32),
    TooWide(u32),
    Gap(u32, Frac),
}

// Yes where no leaf was found that does not close.
pub(crate) fn verdict_of(found: Option<(u32, LeafFault)>) -> ProofVerdict
    ensures { fault_of result ≡ fault_found found }
{
    match found {
        None => ProofVerdict::Yes,
        Some((leaf, LeafFault::RowSide(row))) => ProofVerdict::RowSide(leaf, row),
        Some((leaf, LeafFault::BoundSide(variable))) => ProofVerdict::BoundSide(leaf, variable),
        Some((leaf, LeafFault::TooWide)) => ProofVerdict::TooWide(leaf),
        Some((leaf, LeafFault::Gap(bound))) => ProofVerdict::Gap(leaf, bound),
    }
}
