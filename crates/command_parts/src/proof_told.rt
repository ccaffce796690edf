// The lines of verdicts on proofs.
ghost use Rattle.std.specs.Prelude.{◌≡◌, IfOk};
ghost use Rattle.certificate_judge.specs.Outcomes.{fault_found};
ghost use Rattle.branch_proof.specs.Leaves.{fault_of};
ghost use Rattle.command_parts.specs.ProofTold.{leaf_line};

use crate::certificate_told::failed_line;
use branch_proof::ProofVerdict;
use certificate_judge::{Cause, LeafFault};
use std::alloc::{AllocError, Global};

// The first leaf that does not close, and why.
fn open_leaf(verdict: ProofVerdict) -> Option<(u32, LeafFault)>
    ensures { fault_found result ≡ fault_of verdict }
{
    match verdict {
        ProofVerdict::Yes => None,
        ProofVerdict::RowSide(leaf, row) => Some((leaf, LeafFault::RowSide(row))),
        ProofVerdict::BoundSide(leaf, variable) => Some((leaf, LeafFault::BoundSide(variable))),
        ProofVerdict::TooWide(leaf) => Some((leaf, LeafFault::TooWide)),
        ProofVerdict::Gap(leaf, bound) => Some((leaf, LeafFault::Gap(bound))),
    }
}

/// The line of a verdict on a proof.
pub fn leaf_line(alloc: Global, verdict: ProofVerdict) -> Result<Vec<u8>, AllocError>
    ensures { IfOk result (λ line. line.items ≡ leaf_line (fault_of verdict)) }
{
    match open_leaf(verdict) {
        Some((leaf, fault)) => failed_line(alloc, Cause::Leaf(leaf, fault)),
        None => Ok(format!(in alloc; "proved\n")?.into_bytes()),
    }
}
