// Rows that are judged by themselves.
ghost use Rattle.std.specs.Prelude.{◌≡◌, Some};
ghost use Rattle.text_base.specs.Judged.{Decides};
ghost use Rattle.text_base.specs.Words.{texts};
ghost use Rattle.branch_proof.specs.Rows.{claim_in};
ghost use Rattle.branch_proof.specs.Tests.{claim_tests, first_tests};

use crate::fault::ProofReason;
use crate::words::{claim_in, is_claim_row};
use certificate_text::is_first_row;
use certificates::proof::Claim;

/// Whether the row is the first one.
#[tactic(auto, unfolding(crate::specs::Tests::first_tests))]
pub(crate) fn judge_first(words: &[&[u8]]) -> Result<(), ProofReason>
    ensures { Decides (first_tests (texts words.now)) (λ _. Unit {0}) result }
{
    if !is_first_row(b"proof".as_slice(), words) {
        return Err(ProofReason::BadFirst);
    }
    Ok(())
}

/// The claim of a row, or why it has none.
#[tactic(auto, unfolding(crate::specs::Tests::claim_tests))]
pub(crate) fn read_claim(words: &[&[u8]]) -> Result<Claim, ProofReason>
    ensures { Decides (claim_tests (texts words.now))
        (λ c. claim_in (texts words.now) ≡ Some c) result }
{
    if !is_claim_row(words) {
        return Err(ProofReason::BadLine);
    }
    match claim_in(words) {
        Some(claim) => Ok(claim),
        None => Err(ProofReason::BadNumber),
    }
}
