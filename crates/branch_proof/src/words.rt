// The words of rows, and what they say.
ghost use Rattle.std.specs.Prelude.{◌≡◌};
ghost use Rattle.text_base.specs.Words.{texts};
ghost use Rattle.branch_proof.specs.Rows.{claim_in, is_alone, is_claim_row, is_node_row, proof_node_in, proof_pair_in, split_node, value_claim};
ghost use Rattle.certificate_text.specs.TextRows.{is_row};

use certificate_text::is_row;
use certificates::proof::{Claim, ProofNode};
use exact_numbers::{Dec, Frac, dec_of, signed_of, whole_of};
use text_base::word_at;

/// Whether a row has the first word and the number of words of a claim.
pub(crate) fn is_claim_row(words: &[&[u8]]) -> bool
    ensures { result ≡ is_claim_row (texts words.now) }
{
    is_row(b"infeasible".as_slice(), 1, words) || is_row(b"value".as_slice(), 3, words)
}

// A claim of a value that is a fraction too.
fn value_claim(number: Option<u32>, value: Option<Dec>) -> Option<Claim>
    ensures { result ≡ value_claim number value }
{
    let Some(objective) = number else {
        return None;
    };
    let Some(stated) = value else {
        return None;
    };
    match Frac::of_dec(stated) {
        Some(_) => Some(Claim::Value(objective, stated)),
        None => None,
    }
}

/// The claim of a row.
#[tactic(auto, unfolding(crate::specs::Rows::claim_in))]
pub(crate) fn claim_in(words: &[&[u8]]) -> Option<Claim>
    ensures { result ≡ claim_in (texts words.now) }
{
    if is_row(b"infeasible".as_slice(), 1, words) {
        return Some(Claim::Infeasible);
    }
    if is_row(b"value".as_slice(), 3, words) {
        return value_claim(whole_of(word_at(words, 1)), dec_of(word_at(words, 2)));
    }
    None
}

// Whether a proof has one leaf alone.
fn is_alone(claim: Option<Claim>) -> bool
    ensures { result ≡ is_alone claim }
{
    matches!(claim, Some(Claim::Infeasible))
}

/// Whether a row has the first word and the number of words of a node under this claim.
pub(crate) fn is_node_row(claim: Option<Claim>, words: &[&[u8]]) -> bool
    ensures { result ≡ is_node_row claim (texts words.now) }
{
    is_row(b"weights".as_slice(), 2, words)
        || (!is_alone(claim)
            && (is_row(b"duals".as_slice(), 2, words) || is_row(b"split".as_slice(), 3, words)))
}

fn split_node(variable: Option<u32>, most: Option<i32>) -> Option<ProofNode>
    ensures { result ≡ split_node variable most }
{
    match (variable, most) {
        (Some(j), Some(t)) => Some(ProofNode::Split(j, t)),
        _ => None,
    }
}

/// The node of a row.
#[tactic(auto, unfolding(crate::specs::Rows::proof_node_in))]
pub(crate) fn node_in(words: &[&[u8]]) -> Option<ProofNode>
    ensures { result ≡ proof_node_in (texts words.now) }
{
    let number = whole_of(word_at(words, 1));
    if is_row(b"split".as_slice(), 3, words) {
        return split_node(number, signed_of(word_at(words, 2)));
    }
    let Some(count) = number else {
        return None;
    };
    if is_row(b"duals".as_slice(), 2, words) {
        return Some(ProofNode::Duals(count));
    }
    if is_row(b"weights".as_slice(), 2, words) {
        return Some(ProofNode::Weights(count));
    }
    None
}

/// The pair of a row.
#[tactic(auto, unfolding(crate::specs::Rows::proof_pair_in))]
pub(crate) fn pair_in(words: &[&[u8]]) -> Option<(u32, Dec)>
    ensures { result ≡ proof_pair_in (texts words.now) }
{
    let Some(row) = whole_of(word_at(words, 0)) else {
        return None;
    };
    match dec_of(word_at(words, 1)) {
        Some(value) => Some((row, value)),
        None => None,
    }
}
