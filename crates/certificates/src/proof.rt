// Proofs as they are written.
ghost use Rattle.std.specs.Prelude.{◌≡◌};

use exact_numbers::Dec;
use linear_program::Terms;
use std::marker::Model;

/// What a proof claims: that no feasible point has a better value of an objective, or that there is
/// no relaxed point.
#[derive(Clone, Copy)]
pub enum Claim {
    Value(u32, Dec),
    Infeasible,
}

/// A node of a tree in prefix order: a split of a variable at a number, or a leaf with the number
/// of its pairs.
#[derive(Clone, Copy, PartialEq, Eq)]
pub enum ProofNode {
    Split(u32, i32),
    Duals(u32),
    Weights(u32),
}

/// A claim and a tree: its nodes in prefix order, and the pairs of all leaves in order.
#[derive(Drop)]
pub struct Proof {
    claim: Claim,
    nodes: Vec<ProofNode>,
    pairs: Terms,
}

impl Model for Proof {
    ghost use Rattle.certificates.specs.Proofs.{ProofValue};

    ghost Value = { ProofValue };

    ghost view = { λ p. record { claim = p.claim; nodes = p.nodes.items; pairs = p.pairs } };
}

impl Proof {
    /// The proof of these parts.
    pub fn of_parts(claim: Claim, nodes: Vec<ProofNode>, pairs: Terms) -> Proof
        ensures { result ≡ record { claim = claim; nodes = nodes.items; pairs = pairs } }
    {
        Proof {
            claim,
            nodes,
            pairs,
        }
    }

    /// The claim.
    pub fn claim(&self) -> Claim
        ensures { result ≡ self.now.claim }
    {
        self.claim
    }

    /// The nodes in prefix order.
    pub fn nodes(&self) -> &[ProofNode]
        ensures { result.now ≡ self.now.nodes }
    {
        &self.nodes
    }

    /// The pairs of all leaves, in order: a row and its number.
    pub fn pairs(&self) -> &Terms
        ensures { result.now ≡ self.now.pairs }
    {
        &self.pairs
    }
}
