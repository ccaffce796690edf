// The tree of a proof as that of a certificate.
ghost use Rattle.std.specs.Prelude.{◌≡◌, [], IfOk, length};
ghost use Rattle.linear_program.specs.Linear.{Linear, row_count};
ghost use Rattle.exact_checks.specs.Programs.{program_value};
ghost use Rattle.branch_proof.specs.InsideConverted.{HasCutNumber, IsTreeFor, node_with};
ghost use Rattle.certificates.specs.Proofs.{announced_pairs, IsProofOf};
ghost use Rattle.branch_proof.specs.InsideNumbers.{AreReady};

use crate::ordered_pairs::Numbers;
use certificates::CertificateNode;
use certificates::proof::{Proof, ProofNode};
use exact_checks::Program;
use linear_program::Number;
use std::alloc::{AllocError, Global};

// Nodes in prefix order, and the pairs of all leaves, each with its rows in order.
#[derive(Drop)]
pub(crate) struct Tree {
    pub(crate) nodes: Vec<CertificateNode>,
    pub(crate) pairs: Vec<(u32, Number)>,
}

// How many pairs a node has.
fn announced_pairs(node: ProofNode) -> u32
    ensures { result ≡ announced_pairs node }
{
    match node {
        ProofNode::Split(_, _) => 0,
        ProofNode::Duals(count) => count,
        ProofNode::Weights(count) => count,
    }
}

// The node of a certificate, with so many pairs where it is a leaf.
fn node_with(node: ProofNode, count: u32) -> CertificateNode
    ensures node { result ≡ node_with node count }
    ensures number { HasCutNumber result }
{
    match node {
        ProofNode::Split(variable, most) => CertificateNode::Split(variable, most as i128),
        ProofNode::Duals(_) => CertificateNode::Duals(count),
        ProofNode::Weights(_) => CertificateNode::Weights(count),
    }
}

// Room for the tree of a proof.
fn room(alloc: Global, proof: &Proof) -> Result<Tree, AllocError>
    ensures nodes { IfOk result (λ t. t.nodes.items ≡ []) }
    ensures pairs { IfOk result (λ t. t.pairs.items ≡ []) }
{
    let nodes = Vec::with_capacity(alloc, proof.nodes().len())?;
    let pairs = Vec::with_capacity(alloc, proof.pairs().len())?;
    Ok(Tree { nodes, pairs })
}

// Writes each node with its pairs.
fn write(proof: &Proof, numbers: &mut Numbers, tree: &mut Tree) -> Result<(), AllocError>
    requires ready { AreReady (length numbers.old.by_row.items) numbers.old }
    requires proof { (f : Linear) × (row_count f ≡ length numbers.old.by_row.items)
        × IsProofOf f proof.now }
    requires nodes { tree.old.nodes.items ≡ [] }
    requires pairs { tree.old.pairs.items ≡ [] }
    ensures tree { IfOk result (λ u. (f : Linear)
        → row_count f ≡ length numbers.old.by_row.items → (h : IsProofOf f proof.now)
        → IsTreeFor f h.tree tree.new.nodes.items tree.new.pairs.items) }
    ensures count { IfOk result (λ u. length tree.new.nodes.items ≡ length proof.now.nodes) }
{
    let mut rest = proof.pairs().items();
    for node in proof.nodes() {
        let (own, later) = rest.split_at(announced_pairs(*node) as usize);
        let count = numbers.put(own, &mut tree.pairs)?;
        tree.nodes.push(node_with(*node, count as u32))?;
        rest = later;
    }
    Ok(())
}

// The most pairs that a node has: room alone, so no clause speaks of the number.
fn most_pairs(nodes: &[ProofNode]) -> u32 {
    let mut most = 0;
    for node in nodes {
        most = most.max(announced_pairs(*node));
    }
    most
}

// The tree of a proof as that of a certificate.
pub(crate) fn tree_of(alloc: Global, program: &Program, proof: &Proof) -> Result<Tree, AllocError>
    requires { IsProofOf (program_value program.now) proof.now }
    ensures tree { IfOk result (λ t. (h : IsProofOf (program_value program.now) proof.now)
        → IsTreeFor (program_value program.now) h.tree t.nodes.items t.pairs.items) }
    ensures count { IfOk result (λ t. length t.nodes.items ≡ length proof.now.nodes) }
{
    let mut numbers = Numbers::new(alloc, program.n_con(), most_pairs(proof.nodes()) as usize)?;
    let mut tree = room(alloc, proof)?;
    write(proof, &mut numbers, &mut tree)?;
    Ok(tree)
}
