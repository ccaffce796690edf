// Proofs by branches of a small file: read, and checked over its folded rows by columns.
ghost use Rattle.std.specs.Prelude.{◌≡◌, ◌<◌};
ghost use Rattle.problems.specs.Files.{IsProofIn};

use crate::segments::file_of;
use branch_proof::{Claim, Proof, ProofNode, ProofReader, ProofVerdict, check_proof, read_proof};
use certificate_check::Columns;
use exact_numbers::Dec;
use example_texts::proof_texts::{ONE_WHOLE, TWO_LEAVES};
use linear_fold::fold_all;
use nl_model::NlFile;
use std::alloc::Global;
use std::marker::Brand;
use std::process::Abort;
use text_base::{Blank, Ledger, Steps};

// Whether it claims that no point has a better value of this objective.
fn says_value(claim: Claim, objective: u32, value: Dec) -> bool {
    match claim {
        Claim::Value(number, stated) => number == objective && stated == value,
        Claim::Infeasible => false,
    }
}

// Whether it has these parts.
fn is_two_leaves(proof: &Proof) -> bool {
    let nodes = [
        ProofNode::Split(0, 1),
        ProofNode::Weights(1),
        ProofNode::Duals(0),
    ];
    says_value(proof.claim(), 0, Dec::of_whole(2))
        && proof.nodes() == nodes.as_slice()
        && proof.pairs().items() == [(0, Dec::of_whole(1))].as_slice()
}

#[test]
fn a_proof_is_read(rt: HostRuntime) {
    let file = file_of(&rt, rt.alloc(), ONE_WHOLE);
    let proof = read_proof(rt.alloc(), &file, TWO_LEAVES.as_bytes()).expect(&rt, "a proof");
    drop(file);
    assert!(rt; is_two_leaves(&proof));
    drop(proof);
}

// The verdict on a proof of a file with its objective 0.
#[tactic(auto, using(problems::proofs::ProofFiles::proof_of))]
fn verdict_on<L: Ledger>(
    rt: &impl Abort,
    alloc: Global,
    file: &NlFile,
    proof: &Proof,
    blank: Blank,
) -> ProofVerdict
    requires proof { IsProofIn file.now proof.now }
    requires name { blank.name ≡ L.name }
    requires parts { blank.parts ≡ L.parts }
    requires some { 0 < blank.parts }
{
    let mut steps = Steps::<L>::new(blank);
    let linear = fold_all(alloc, file, 0, &mut steps).expect(rt, "a program");
    let columns = Columns::of(alloc, &linear).expect(rt, "memory");
    drop(linear);
    let verdict = check_proof(alloc, &columns, proof);
    drop(columns);
    verdict.expect(rt, "memory")
}

#[test]
fn a_proof_is_checked(rt: HostRuntime) {
    let file = file_of(&rt, rt.alloc(), ONE_WHOLE);
    let proof = read_proof(rt.alloc(), &file, TWO_LEAVES.as_bytes()).expect(&rt, "a proof");
    let verdict = verdict_on::<Brand>(&rt, rt.alloc(), &file, &proof, Blank::new(1));
    drop(proof);
    drop(file);
    assert!(rt; verdict == ProofVerdict::Yes);
}

#[test]
fn a_proof_comes_in_pieces(rt: HostRuntime) {
    let file = file_of(&rt, rt.alloc(), ONE_WHOLE);
    let mut reader = ProofReader::new(rt.alloc(), &file).expect(&rt, "memory");
    for piece in TWO_LEAVES.as_bytes().chunks(1) {
        assert!(rt; reader.feed(piece).is_ok());
    }
    let proof = reader.finish().expect(&rt, "a proof");
    assert!(rt; is_two_leaves(&proof));
    drop(proof);
    drop(file);
}
