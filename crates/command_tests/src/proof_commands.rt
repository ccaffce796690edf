// The command prove over a desk in memory: verdicts on proofs of small files.

use crate::commands::comes_to;
use example_texts::nl_texts::KNAPSACK;
use example_texts::proof_texts::ONE_WHOLE;
use std::alloc::Global;
use std::process::Abort;

// The optimum of the knapsack is 17: the third is left out; or it is in, and then neither of the
// others fits.
const KNAPSACK_PROOF: &str =
    "proof 1\nvalue 0 17\nsplit 2 0\nduals 0\nsplit 0 0\nsplit 1 0\nduals 0\nweights 1\n0 -1\nweights 1\n0 -1\n";

// Whether the status is this, and the verdict, or the line told.
fn judges_so(rt: &impl Abort, alloc: Global, nl: &str, proof: &str, wanted: (u8, &str)) -> bool {
    let texts = [("a.nl", nl.as_bytes()), ("a.proof", proof.as_bytes())];
    let words = ["prove", "a.nl", "a.proof"];
    comes_to(rt, alloc, &texts, &words, wanted.0, wanted.1)
}

// The same, of a proof with its first line before this.
fn begins_well(rt: &impl Abort, alloc: Global, nl: &str, rest: &str, wanted: (u8, &str)) -> bool {
    let mut proof = String::from_str(alloc, "proof 1\n").expect(rt, "memory");
    proof.push_str(rest).expect(rt, "memory");
    judges_so(rt, alloc, nl, &proof, wanted)
}

#[test]
fn judges_proofs(rt: HostRuntime) {
    let cases = [
        (
            "value 0 2\nsplit 0 1\nweights 1\n0 1\nduals 0\n",
            0,
            "proved\n",
        ),
        (
            "value 0 2.5\nsplit 0 1\nweights 1\n0 1\nduals 0\n",
            1,
            "leaf 1 gap 2\n",
        ),
        (
            "value 0 2\nsplit 0 1\nweights 1\n0 1\nsplit 0 3\nduals 0\nduals 0\n",
            0,
            "proved\n",
        ),
        (
            "value 0 2\nsplit 0 1\nsplit 0 3\nweights 1\n0 1\nduals 0\nduals 0\n",
            0,
            "proved\n",
        ),
        ("value 0 1\nduals 1\n0 0.25\n", 1, "leaf 0 gap 3/4\n"),
        (
            "infeasible\nweights 1\n0 -1\n",
            1,
            "leaf 0 row 0 has no side\n",
        ),
        ("infeasible\nweights 1\n0 1e-400\n", 1, "leaf 0 too wide\n"),
        ("infeasible\nweights 0\n", 1, "leaf 0 gap 0\n"),
        (
            "value 1 2\nduals 0\n",
            2,
            "refused objective 1: no such objective\n",
        ),
    ];
    for (rest, status, line) in cases {
        assert!(rt;
            begins_well(&rt, rt.alloc(), ONE_WHOLE, rest, (status, line)),
            "at {rest}"
        );
    }
}

#[test]
fn judges_proofs_of_other_files(rt: HostRuntime) {
    let cases = [
        (
            "0 0 5",
            "0 0 1",
            "infeasible\nweights 1\n0 1\n",
            0,
            "proved\n",
        ),
        ("O0 0", "O0 1", "value 0 5\nduals 0\n", 0, "proved\n"),
        ("O0 0", "O0 1", "value 0 4\nduals 0\n", 1, "leaf 0 gap 5\n"),
        (
            "0 0 5",
            "3",
            "value 0 2\nduals 0\n",
            1,
            "leaf 0 bound 0 has no side\n",
        ),
    ];
    for (old, new, rest, status, line) in cases {
        let nl = ONE_WHOLE
            .replace(rt.alloc(), old, new)
            .expect(&rt, "memory");
        assert!(rt;
            begins_well(&rt, rt.alloc(), &nl, rest, (status, line)),
            "at {rest}"
        );
    }
}

#[test]
fn proves_the_optimum_of_the_knapsack(rt: HostRuntime) {
    let alloc = rt.alloc();
    assert!(rt; judges_so(&rt, alloc, KNAPSACK, KNAPSACK_PROOF, (0, "proved\n")));
    let better = KNAPSACK_PROOF
        .replace(alloc, "value 0 17", "value 0 16")
        .expect(&rt, "memory");
    let gap = (1, "leaf 0 gap 17\n");
    assert!(rt; judges_so(&rt, alloc, KNAPSACK, &better, gap));
}
