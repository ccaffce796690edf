// The commands verify and certified over a desk in memory: each claim and each kind of verdict on
// certificates for a small file, and the .sol texts of claims.

use crate::commands::comes_to;
use example_texts::proof_texts::ONE_WHOLE;
use std::alloc::Global;
use std::process::Abort;

// Whether the status of a command on both files is this, and what is written, or the line told.
fn ends_so(
    rt: &impl Abort,
    alloc: Global,
    command: &str,
    nl: &str,
    certificate: &str,
    wanted: (u8, &str),
) -> bool {
    let texts = [("a.nl", nl.as_bytes()), ("a.txt", certificate.as_bytes())];
    let words = [command, "a.nl", "a.txt"];
    comes_to(rt, alloc, &texts, &words, wanted.0, wanted.1)
}

// The same, of a certificate with its first line before this.
fn gives_so(
    rt: &impl Abort,
    alloc: Global,
    command: &str,
    nl: &str,
    rest: &str,
    wanted: (u8, &str),
) -> bool {
    let mut certificate = String::from_str(alloc, "certificate 1\n").expect(rt, "memory");
    certificate.push_str(rest).expect(rt, "memory");
    ends_so(rt, alloc, command, nl, &certificate, wanted)
}

// The same of a verdict.
fn begins_well(rt: &impl Abort, alloc: Global, nl: &str, rest: &str, wanted: (u8, &str)) -> bool {
    gives_so(rt, alloc, "verify", nl, rest, wanted)
}

// The least whole x from 0 to 5 with 2 x at least 3 is 2.
#[test]
fn judges_certificates(rt: HostRuntime) {
    let cases = [
        (
            "optimal 0\npoint 1\n0 2\nsplit 0 1\nweights 1\n0 1\nduals 0\n",
            0,
            "optimal 2\n",
        ),
        (
            "within 0 3/2\npoint 1\n0 2\nduals 1\n0 1/2\n",
            0,
            "within 3/2 2\n",
        ),
        ("bound 0 3/2\nduals 1\n0 1/2\n", 0, "bound 3/2\n"),
        ("feasible 0\npoint 1\n0 10/2\n", 0, "feasible 5\n"),
        ("feasible 0\npoint 0\n", 1, "row 0 broken\n"),
        ("feasible 0\npoint 1\n0 6\n", 1, "bound 0 broken\n"),
        ("feasible 0\npoint 1\n0 5/2\n", 1, "variable 0 not whole\n"),
        (
            "unbounded 0\npoint 1\n0 2\nray 1\n0 1\n",
            1,
            "ray bound 0 broken\n",
        ),
        (
            "unbounded 0\npoint 1\n0 2\nray 0\n",
            1,
            "ray does not improve\n",
        ),
        ("bound 0 2\nduals 1\n0 1/2\n", 1, "leaf 0 gap 3/2\n"),
        (
            "bound 0 2\nduals 1\n0 -1/2\n",
            1,
            "leaf 0 row 0 has no side\n",
        ),
        (
            "bound 1 2\nduals 0\n",
            2,
            "refused objective 1: no such objective\n",
        ),
    ];
    for (rest, status, line) in cases {
        assert!(rt;
            begins_well(&rt, rt.alloc(), ONE_WHOLE, rest, (status, line)),
            "at {rest}"
        );
    }
}

#[test]
fn judges_certificates_of_other_files(rt: HostRuntime) {
    let cases = [
        (
            "0 0 5",
            "0 0 1",
            "infeasible\nweights 1\n0 1\n",
            0,
            "infeasible\n",
        ),
        (
            "0 0 5",
            "3",
            "bound 0 2\nplane 1 1\n0 1\nweights 2\n0 1\n1 -2\nduals 1\n1 1\n",
            0,
            "bound 2\n",
        ),
        (
            "0 1 0 0 0",
            "0 0 0 0 0",
            "bound 0 3/2\nlemma 1 -3/2\n0 -1\nduals 1\n0 -1/2\nduals 1\n1 -1\n",
            0,
            "bound 3/2\n",
        ),
        (
            "0 0 5",
            "3",
            "bound 0 2\nduals 0\n",
            1,
            "leaf 0 bound 0 has no side\n",
        ),
    ];
    for (old, new, rest, status, line) in cases {
        let nl = ONE_WHOLE
            .replace(rt.alloc(), old, new)
            .expect(&rt, "memory");
        assert!(rt;
            begins_well(&rt, rt.alloc(), &nl, rest, (status, line)),
            "at {rest}"
        );
    }
}

// With the objective turned and no upper bound.
#[test]
fn shows_that_there_is_no_end(rt: HostRuntime) {
    let nl = ONE_WHOLE
        .replace(rt.alloc(), "O0 0", "O0 1")
        .expect(&rt, "memory")
        .as_str()
        .replace(rt.alloc(), "0 0 5", "2 0")
        .expect(&rt, "memory");
    let rest = "unbounded 0\npoint 1\n0 2\nray 1\n0 1\n";
    assert!(rt; begins_well(&rt, rt.alloc(), &nl, rest, (0, "unbounded\n")));
}

// Of a tree, which has no duals; of one leaf, with its dual; of a claim that does not hold.
#[test]
fn certifies_answers(rt: HostRuntime) {
    let cases = [
        (
            "optimal 0\npoint 1\n0 2\nsplit 0 1\nweights 1\n0 1\nduals 0\n",
            0,
            "optimal 2\n\nOptions\n3\n1\n1\n0\n1\n0\n1\n1\n2\nobjno 0 0\n",
        ),
        (
            "bound 0 3/2\nduals 1\n0 1/2\n",
            0,
            "bound 3/2\n\nOptions\n3\n1\n1\n0\n1\n1\n1\n0\n0.5\nobjno 0 450\n",
        ),
        ("feasible 0\npoint 0\n", 1, ""),
        (
            "bound 1 2\nduals 0\n",
            2,
            "refused objective 1: no such objective\n",
        ),
    ];
    for (rest, status, out) in cases {
        assert!(rt;
            gives_so(&rt, rt.alloc(), "certified", ONE_WHOLE, rest, (status, out)),
            "at {rest}"
        );
    }
}

// A point of a third.
#[test]
fn refuses_a_value_without_a_decimal(rt: HostRuntime) {
    let nl = ONE_WHOLE
        .replace(rt.alloc(), "0 1 0 0 0", "0 0 0 0 0")
        .expect(&rt, "memory");
    let refused = "refused file 2: value not decimal\n";
    let rest = "feasible 0\npoint 1\n0 5/3\n";
    assert!(rt; gives_so(&rt, rt.alloc(), "certified", &nl, rest, (2, refused)));
}
