// The commands verify_mps and verify_fixed over a desk in memory: each claim and each kind of
// verdict on certificates for small MPS programs.

use crate::commands::comes_to;
use example_texts::mps_texts::{FIXED, WHOLE_IN_TWO};
use std::alloc::Global;
use std::process::Abort;

// Whether the status is this, and the verdict, or the line told, of a certificate.
fn comes_so(
    rt: &impl Abort,
    alloc: Global,
    command: &str,
    mps: &str,
    certificate: &str,
    wanted: (u8, &str),
) -> bool {
    let texts = [("m", mps.as_bytes()), ("c", certificate.as_bytes())];
    let words = [command, "m", "c"];
    comes_to(rt, alloc, &texts, &words, wanted.0, wanted.1)
}

// The same, of a certificate with its first line before this.
fn judges_so(
    rt: &impl Abort,
    alloc: Global,
    command: &str,
    mps: &str,
    rest: &str,
    wanted: (u8, &str),
) -> bool {
    let mut certificate = String::from_str(alloc, "certificate 1\n").expect(rt, "memory");
    certificate.push_str(rest).expect(rt, "memory");
    comes_so(rt, alloc, command, mps, &certificate, wanted)
}

// The least whole X from 0 to 5 with 2 X at least 3 is 2; that is the second row that is no N row.
#[test]
fn judges_certificates_of_programs(rt: HostRuntime) {
    let cases = [
        (
            "optimal 0\npoint 1\n0 2\nsplit 0 1\nweights 1\n1 1\nduals 0\n",
            0,
            "optimal 2\n",
        ),
        (
            "within 0 3/2\npoint 1\n0 2\nduals 1\n1 1/2\n",
            0,
            "within 3/2 2\n",
        ),
        ("bound 0 3/2\nduals 1\n1 1/2\n", 0, "bound 3/2\n"),
        ("feasible 0\npoint 1\n0 10/2\n", 0, "feasible 5\n"),
        ("feasible 0\npoint 0\n", 1, "row 1 broken\n"),
        ("feasible 0\npoint 2\n0 2\n1 1\n", 1, "row 0 broken\n"),
        ("feasible 0\npoint 1\n0 6\n", 1, "bound 0 broken\n"),
        ("feasible 0\npoint 1\n0 5/2\n", 1, "variable 0 not whole\n"),
        (
            "unbounded 0\npoint 1\n0 2\nray 1\n0 1\n",
            1,
            "ray bound 0 broken\n",
        ),
        ("bound 0 2\nduals 1\n1 1/2\n", 1, "leaf 0 gap 3/2\n"),
    ];
    for (rest, status, line) in cases {
        assert!(rt;
            judges_so(
                &rt,
                rt.alloc(),
                "verify_mps",
                WHOLE_IN_TWO,
                rest,
                (status, line)
            ),
            "at {rest}"
        );
    }
}

// With another right side there is no point; with no upper bound and the other sense, no end.
#[test]
fn judges_certificates_of_other_programs(rt: HostRuntime) {
    let cases = [
        (
            "RHS TWO 3",
            "RHS TWO 13",
            "infeasible\nweights 1\n1 1\n",
            0,
            "infeasible\n",
        ),
        (
            "ROWS",
            "OBJSENSE\n MAX\nROWS",
            "optimal 0\npoint 1\n0 5\nduals 0\n",
            0,
            "optimal 5\n",
        ),
        (
            " UP BND X 5",
            " MI BND X\n UP BND X -1",
            "infeasible\nweights 1\n1 1\n",
            0,
            "infeasible\n",
        ),
        (
            " N COST",
            "* the other N row first\n N SPARE",
            "bound 0 3/2\nduals 1\n1 1/2\n",
            2,
            "refused line 9: unknown row\n",
        ),
        (
            "RHS TWO 3",
            "RHS TWO 3 COST -7",
            "optimal 0\npoint 1\n0 2\nsplit 0 1\nweights 1\n1 1\nduals 0\n",
            0,
            "optimal 9\n",
        ),
        (
            "BOUNDS",
            "RANGES\n RNG TWO -4\nBOUNDS",
            "feasible 0\npoint 1\n0 4\n",
            1,
            "row 1 broken\n",
        ),
    ];
    for (old, new, rest, status, line) in cases {
        let mps = WHOLE_IN_TWO
            .replace(rt.alloc(), old, new)
            .expect(&rt, "memory");
        assert!(rt;
            judges_so(&rt, rt.alloc(), "verify_mps", &mps, rest, (status, line)),
            "at {new}"
        );
    }
}

#[test]
fn shows_that_a_program_has_no_end(rt: HostRuntime) {
    let mps = WHOLE_IN_TWO
        .replace(rt.alloc(), "ROWS", "OBJSENSE\n MAX\nROWS")
        .expect(&rt, "memory")
        .as_str()
        .replace(rt.alloc(), " UP BND X 5", " PL BND X")
        .expect(&rt, "memory");
    let rest = "unbounded 0\npoint 1\n0 2\nray 1\n0 1\n";
    assert!(rt;
        judges_so(
            &rt,
            rt.alloc(),
            "verify_mps",
            &mps,
            rest,
            (0, "unbounded\n")
        )
    );
}

// The example of fixed columns with X at most 5 and Y at least -1: least X - 3 Y has no end.
#[test]
fn judges_certificates_of_fixed_columns(rt: HostRuntime) {
    let cases = [
        ("feasible 0\npoint 2\n0 3\n1 2/3\n", 0, "feasible 1\n"),
        ("feasible 0\npoint 1\n0 4\n", 1, "row 0 broken\n"),
        ("feasible 0\npoint 1\n0 1/2\n", 1, "variable 0 not whole\n"),
        ("unbounded 0\npoint 0\nray 1\n1 1\n", 0, "unbounded\n"),
        (
            "bound 2 1\nduals 0\n",
            2,
            "refused objective 2: no such objective\n",
        ),
    ];
    for (rest, status, line) in cases {
        assert!(rt;
            judges_so(&rt, rt.alloc(), "verify_fixed", FIXED, rest, (status, line)),
            "at {rest}"
        );
    }
}
