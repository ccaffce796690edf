// The command check over a desk in memory: the verdicts on solutions of one file.

use crate::commands::comes_to;
use example_texts::nl_texts::{header, text_of};
use std::alloc::Global;
use std::process::Abort;

// Minimise 2 x0 + 3 x1, where x0 + x1 is at least 4, x0 is from 0 to 3 and x1 at least 0.
const LEAST: &str = "O0 0\nn0\nr\n2 4\nb\n0 0 3\n2 0\nJ0 2\n0 1\n1 1\nG0 2\n0 2\n1 3\n";

// Maximise 2 x0 + 3 x1, where x0 + x1 is at most 4, x0 is from 0 to 3 and x1 at most 3.
const MOST: &str = "O0 1\nn0\nr\n1 4\nb\n0 0 3\n1 3\nJ0 2\n0 1\n1 1\nG0 2\n0 2\n1 3\n";

// Whether the status is this, and the verdict or the line told, for a body and what follows the
// options: the counts, the values and the objective's line.
fn judges_so(rt: &impl Abort, alloc: Global, body: &str, values: &str, wanted: (u8, &str)) -> bool {
    let nl = text_of(alloc, &header("2 1 1", "2 2", "0"), body).expect(rt, "memory");
    let mut sol = String::from_str(alloc, "done\n\nOptions\n0\n").expect(rt, "memory");
    sol.push_str(values).expect(rt, "memory");
    let texts = [("a.nl", nl.as_bytes()), ("a.sol", sol.as_bytes())];
    let words = ["check", "a.nl", "a.sol"];
    comes_to(rt, alloc, &texts, &words, wanted.0, wanted.1)
}

#[test]
fn judges_solutions(rt: HostRuntime) {
    let cases = [
        (LEAST, "1\n1\n2\n2\n3\n3\n1\n", 0, "yes 9\n"),
        (
            LEAST,
            "1\n1\n2\n2\n2.5\n3\n1\nobjno 0 0\n",
            1,
            "gap 9 17/2\n",
        ),
        (LEAST, "1\n1\n2\n2\n3\n0\n4\n", 1, "gap 12 9\n"),
        (LEAST, "1\n1\n2\n2\n3\n3\n0\n", 1, "row 0 broken\n"),
        (LEAST, "1\n1\n2\n2\n3\n4\n0\n", 1, "bound 0 broken\n"),
        (LEAST, "1\n1\n2\n2\n-1\n3\n1\n", 1, "row 0 has no side\n"),
        (LEAST, "1\n1\n2\n2\n4\n3\n1\n", 1, "bound 1 has no side\n"),
        (MOST, "1\n1\n2\n2\n2\n1\n3\n", 0, "yes 11\n"),
    ];
    for (body, values, status, line) in cases {
        assert!(rt;
            judges_so(&rt, rt.alloc(), body, values, (status, line)),
            "at {line}"
        );
    }
}
