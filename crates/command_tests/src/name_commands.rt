// The commands export and return with names over a desk in memory: what is written with the names
// of lists, and why lists are refused.

use crate::commands::comes_to;
use example_texts::nl_texts::{KNAPSACK, Sizes, header, text_of};
use std::alloc::Global;
use std::process::Abort;

// The knapsack with the names of lists.
const NAMED: &str =
    "NAME nl\nOBJSENSE\n MAX\nROWS\n N @obj\n L Cap\nCOLUMNS\n M0 'MARKER' 'INTORG'\n a @obj 10\n a Cap 5\n b @obj 7\n b Cap 4\n z @obj 12\n z Cap 6.5\n M1 'MARKER' 'INTEND'\nRHS\n RHS Cap 10\nBOUNDS\n LO BND a 0\n UP BND a 1\n LO BND b 0\n UP BND b 1\n LO BND z 0\n UP BND z 1\nENDATA\n";

// Maximise 3 x, where 2 x is at most 7 and x is at least 0.
const MOST: &str = "O0 1\nn0\nr\n1 7\nb\n2 0\nJ0 1\n0 2\nG0 1\n0 3\n";

// Minimise x / 3.
const TIED: &str = "O0 0\no3\nv0\nn3\nb\n3\nG0 1\n0 0\n";

// Whether an export of the knapsack with these words, the objective's number and the two lists,
// comes to this status and this text.
fn exports_so(rt: &impl Abort, alloc: Global, lists: [&str; 3], wanted: (u8, &str)) -> bool {
    let [k, rows, columns] = lists;
    let texts = [
        ("a.nl", KNAPSACK.as_bytes()),
        ("a.row", rows.as_bytes()),
        ("a.col", columns.as_bytes()),
    ];
    let words = ["export", "a.nl", k, "a.row", "a.col"];
    comes_to(rt, alloc, &texts, &words, wanted.0, wanted.1)
}

#[test]
fn exports_with_names(rt: HostRuntime) {
    let cases = [
        (["0", "Cap\nProfit\n", "a\nb\nz\n"], 0, NAMED),
        (["0", "\n  Cap\n\n", "a\nb\n\nz"], 0, NAMED),
        (
            ["0", "Cap\n", "a\nb\na\n"],
            2,
            "refused file 3 line 3: repeated name\n",
        ),
        (
            ["0", "Cap\nProfit\nx\n", "a\n"],
            2,
            "refused file 2 line 3: other count\n",
        ),
        (
            ["0", "", "a\nb\nz\n"],
            2,
            "refused file 2 line 1: other count\n",
        ),
        (
            ["0", "@Cap\n", ""],
            2,
            "refused file 2 line 1: reserved name\n",
        ),
        (
            ["0", "Cap\n", "a\nb c\n"],
            2,
            "refused file 3 line 2: bad name\n",
        ),
        (
            ["1", "Cap\n", "a\nb\na\n"],
            2,
            "refused file 3 line 3: repeated name\n",
        ),
        (
            ["1", "Cap\n", "a\nb\nz\n"],
            2,
            "refused objective 1: no such objective\n",
        ),
    ];
    for (lists, status, out) in cases {
        assert!(rt;
            exports_so(&rt, rt.alloc(), lists, (status, out)),
            "at {} {}",
            lists[1],
            lists[2]
        );
    }
}

// Whether an answer for this file, whose one column is named `v`, with these names of rows comes to
// this status and this text.
fn returns_of<'a>(
    rt: &impl Abort,
    alloc: Global,
    nl: &'a str,
    lists: (&'a str, &'a str),
    wanted: (u8, &str),
) -> bool {
    let (rows, answer) = lists;
    let texts = [
        ("a.nl", nl.as_bytes()),
        ("a.answer", answer.as_bytes()),
        ("a.row", rows.as_bytes()),
        ("a.col", b"v\n"),
    ];
    let words = ["return", "a.nl", "a.answer", "a.row", "a.col"];
    comes_to(rt, alloc, &texts, &words, wanted.0, wanted.1)
}

// The same, of the file of a body after its header.
fn returns_so(
    rt: &impl Abort,
    alloc: Global,
    file: (Sizes, &str),
    lists: (&str, &str),
    wanted: (u8, &str),
) -> bool {
    let nl = text_of(alloc, &file.0, file.1).expect(rt, "memory");
    returns_of(rt, alloc, &nl, lists, wanted)
}

#[test]
fn returns_with_names(rt: HostRuntime) {
    let most = (header("1 1 1", "1 1", "0"), MOST);
    let tied = (header("1 0 1", "0 1", "0"), TIED);
    let cases = [
        (
            most,
            "r\n",
            "answer 1\nstatus 0\nmessage done\nsign min\ncol v 3.5\nrow r -1.5\n",
            0,
            "done\n\nOptions\n3\n1\n1\n0\n1\n1\n1\n1\n1.5\n3.5\nobjno 0 0\n",
        ),
        (
            tied,
            "",
            "answer 1\nstatus 0\ncol v 0\ncol @z 0\nrow @zdef 0.5\n",
            0,
            "\nOptions\n3\n1\n1\n0\n0\n0\n1\n1\n0\nobjno 0 0\n",
        ),
        (
            most,
            "r\n",
            "answer 1\ncol x0 1\n",
            2,
            "refused file 2 line 2: unknown name\n",
        ),
        (
            most,
            "r s\n",
            "none",
            2,
            "refused file 3 line 1: bad name\n",
        ),
    ];
    for (file, rows, answer, status, out) in cases {
        assert!(rt;
            returns_so(&rt, rt.alloc(), file, (rows, answer), (status, out)),
            "at {answer}"
        );
    }
}
