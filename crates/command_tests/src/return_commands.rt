// The command return over a desk in memory: the .sol texts of answers for small files.

use crate::commands::comes_to;
use example_texts::nl_texts::{Sizes, header, text_of};
use std::alloc::Global;
use std::process::Abort;

// Maximise 3 x, where 2 x is at most 7 and x is at least 0.
const MOST: &str = "O0 1\nn0\nr\n1 7\nb\n2 0\nJ0 1\n0 2\nG0 1\n0 3\n";

// x / 3 + y is at most 1.
const THIRDS: &str = "C0\no0\no3\nv0\nn3\nv1\nr\n1 1\nb\n3\n3\nJ0 2\n0 0\n1 0\n";

// Minimise x / 3.
const TIED: &str = "O0 0\no3\nv0\nn3\nb\n3\nG0 1\n0 0\n";

// Whether the status is this, and the text written or the line told, for a file and an answer with
// its first line before this.
fn returns_so(
    rt: &impl Abort,
    alloc: Global,
    file: (Sizes, &str),
    rest: &str,
    wanted: (u8, &str),
) -> bool {
    let nl = text_of(alloc, &file.0, file.1).expect(rt, "memory");
    let mut answer = String::from_str(alloc, "answer 1\n").expect(rt, "memory");
    answer.push_str(rest).expect(rt, "memory");
    let texts = [("a.nl", nl.as_bytes()), ("a.answer", answer.as_bytes())];
    let words = ["return", "a.nl", "a.answer"];
    comes_to(rt, alloc, &texts, &words, wanted.0, wanted.1)
}

#[test]
fn returns_answers(rt: HostRuntime) {
    let most = (header("1 1 1", "1 1", "0"), MOST);
    let thirds = (header("2 1 0", "2 0", "0"), THIRDS);
    let tied = (header("1 0 1", "0 1", "0"), TIED);
    let cases = [
        (
            most,
            "status 0\nmessage done\nsign min\ncol x0 3.5\nrow c0 -1.5\n",
            0,
            "done\n\nOptions\n3\n1\n1\n0\n1\n1\n1\n1\n1.5\n3.5\nobjno 0 0\n",
        ),
        (
            most,
            "suffix 0 sstatus x0 1\ncol x0 3.5\n",
            0,
            "\nOptions\n3\n1\n1\n0\n1\n0\n1\n1\n3.5\nsuffix 0 1 8 0 0\nsstatus\n0 1\n",
        ),
        (
            thirds,
            "status 0\nrow c0 0.5\n",
            0,
            "\nOptions\n3\n1\n1\n0\n1\n1\n2\n0\n1.5\nobjno 0 0\n",
        ),
        (
            tied,
            "status 0\ncol x0 0\ncol z 0\nrow zdef 0.5\n",
            0,
            "\nOptions\n3\n1\n1\n0\n0\n0\n1\n1\n0\nobjno 0 0\n",
        ),
    ];
    for (file, rest, status, out) in cases {
        assert!(rt;
            returns_so(&rt, rt.alloc(), file, rest, (status, out)),
            "at {rest}"
        );
    }
}
