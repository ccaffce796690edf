// The command import over a desk in memory: what is written for a whole text.

use crate::commands::comes_to;
use example_texts::mps_texts::PAIRS;
use std::alloc::Global;
use std::process::Abort;

// What that program is imported as.
const PAIRS_IMPORTED: &str =
    "g3 1 1 0\n2 2 1 1 0\n0 0\n0 0\n0 0 0\n0 0 0 1\n0 0 0 0 0\n3 2\n0 0\n0 0 0 0 0\nO0 0\nn0\nr\n0 8 10\n1 7\nb\n1 -4\n2 0\nk1\n2\nJ0 1\n0 2\nJ1 2\n0 1\n1 1\nG0 2\n0 1\n1 -3\n";

// Whether the text is imported as this.
fn writes(rt: &impl Abort, alloc: Global, text: &str, written: &str) -> bool {
    let words = ["import", "m.mps"];
    comes_to(rt, alloc, &[("m.mps", text.as_bytes())], &words, 0, written)
}

#[test]
fn imports_a_program(rt: HostRuntime) {
    assert!(rt; writes(&rt, rt.alloc(), PAIRS, PAIRS_IMPORTED));
}
