// The command sol over a desk in memory: what is written for whole texts.

use crate::commands::comes_to;
use std::alloc::Global;
use std::process::Abort;

// A solution with a value of small size and a suffix with a table.
const SMALL: &str =
    "\nsolver: done\n\nOptions\n3\n1\n1\n0\n1\n0\n2\n2\n1.1102230246251565e-32\n2\nobjno 0 0\nsuffix 0 2 8 0 0\nsstatus\n0 1\n1 3\n";

// The same, in the one written form.
const SMALL_WRITTEN: &str =
    "\nsolver: done\n\nOptions\n3\n1\n1\n0\n1\n0\n2\n2\n11102230246251565e-48\n2\nobjno 0 0\nsuffix 0 2 8 0 0\nsstatus\n0 1\n1 3\n";

// Whether the text is written so.
fn writes(rt: &impl Abort, alloc: Global, text: &str, written: &str) -> bool {
    let words = ["sol", "a.sol"];
    comes_to(rt, alloc, &[("a.sol", text.as_bytes())], &words, 0, written)
}

#[test]
fn writes_a_solution_again(rt: HostRuntime) {
    assert!(rt; writes(&rt, rt.alloc(), SMALL, SMALL_WRITTEN));
    assert!(rt; writes(&rt, rt.alloc(), SMALL_WRITTEN, SMALL_WRITTEN));
}
