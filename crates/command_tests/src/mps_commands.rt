// The command mps over a desk in memory: what is written for whole texts.

use crate::commands::writes_in_pieces;
use example_texts::mps_texts::{PAIRS, PAIRS_WRITTEN};
use example_texts::nl_texts::KNAPSACK_WRITTEN;
use std::alloc::Global;
use std::process::Abort;

// Whether the text is written so where each read gives at most so many bytes.
fn writes(rt: &impl Abort, alloc: Global, text: &str, most: usize, written: &str) -> bool {
    let named = ("m.mps", text.as_bytes());
    writes_in_pieces(rt, alloc, named, most, &["mps", "m.mps"], written)
}

#[test]
fn writes_a_program_again(rt: HostRuntime) {
    let cases = [
        (PAIRS, 4000, PAIRS_WRITTEN),
        (PAIRS_WRITTEN, 4000, PAIRS_WRITTEN),
        (KNAPSACK_WRITTEN, 4000, KNAPSACK_WRITTEN),
        (PAIRS, 1, PAIRS_WRITTEN),
        (PAIRS, 2, PAIRS_WRITTEN),
        (PAIRS, 3, PAIRS_WRITTEN),
        (PAIRS, 7, PAIRS_WRITTEN),
    ];
    for (text, most, written) in cases {
        assert!(rt;
            writes(&rt, rt.alloc(), text, most, written),
            "in reads of {most}"
        );
    }
}
