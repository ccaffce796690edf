// The command fixed over a desk in memory.

use crate::commands::comes_to;
use example_texts::mps_texts::{FIXED, FIXED_WRITTEN};
use std::alloc::Global;
use std::process::Abort;

// Whether the text is written so.
fn writes(rt: &impl Abort, alloc: Global, text: &str, written: &str) -> bool {
    let words = ["fixed", "m.mps"];
    comes_to(rt, alloc, &[("m.mps", text.as_bytes())], &words, 0, written)
}

// The example with another line 7.
fn with_line(rt: &impl Abort, alloc: Global, line: &str) -> String {
    let mut text = String::new(alloc);
    for (i, each) in FIXED.lines().enumerate() {
        text.push_str(if i == 6 { line } else { each })
            .expect(rt, "memory");
        text.push_str("\n").expect(rt, "memory");
    }
    text
}

// Whether the example with this line 7 is written.
fn writes_line(rt: &impl Abort, alloc: Global, line: &str) -> bool {
    let text = with_line(rt, alloc, line);
    writes(rt, alloc, text.as_str(), FIXED_WRITTEN)
}

#[test]
fn keeps_to_the_fields(rt: HostRuntime) {
    let cases = [
        // Nothing counts after column 61, and CRs end no word.
        "    X         COST               1.0   LIM1               2.0",
        "    X         COST               1.0   LIM1               2.0 more",
        "    X         COST               1.0   LIM1               2.0\r\r",
        "    X         COST       1.0           LIM1      2.0",
    ];
    for line in cases {
        assert!(rt; writes_line(&rt, rt.alloc(), line), "at {line}");
    }
}
