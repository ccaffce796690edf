// Files that are read and written again.

use example_texts::nl_texts::{KNAPSACK, Sizes, header, one_row, text_of};
use nl_segments::read_nl;
use nl_writer::write_nl;
use std::alloc::Global;
use std::process::Abort;

// What is written of the file of a text.
fn rewritten(rt: &impl Abort, alloc: Global, text: &[u8]) -> Vec<u8> {
    let read = read_nl(alloc, text).expect(rt, "a file");
    let written = write_nl(alloc, &read.file);
    drop(read);
    written.expect(rt, "memory")
}

// The text is written so, and what is written is written again unchanged.
fn is_written_as(rt: &impl Abort, alloc: Global, text: &str, written: &str) -> bool {
    let first = rewritten(rt, alloc, text.as_bytes());
    let second = rewritten(rt, alloc, &first);
    let are_right = [
        first.as_slice() == written.as_bytes(),
        second.as_slice() == written.as_bytes(),
    ];
    drop(first);
    drop(second);
    are_right == [true, true]
}

// The same, of a body after its header.
fn is_body_written_as(
    rt: &impl Abort,
    alloc: Global,
    sizes: &Sizes,
    body: &str,
    written: &str,
) -> bool {
    let text = text_of(alloc, sizes, body).expect(rt, "memory");
    let wanted = text_of(alloc, sizes, written).expect(rt, "memory");
    let is_right = is_written_as(rt, alloc, text.as_str(), wanted.as_str());
    drop(text);
    drop(wanted);
    is_right
}

#[test]
fn segments_in_their_order(rt: HostRuntime) {
    let cases = [
        (
            header("1 0 1", "0 1", "0"),
            "O0 0\nn5\nb\n3\nG0 1\n0 2\n",
            "O0 0\nn5\nb\n3\nk0\nG0 1\n0 2\n",
        ),
        (
            header("1 1 0", "0 0", "0"),
            "d1\n0 1.5\nx1\n0 2\nS0 1 sstatus\n0 3\nr\n3\nb\n3\n",
            "S0 1 sstatus\n0 3\nd1\n0 1.5\nx1\n0 2\nr\n3\nb\n3\nk0\n",
        ),
        (
            header("2 2 1", "3 2", "0"),
            "C0\nn0\nC1\nn2\nO0 1\nn5\nr\n1 10\n4 3\nb\n2 0\n1 7\nJ0 2\n0 1\n1 2\nJ1 1\n0 -1\nG0 2\n0 3\n1 -4\n",
            "C0\nn0\nC1\nn2\nO0 1\nn5\nr\n1 10\n4 3\nb\n2 0\n1 7\nk1\n2\nJ0 2\n0 1\n1 2\nJ1 1\n0 -1\nG0 2\n0 3\n1 -4\n",
        ),
        (
            header("1 1 0", "1 0", "3"),
            "V1 0 0\no0\nv0\nv0\nV2 0 0\no0\nv1\nv1\nV3 0 0\no0\nv2\nv2\nC0\nv3\nr\n1 1\nb\n3\nJ0 1\n0 0\n",
            "V1 0 0\no0\nv0\nv0\nV2 0 0\no0\nv1\nv1\nV3 0 0\no0\nv2\nv2\nC0\nv3\nr\n1 1\nb\n3\nk0\nJ0 1\n0 0\n",
        ),
        (
            one_row(),
            "C0\no0\no5\nn1.5\nn3\no11\n2\nn4\no14\nn-7.5\nr\n1 10\nb\n3\nJ0 1\n0 1\n",
            "C0\no0\no5\nn1.5\nn3\no11\n2\nn4\no14\nn-7.5\nr\n1 10\nb\n3\nk0\nJ0 1\n0 1\n",
        ),
        (
            header("1 1 1", "0 0", "0"),
            "d0\nx0\nS0 0 a\nO0 1\ns7\nr\n3\nb\n3\nJ0 0\nG0 0\n",
            "S0 0 a\nO0 1\nn7\nr\n3\nb\n3\nk0\n",
        ),
        (
            header("2 1 0", "0 0", "1"),
            "b\n3\n3\nr\n3\nV2 2 0\n0 1e25\n1 +.50\nn1e-40\nC0\nv2\n",
            "V2 2 0\n0 1e25\n1 0.5\nn1e-40\nC0\nv2\nr\n3\nb\n3\n3\nk1\n0\n",
        ),
        (header("0 0 0", "0 0", "0"), "", ""),
    ];
    for (sizes, body, written) in cases {
        assert!(rt;
            is_body_written_as(&rt, rt.alloc(), &sizes, body, written),
            "at {body}"
        );
    }
}

// No options.
const ONE_GUESS: &str =
    "g0\n1 0 0 0 0\n0 0\n0 0\n0 0 0\n0 0 0 1\n0 0 0 0 0\n0 0\n0 0\n0 0 0 0 0\nx1\n0 0.5\nb\n2 0\nk0\n";

const KNAPSACK_KEPT: &str =
    "g3 1 1 0\n3 1 1 0 0\n0 0\n0 0\n0 0 0\n0 0 0 1\n3 0 0 0 0\n3 3\n0 0\n0 0 0 0 0\nC0\nn0\nO0 1\nn0\nr\n1 10\nb\n0 0 1\n0 0 1\n0 0 1\nk2\n1\n2\nJ0 3\n0 5\n1 4\n2 6.5\nG0 3\n0 10\n1 7\n2 12\n";

#[test]
fn whole_texts(rt: HostRuntime) {
    assert!(rt; is_written_as(&rt, rt.alloc(), ONE_GUESS, ONE_GUESS));
    assert!(rt; is_written_as(&rt, rt.alloc(), KNAPSACK, KNAPSACK_KEPT));
}
