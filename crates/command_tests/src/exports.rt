// Whole texts, with what is written for each.
use crate::commands::{comes_to, work, writes_in_pieces};
use example_texts::nl_texts::{KNAPSACK, KNAPSACK_WRITTEN, Sizes, header, one_row, text_of};
use itoa::Buffer;
use std::alloc::Global;
use std::process::Abort;
use text_base::MemoryDesk;

// Whether the text is exported as this.
fn exports(rt: &impl Abort, alloc: Global, text: &str, written: &str) -> bool {
    let words = ["export", "a.nl"];
    comes_to(rt, alloc, &[("a.nl", text.as_bytes())], &words, 0, written)
}

fn writes(rt: &impl Abort, alloc: Global, sizes: &Sizes, body: &str, written: &str) -> bool {
    let text = text_of(alloc, sizes, body).expect(rt, "memory");
    exports(rt, alloc, text.as_str(), written)
}

// A text with other line ends: CR LF, and none at the end.
fn with_other_ends(rt: &impl Abort, alloc: Global, text: &str) -> Vec<u8> {
    let mut out = Vec::new(alloc);
    for line in text.lines() {
        if !out.is_empty() {
            out.extend_from_slice(b"\r\n").expect(rt, "memory");
        }
        out.extend_from_slice(line.as_bytes()).expect(rt, "memory");
    }
    out
}

// Whether the text is exported so where each read gives at most so many bytes.
fn exports_in_pieces(
    rt: &impl Abort,
    alloc: Global,
    text: &[u8],
    most: usize,
    written: &str,
) -> bool {
    let words = ["export", "a.nl", "0"];
    writes_in_pieces(rt, alloc, ("a.nl", text), most, &words, written)
}

#[test]
fn exports_a_knapsack(rt: HostRuntime) {
    let other = with_other_ends(&rt, rt.alloc(), KNAPSACK);
    assert!(rt; exports(&rt, rt.alloc(), KNAPSACK, KNAPSACK_WRITTEN));
    for most in [1, 2, 3, 7] {
        assert!(rt; exports_in_pieces(&rt, rt.alloc(), &other, most, KNAPSACK_WRITTEN));
    }
}

fn put_number(rt: &impl Abort, text: &mut String, number: usize) {
    let mut digits = Buffer::new();
    text.push_str(digits.format(number)).expect(rt, "memory");
}

#[test]
fn exports_expressions(rt: HostRuntime) {
    let row = one_row();
    let two = header("2 1 0", "2 0", "0");
    let cases = [
        (
            two,
            "C0\no2\nv0\no1\nv1\nv1\nr\n1 1\nb\n3\n3\nJ0 2\n0 0\n1 0\n",
            "NAME nl\nROWS\n N obj\n L c0\nCOLUMNS\n x0 obj 0\n x1 obj 0\nRHS\n RHS c0 1\nBOUNDS\n FR BND x0\n FR BND x1\nENDATA\n",
        ),
        (
            row,
            "C0\no0\no5\nn1.5\nn3\no11\n2\nn4\no14\nn-7.5\nr\n1 10\nb\n3\nJ0 1\n0 1\n",
            "NAME nl\nROWS\n N obj\n L c0\nCOLUMNS\n x0 c0 1\nRHS\n RHS c0 13.625\nBOUNDS\n FR BND x0\nENDATA\n",
        ),
        (
            two,
            "C0\no0\no3\nv0\nn3\nv1\nr\n1 1\nb\n3\n3\nJ0 2\n0 0\n1 0\n",
            "NAME nl\nROWS\n N obj\n L c0\nCOLUMNS\n x0 c0 1\n x1 c0 3\nRHS\n RHS c0 3\nBOUNDS\n FR BND x0\n FR BND x1\nENDATA\n",
        ),
        (
            header("1 2 0", "2 0", "0"),
            "C0\nn2\nr\n0 1 7\n0 4 4\nb\n3\nJ0 1\n0 1\nJ1 1\n0 1\n",
            "NAME nl\nROWS\n N obj\n G c0\n E c1\nCOLUMNS\n x0 c0 1\n x0 c1 1\nRHS\n RHS c0 -1\n RHS c1 4\nRANGES\n RNG c0 6\nBOUNDS\n FR BND x0\nENDATA\n",
        ),
        (
            header("1 0 1", "0 1", "0"),
            "O0 0\no3\nv0\nn3\nb\n3\nG0 1\n0 0\n",
            "NAME nl\nROWS\n N obj\n E zdef\nCOLUMNS\n x0 zdef 1\n z obj 1\n z zdef -3\nRHS\nBOUNDS\n FR BND x0\n FR BND z\nENDATA\n",
        ),
    ];
    for (sizes, body, written) in cases {
        assert!(rt; writes(&rt, rt.alloc(), &sizes, body, written), "at {body}");
    }
}

// A line so many times.
fn put_times(rt: &impl Abort, text: &mut String, line: &str, count: usize) {
    for _ in 0..count {
        text.push_str(line).expect(rt, "memory");
    }
}

// A row with a term of each of 1,000 variables.
fn put_full_row(rt: &impl Abort, text: &mut String, row: usize) {
    text.push_str("J").expect(rt, "memory");
    put_number(rt, text, row);
    text.push_str(" 1000\n").expect(rt, "memory");
    for variable in 0..1000 {
        put_number(rt, text, variable);
        text.push_str(" 1\n").expect(rt, "memory");
    }
}

// 1,000 rows with a term of each of 1,000 variables.
fn full_rows(rt: &impl Abort, alloc: Global) -> String {
    let mut text = String::from_str(alloc, "r\n").expect(rt, "memory");
    put_times(rt, &mut text, "1 1\n", 1000);
    text.push_str("b\n").expect(rt, "memory");
    put_times(rt, &mut text, "3\n", 1000);
    for row in 0..1000 {
        put_full_row(rt, &mut text, row);
    }
    text
}

// Whether the text is exported as so many bytes, of which these are the last.
fn exports_bytes(rt: &impl Abort, alloc: Global, text: &str, count: usize, end: &[u8]) -> bool {
    let mut desk = MemoryDesk::new(alloc, count).expect(rt, "memory");
    let texts = [("a.nl", text.as_bytes())];
    let ended = work(rt, alloc, &mut desk, &texts, &["export", "a.nl"]);
    let is_end = desk.written().len() == count && desk.written().ends_with(end);
    drop(desk);
    ended == 0 && is_end
}

// The numbers from 0 to 999 have 2,890 digits, and each line of a term has 7 bytes beside those of
// its two numbers.
#[test]
fn exports_a_million_terms(rt: HostRuntime) {
    let alloc = rt.alloc();
    let rows = full_rows(&rt, alloc);
    let text = text_of(
        alloc,
        &header("1000 1000 0", "1000000 0", "0"),
        rows.as_str(),
    )
    .expect(&rt, "memory");
    let end = b" FR BND x999\nENDATA\n";
    assert!(rt; exports_bytes(&rt, alloc, text.as_str(), 12_812_716, end));
}
