// Segments of .nl texts: what a whole text says, and that a reader keeps its fault.

use exact_numbers::Dec;
use example_texts::nl_texts::{header, text_of};
use nl_model::{Def, Interval, NlFile, Suffix, Terms};
use nl_segments::{NlFault, NlReader, NlReason, read_nl};
use std::alloc::Global;
use std::process::Abort;
use text_base::Stop;

// The fault that was answered, and its line.
fn fault_in<T: Drop>(answer: Result<T, Stop<NlFault>>) -> Option<(NlReason, u32)> {
    match answer {
        Err(Stop::Fault(fault)) => Some((fault.reason, fault.line)),
        _ => None,
    }
}

/// The file of a text.
pub(crate) fn file_of(rt: &impl Abort, alloc: Global, text: &str) -> NlFile {
    read_nl(alloc, text.as_bytes()).expect(rt, "a file").file
}

// Each segment once.
const BODY: &str =
    "V2 1 7\n0 2\nn5\nC0\no0\nv2 # the defined one\nv1\nO0 1\nn3\nd1\n0 4\nx2\n0 6\n1 7\nr\n1 10\nb\n2 0\n3\nk1\n1\nJ0 2\n0 1\n1 2\nG0 2\n0 3\n1 4\nS4 1 a\n1 0.5";

fn are_terms(terms: &Terms, wanted: &[(u32, Dec)]) -> bool {
    terms.items() == wanted
}

fn is_definition(definition: &Def) -> bool {
    definition.index == 2
        && definition.usage == 7
        && are_terms(&definition.terms, &[(0, Dec::of_whole(2))])
}

fn are_guesses(file: &NlFile) -> bool {
    are_terms(file.dual_guesses(), &[(0, Dec::of_whole(4))])
        && are_terms(
            file.primal_guesses(),
            &[(0, Dec::of_whole(6)), (1, Dec::of_whole(7))],
        )
}

fn is_suffix(suffix: &Suffix) -> Option<bool> {
    let half = Dec::new(5, -1)?;
    Some(
        suffix.kind == 4
            && suffix.name.bytes() == b"a".as_slice()
            && are_terms(&suffix.values, &[(1, half)]),
    )
}

fn is_interval(found: Interval, lo: Option<Dec>, hi: Option<Dec>) -> bool {
    found.lo == lo && found.hi == hi
}

// Whether the parts are those of the text.
fn holds_body(file: &NlFile) -> Option<bool> {
    let counts = *file.header().counts();
    if counts.n_var != 2 || counts.n_con != 1 || counts.n_obj != 1 {
        return None;
    }
    let [definition] = file.defs() else {
        return None;
    };
    let [suffix] = file.suffixes() else {
        return None;
    };
    let tree = file.body(0)?;
    Some(
        is_definition(definition)
            && tree.nodes().len() == 3
            && file.objective(0).nodes().len() == 1
            && file.maximise(0)
            && are_guesses(file)
            && is_interval(file.side(0), None, Some(Dec::of_whole(10)))
            && is_interval(file.bound(0), Some(Dec::zero()), None)
            && are_terms(
                file.terms(0),
                &[(0, Dec::of_whole(1)), (1, Dec::of_whole(2))],
            )
            && are_terms(
                file.slopes(0),
                &[(0, Dec::of_whole(3)), (1, Dec::of_whole(4))],
            )
            && is_suffix(suffix)?,
    )
}

#[test]
fn each_segment_is_read(rt: HostRuntime) {
    let text = text_of(rt.alloc(), &header("2 1 1", "2 2", "1"), BODY).expect(&rt, "memory");
    let read = read_nl(rt.alloc(), text.as_bytes()).expect(&rt, "refused");
    assert!(rt; holds_body(&read.file) == Some(true));
    drop(read);
    drop(text);
}

#[test]
fn a_text_is_read_in_bytes(rt: HostRuntime) {
    let text = text_of(rt.alloc(), &header("2 1 1", "2 2", "1"), BODY).expect(&rt, "memory");
    let mut reader = NlReader::new(rt.alloc()).expect(&rt, "memory");
    for byte in text.as_bytes() {
        assert!(rt; reader.feed(&[*byte]).is_ok());
    }
    let read = reader.finish().expect(&rt, "refused");
    assert!(rt; holds_body(&read.file) == Some(true));
    drop(read);
    drop(text);
}

// Whether this is the fault of line 1 for this reason.
fn is_fault<T: Drop>(answer: Result<T, Stop<NlFault>>, reason: NlReason) -> bool {
    fault_in(answer) == Some((reason, 1))
}

#[test]
fn a_reader_keeps_its_fault(rt: HostRuntime) {
    let mut reader = NlReader::new(rt.alloc()).expect(&rt, "memory");
    assert!(rt; reader.feed(b"b3 1 1 0").is_ok());
    assert!(rt; is_fault(reader.feed(b"\n"), NlReason::BinaryFile));
    assert!(rt; is_fault(reader.feed(b"\n"), NlReason::BinaryFile));
    assert!(rt; is_fault(reader.finish(), NlReason::BinaryFile));
}
