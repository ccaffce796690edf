// Certificates of small files, as they are read.
use crate::segments::file_of;
use certificate_text::{CertificateReader, read_certificate};
use certificates::CertificateNode;
use exact_numbers::Frac;
use example_texts::certificate_texts::{
    A_THIRD, BY_LEMMA, BY_PARITY, BY_RAY, CHARGED, NO_END, ONE_AT_LEAST, ONE_FREE, ONE_WHOLE_FREE,
    THIRDS, TWO_OR_BETTER,
};
use linear_program::{Kind, Number};
use nl_model::all_kinds;
use std::alloc::Global;
use std::process::Abort;

// The numerator of a number.
fn num_of(number: &Number) -> i128 {
    match number.fraction() {
        Some(value) => value.num(),
        None => 0,
    }
}

// The first letter of a node, its number, and the numerator of the other one.
fn told(node: &CertificateNode) -> (char, u32, i128) {
    match node {
        CertificateNode::Split(variable, most) => ('s', *variable, *most),
        CertificateNode::Plane(count, most) => ('p', *count, *most),
        CertificateNode::Lemma(count, most) => ('l', *count, num_of(most)),
        CertificateNode::Duals(count) => ('d', *count, 0),
        CertificateNode::Weights(count) => ('w', *count, 0),
    }
}

fn are_nodes(nodes: &[CertificateNode], wanted: &[(char, u32, i128)]) -> bool {
    nodes.len() == wanted.len()
        && nodes
            .iter()
            .zip(wanted)
            .all(|(node, want)| told(node) == *want)
}

// Whether the last pair has this index and this fraction.
fn ends_in(pairs: &[(u32, Number)], index: u32, value: Option<Frac>) -> bool {
    match pairs.last() {
        Some(pair) => pair.0 == index && pair.1.fraction() == value,
        None => false,
    }
}

// The number of constraints of a file, and the kinds of its variables.
fn setting_of(rt: &impl Abort, alloc: Global, nl: &str) -> (u32, Vec<Kind>) {
    let file = file_of(rt, alloc, nl);
    let rows = file.header().counts().n_con;
    let kinds = all_kinds(alloc, &file);
    drop(file);
    (rows, kinds.expect(rt, "memory"))
}

#[test]
fn certificates_are_read(rt: HostRuntime) {
    let split = [('s', 0, 0), ('w', 1, 0), ('d', 0, 0)];
    let plane = [('p', 3, 166), ('w', 2, 0), ('w', 2, 0)];
    let lemma = [
        ('l', 2, 0),
        ('s', 1, 0),
        ('d', 1, 0),
        ('d', 0, 0),
        ('d', 1, 0),
    ];
    let duals = [('d', 1, 0)];
    let cases = [
        (ONE_FREE, A_THIRD, duals.as_slice(), 2, (0, 1, 3)),
        (ONE_FREE, TWO_OR_BETTER, duals.as_slice(), 2, (0, 1, 3)),
        (ONE_WHOLE_FREE, ONE_AT_LEAST, split.as_slice(), 2, (0, 1, 1)),
        (THIRDS, BY_PARITY, plane.as_slice(), 7, (1, 1, 1)),
        (NO_END, BY_RAY, [].as_slice(), 2, (1, 1, 1)),
        (CHARGED, BY_LEMMA, lemma.as_slice(), 4, (1, 1, 1)),
    ];
    for (nl, text, nodes, pairs, last) in cases {
        let (rows, kinds) = setting_of(&rt, rt.alloc(), nl);
        let read = read_certificate(rt.alloc(), rows, kinds, text.as_bytes());
        let certificate = read.expect(&rt, "a certificate");
        assert!(rt; are_nodes(certificate.nodes(), nodes));
        assert!(rt; certificate.pairs().len() == pairs);
        assert!(rt; ends_in(certificate.pairs(), last.0, Frac::new(last.1, last.2)));
        drop(certificate);
    }
}

#[test]
fn a_certificate_comes_in_pieces(rt: HostRuntime) {
    let (rows, kinds) = setting_of(&rt, rt.alloc(), NO_END);
    let mut reader = CertificateReader::new(rt.alloc(), rows, kinds).expect(&rt, "memory");
    for piece in BY_RAY.as_bytes().chunks(1) {
        assert!(rt; reader.feed(piece).is_ok());
    }
    let certificate = reader.finish().expect(&rt, "a certificate");
    assert!(rt; certificate.nodes().is_empty());
    assert!(rt; certificate.pairs().len() == 2);
    drop(certificate);
}
