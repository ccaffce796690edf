// The kinds of variables.

use nl_header::kinds_of;
use nl_model::{Header, Kind};
use nl_segments::read_nl;

// Eight variables, of which three are nonlinear in constraints, five in objectives and two in both.
const GROUPS: &[u8] =
    b"g3 1 1 0\n8 0 0 0 0\n0 0\n0 0\n3 5 2\n0 0 0 1\n1 1 1 1 1\n0 0\n0 0\n0 0 0 0 0\nb\n3\n3\n3\n3\n3\n3\n0 0 1\n3\n";

fn kind_at(header: &Header, var: u32) -> Option<Kind> {
    if var < header.counts().n_var {
        Some(kinds_of(header, var))
    } else {
        None
    }
}

#[test]
fn kinds_by_groups(rt: HostRuntime) {
    let read = read_nl(rt.alloc(), GROUPS).expect(&rt, "refused");
    let header = read.file.header();
    assert!(rt; header.options().items() == [1, 1, 0].as_slice());
    let kinds = [
        Kind::Continuous,
        Kind::Integer,
        Kind::Integer,
        Kind::Continuous,
        Kind::Integer,
        Kind::Continuous,
        Kind::Binary,
        Kind::Integer,
    ];
    for (var, kind) in kinds.iter().enumerate() {
        assert!(rt; kind_at(header, var as u32) == Some(*kind));
    }
    assert!(rt; kind_at(header, 8) == None);
    drop(read);
}
