// The parts of a file, given one by one.
ghost use Rattle.std.specs.Prelude.{◌≡◌};
ghost use Rattle.nl_model.specs.Trees.{number};

use exact_numbers::Dec;
use nl_model::{
    Counts, Decs, Def, Expr, ExprBuilder, Header, Interval, NlBuilder, Node, Options, Suffix, Terms,
};
use std::alloc::Global;
use std::process::Abort;
use text_base::Name;

// Two variables, one constraint, one objective, one term, and one defined variable.
const COUNTS: Counts = Counts {
    n_var: 2,
    n_con: 1,
    n_obj: 1,
    n_ranges: 0,
    n_eqns: 0,
    n_lcon: 0,
    nlc: 0,
    nlo: 0,
    nlnc: 0,
    lnc: 0,
    nlvc: 1,
    nlvo: 0,
    nlvb: 0,
    nwv: 0,
    nfunc: 0,
    arith: 0,
    flags: 1,
    nbv: 0,
    niv: 1,
    nlvbi: 0,
    nlvci: 1,
    nlvoi: 0,
    nzc: 1,
    nzo: 1,
    row_name_len: 0,
    col_name_len: 0,
    comb: 1,
    comc: 0,
    como: 0,
    comc1: 0,
    como1: 0,
};

fn started(rt: &impl Abort, alloc: Global) -> NlBuilder {
    let header = Header::new(Options::new(), COUNTS).expect(rt, "a header");
    NlBuilder::new(alloc, header).expect(rt, "memory")
}

// Adds an interval of a constraint and one of a variable.
fn add_sides(rt: &impl Abort, builder: &mut NlBuilder) {
    if builder.sides() < builder.header().counts().n_con {
        builder
            .side(Interval { lo: None, hi: None })
            .expect(rt, "memory");
    }
    if builder.bounds() < builder.header().counts().n_var {
        builder
            .bound(Interval { lo: None, hi: None })
            .expect(rt, "memory");
    }
}

// Adds a term of constraint 0.
fn add_term(rt: &impl Abort, builder: &mut NlBuilder, value: Dec) {
    let counts = *builder.header().counts();
    if counts.n_con > 0 && counts.n_var > 0 && builder.terms() < 10 {
        builder.term(0, 0, value).expect(rt, "memory");
    }
}

#[test]
fn a_builder_takes_sides_and_terms(rt: HostRuntime) {
    let mut builder = started(&rt, rt.alloc());
    add_sides(&rt, &mut builder);
    assert!(rt; builder.sides() == 1);
    assert!(rt; builder.bounds() == 1);
    add_term(&rt, &mut builder, Dec::of_whole(5));
    assert!(rt; builder.terms() == 1);
    drop(builder);
}

// A builder with a slope and two guesses.
fn guessed(rt: &impl Abort, alloc: Global, header: Header, value: Dec) -> NlBuilder {
    let counts = *header.counts();
    let mut builder = NlBuilder::new(alloc, header).expect(rt, "memory");
    if counts.n_con > 0 && counts.n_var > 0 && counts.n_obj > 0 {
        builder.slope(0, 0, value).expect(rt, "memory");
        builder.dual_guess(0, value).expect(rt, "memory");
        builder.primal_guess(0, value).expect(rt, "memory");
    }
    builder
}

#[test]
fn a_builder_takes_guesses(rt: HostRuntime) {
    let header = Header::new(Options::new(), COUNTS).expect(&rt, "a header");
    let builder = guessed(&rt, rt.alloc(), header, Dec::of_whole(5));
    assert!(rt; !builder.has_body(0));
    drop(builder);
}

// The expression of one number.
fn number(rt: &impl Abort, alloc: Global, value: Dec) -> Expr
    ensures { result ≡ number value.m value.e }
{
    let mut builder = ExprBuilder::new(alloc);
    builder.push(Node::Num(value)).expect(rt, "memory");
    builder.finish()
}

// Gives the first defined variable.
fn add_definition(rt: &impl Abort, builder: &mut NlBuilder, alloc: Global, value: Dec) {
    let tree = number(rt, alloc, value);
    let counts = *builder.header().counts();
    if counts.comb > 0 && !builder.has_def(counts.n_var) {
        builder
            .define(Def {
                index: counts.n_var,
                terms: Terms::new(alloc),
                usage: 0,
                tree,
            })
            .expect(rt, "memory");
    }
}

#[test]
fn a_builder_takes_a_definition(rt: HostRuntime) {
    let mut builder = started(&rt, rt.alloc());
    add_definition(&rt, &mut builder, rt.alloc(), Dec::of_whole(5));
    assert!(rt; builder.has_def(2));
    assert!(rt; !builder.has_def(3));
    drop(builder);
}

// Adds a suffix without values.
fn add_suffix(rt: &impl Abort, builder: &mut NlBuilder, alloc: Global, name: Name) {
    if !builder.has_suffix(4, name.bytes()) {
        builder
            .suffix(Suffix {
                kind: 4,
                name,
                values: Terms::new(alloc),
            })
            .expect(rt, "memory");
    }
}

#[test]
fn a_builder_takes_a_suffix(rt: HostRuntime) {
    let mut builder = started(&rt, rt.alloc());
    let name = Name::of(rt.alloc(), b"a").expect(&rt, "a name");
    add_suffix(&rt, &mut builder, rt.alloc(), name);
    assert!(rt; builder.has_suffix(8, b"a"));
    assert!(rt; !builder.has_suffix(1, b"a"));
    drop(builder);
}

#[test]
fn lists_hold_their_items(rt: HostRuntime) {
    let value = Dec::of_whole(3);
    let mut terms = Terms::new(rt.alloc());
    assert!(rt; terms.push((7, value)).is_ok());
    assert!(rt; terms.items() == [(7, value)].as_slice());
    drop(terms);
    let mut values = Decs::new(rt.alloc());
    assert!(rt; values.push(value).is_ok());
    assert!(rt; values.items() == [value].as_slice());
    drop(values);
}
