// The parts of an instance, as a builder takes them.
ghost use Rattle.std.specs.Prelude.{◌≡◌, ◌+◌, ◌<◌, ◌≤◌, pos, [], ◌∷◌, ◌++◌, true, false, Some, None, IfOk, OnOk, get_or, length, slice_set};
ghost use Rattle.exact_numbers.specs.Rational.{whole};
ghost use Rattle.exact_numbers.specs.Values.{dec_value};
ghost use Rattle.nl_model.specs.Trees.{number, defined};
ghost use Rattle.nl_model.specs.Draft.{is_given};
ghost use Rattle.linear_program.specs.Intervals.{IsOrdered};
ghost use Rattle.nl_model.specs.Rules.{is_defined, most_terms, term_count};
ghost use Rattle.nl_model.specs.HeaderWords.{header_counts, header_options};
ghost use Rattle.bridge_tool.specs.Instance.{chained, counts_of, whole_dec};
ghost use Rattle.bridge_tool.specs.InsideMaking.{CanAddRow, with_row};

use crate::draws::Row;
use exact_numbers::Dec;
use nl_model::{Counts, Def, Expr, ExprBuilder, Header, Interval, NlBuilder, Node, Options, Terms};
use std::alloc::{AllocError, Global};

/// The number as a Dec.
pub(crate) fn whole(n: u32) -> Dec
    ensures one { result ≡ whole_dec n }
    ensures value { dec_value result ≡ whole (pos n) }
{
    Dec::of_whole(n as i64)
}

// The counts of an instance of this size.
fn counts_of(size: u32) -> Counts
    ensures { result ≡ counts_of size }
{
    Counts {
        n_var: size,
        n_con: size,
        n_obj: 1,
        n_ranges: 0,
        n_eqns: 0,
        n_lcon: 0,
        nlc: 0,
        nlo: 0,
        nlnc: 0,
        lnc: 0,
        nlvc: 0,
        nlvo: 0,
        nlvb: 0,
        nwv: 0,
        nfunc: 0,
        arith: 0,
        flags: 1,
        nbv: 0,
        niv: size,
        nlvbi: 0,
        nlvci: 0,
        nlvoi: 0,
        nzc: size,
        nzo: size,
        row_name_len: 0,
        col_name_len: 0,
        comb: size,
        comc: 0,
        como: 0,
        comc1: 0,
        como1: 0,
    }
}

/// The header of an instance of this size.
pub(crate) fn header_of(size: u32) -> Header
    requires { size ≤ 20000 }
    ensures options { header_options result ≡ pos 1 ∷ pos 1 ∷ pos 0 ∷ [] }
    ensures counts { header_counts result ≡ counts_of size }
{
    let mut options = Options::new();
    options.push(1);
    options.push(1);
    options.push(0);
    match Header::new(options, counts_of(size)) {
        Some(header) => header,
        None => unreachable!(),
    }
}

/// The expression 0.
pub(crate) fn zero(alloc: Global) -> Result<Expr, AllocError>
    ensures { IfOk result (λ x. x ≡ number (pos 0) (pos 0)) }
{
    let mut nodes = ExprBuilder::new(alloc);
    nodes.push(Node::Num(Dec::zero()))?;
    Ok(nodes.finish())
}

/// The expression of a defined variable.
fn use_of(alloc: Global, index: u32) -> Result<Expr, AllocError>
    ensures { IfOk result (λ x. x ≡ defined index) }
{
    let mut nodes = ExprBuilder::new(alloc);
    nodes.push(Node::Defined(index))?;
    Ok(nodes.finish())
}

// What defined variable k has beside its term.
fn chained(alloc: Global, size: u32, k: u32) -> Result<Expr, AllocError>
    requires small { size ≤ 20000 }
    requires within { k < size }
    ensures { IfOk result (λ x. x ≡ chained size k) }
{
    if k % 8 == 0 {
        return zero(alloc);
    }
    use_of(alloc, size + k - 1)
}

// A list of one term.
fn one_term(alloc: Global, var: u32, value: u32) -> Result<Terms, AllocError>
    ensures { IfOk result (λ ts. ts ≡ (var, whole_dec value) ∷ []) }
{
    let mut terms = Terms::new(alloc);
    terms.push((var, whole(value)))?;
    Ok(terms)
}

// Adds defined variable k.
fn define(
    alloc: Global,
    builder: &mut NlBuilder,
    size: u32,
    k: u32,
    value: u32,
) -> Result<(), AllocError>
    requires { CanAddRow builder.old size k }
    ensures { OnOk result (builder.new
        ≡ record builder.old {
          definitions = builder.old.definitions
              ++ (record {
                index = size + k;
                terms = (k, whole_dec value) ∷ [];
                usage = 0;
                tree = chained size k;
              }) ∷ [];
        }) }
{
    let tree = chained(alloc, size, k)?;
    let terms = one_term(alloc, k, value)?;
    let definition = Def {
        index: size + k,
        terms,
        usage: 0,
        tree,
    };
    builder.define(definition)
}

// The interval from 0 to this number.
fn from_zero(most: u32) -> Interval
    ensures sides { result ≡ record { lo = Some (whole_dec 0); hi = Some (whole_dec most) } }
    ensures ordered { IsOrdered result }
{
    Interval {
        lo: Some(whole(0)),
        hi: Some(whole(most)),
    }
}

// Adds constraint k, the body of which is defined variable k.
fn constrain(
    alloc: Global,
    builder: &mut NlBuilder,
    size: u32,
    k: u32,
    row: &Row,
) -> Result<(), AllocError>
    requires small { size ≤ 20000 }
    requires within { k < size }
    requires counts { builder.old.counts ≡ counts_of size }
    requires known { is_defined builder.old.definitions (size + k) ≡ true }
    requires body { is_given builder.old.bodies k ≡ false }
    requires few { term_count builder.old.terms < most_terms }
    requires sides { length builder.old.sides ≡ k }
    ensures { OnOk result (builder.new
        ≡ record builder.old {
          bodies = slice_set builder.old.bodies k (Some (defined (size + k)));
          terms = slice_set builder.old.terms k
              (get_or builder.old.terms k [] ++ (k, whole_dec row.now.linear) ∷ []);
          sides = builder.old.sides
              ++ (record { lo = None; hi = Some (whole_dec row.now.most) }) ∷ [];
        }) }
{
    let tree = use_of(alloc, size + k)?;
    builder.body(k, tree);
    builder.term(k, k, whole(row.linear))?;
    builder.side(Interval {
        lo: None,
        hi: Some(whole(row.most)),
    })
}

/// Adds row k: a defined variable, a constraint, and the sides and the slope of a variable.
pub(crate) fn put_row(
    alloc: Global,
    builder: &mut NlBuilder,
    size: u32,
    k: u32,
    row: &Row,
) -> Result<(), AllocError>
    requires { CanAddRow builder.old size k }
    ensures { OnOk result (builder.new ≡ with_row builder.old size k row.now) }
{
    define(alloc, builder, size, k, row.defining)?;
    constrain(alloc, builder, size, k, row)?;
    builder.bound(from_zero(row.bound))?;
    builder.slope(0, k, whole(row.slope))
}
