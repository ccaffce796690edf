// Texts of .nl files.
ghost use Rattle.std.specs.Prelude.{◌≡◌, codes};

use std::alloc::{AllocError, Global};

/// A knapsack of three binary variables, with a comment on each line of the header.
pub const KNAPSACK: &str =
    "g3 1 1 0\t# problem knap\n 3 1 1 0 0\t# vars, constraints, objectives, ranges, eqns\n 0 0\t# nonlinear constraints, objectives\n 0 0\t# network constraints: nonlinear, linear\n 0 0 0\t# nonlinear vars in constraints, objectives, both\n 0 0 0 1\t# linear network variables; functions; arith, flags\n 3 0 0 0 0\t# discrete variables: binary, integer, nonlinear (b,c,o)\n 3 3\t# nonzeros in Jacobian, gradients\n 0 0\t# max name lengths: constraints, variables\n 0 0 0 0 0\t# common exprs: b,c,o,c1,o1\nC0\nn0\nO0 1\nn0\nr\n1 10\nb\n0 0 1\n0 0 1\n0 0 1\nk2\n1\n2\nJ0 3\n0 5\n1 4\n2 6.5\nG0 3\n0 10\n1 7\n2 12\n";

/// The written text of the knapsack.
pub const KNAPSACK_WRITTEN: &str =
    "NAME nl\nOBJSENSE\n MAX\nROWS\n N obj\n L c0\nCOLUMNS\n M0 'MARKER' 'INTORG'\n x0 obj 10\n x0 c0 5\n x1 obj 7\n x1 c0 4\n x2 obj 12\n x2 c0 6.5\n M1 'MARKER' 'INTEND'\nRHS\n RHS c0 10\nBOUNDS\n LO BND x0 0\n UP BND x0 1\n LO BND x1 0\n UP BND x1 1\n LO BND x2 0\n UP BND x2 1\nENDATA\n";

/// The counts of a header that differ from 0: variables, constraints and objectives; terms of
/// constraints and of objectives; defined variables.
#[derive(Clone, Copy)]
pub struct Sizes {
    pub counts: &'static str,
    pub nonzeros: &'static str,
    pub defined: &'static str,
}

/// These counts.
pub fn header(counts: &'static str, nonzeros: &'static str, defined: &'static str) -> Sizes
    ensures counts { result.counts.now ≡ counts.now }
    ensures nonzeros { result.nonzeros.now ≡ nonzeros.now }
    ensures defined { result.defined.now ≡ defined.now }
{
    Sizes {
        counts,
        nonzeros,
        defined,
    }
}

/// One variable and one constraint with one term.
pub fn one_row() -> Sizes
    ensures counts { result.counts.now ≡ codes "1 1 0" }
    ensures nonzeros { result.nonzeros.now ≡ codes "1 0" }
    ensures defined { result.defined.now ≡ codes "0" }
{
    header("1 1 0", "1 0", "0")
}

/// The text of a header and what follows it, from line 11 on.
pub fn text_of(alloc: Global, sizes: &Sizes, body: &str) -> Result<String, AllocError> {
    let mut text = String::from_str(alloc, "g3 1 1 0\n")?;
    text.push_str(sizes.counts)?;
    text.push_str(" 0 0\n0 0\n0 0\n0 0 0\n0 0 0 1\n0 0 0 0 0\n")?;
    text.push_str(sizes.nonzeros)?;
    text.push_str("\n0 0\n")?;
    text.push_str(sizes.defined)?;
    text.push_str(" 0 0 0 0\n")?;
    text.push_str(body)?;
    Ok(text)
}
