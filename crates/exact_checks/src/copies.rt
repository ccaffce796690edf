// Copies of the parts of a linear program.
ghost use Rattle.std.specs.Prelude.{◌≡◌, length, map, All, IfOk};
ghost use Rattle.linear_program.specs.Coefs.{AreAscending};
ghost use Rattle.linear_program.specs.Programs.{IsFormOver, IsLinear};
ghost use Rattle.exact_checks.specs.Built.{AreRowsOf, AreWithin, IsCopy};

use crate::form::{Body, Row};
use exact_numbers::Dec;
use linear_program::{Coefficients, Form, Interval, Kind, Linear};
use std::alloc::{AllocError, Global};

// The constant and the coefficients of a form.
pub(crate) fn body_of(alloc: Global, form: &Form) -> Result<Body, AllocError>
    ensures copy { IfOk result (λ b. IsCopy form.now b) }
    ensures ascending { IfOk result (λ b. AreAscending 0 b.terms) }
{
    let mut items = Vec::new(alloc);
    for term in form.terms() {
        items.push(term)?;
    }
    Ok(Body {
        constant: form.constant(),
        terms: Coefficients::of_items(items),
    })
}

// The same of a form that is let go.
pub(crate) fn body_from(alloc: Global, form: Form) -> Result<Body, AllocError>
    ensures copy { IfOk result (λ b. IsCopy form b) }
    ensures ascending { IfOk result (λ b. AreAscending 0 b.terms) }
{
    let constant = form.constant();
    let terms = form.into_coefficients(alloc)?;
    Ok(Body { constant, terms })
}

// The rows of these forms, which are let go one by one, and sides.
pub(crate) fn rows_from(
    alloc: Global,
    bodies: Vec<Form>,
    sides: &[Interval],
    _bounds: &[Interval],
) -> Result<Vec<Row>, AllocError>
    requires sides { length sides.now ≡ length bodies.items }
    requires within { All (IsFormOver (length _bounds.now)) bodies.items }
    ensures rows { IfOk result (λ v. AreRowsOf bodies.items sides.now v.items) }
    ensures within { IfOk result (λ v. AreWithin (length _bounds.now) v.items) }
{
    let mut rows = Vec::with_capacity(alloc, bodies.len())?;
    for form in bodies {
        let side = sides[rows.len()];
        let body = body_from(alloc, form)?;
        rows.push(Row { body, side })?;
    }
    Ok(rows)
}

// The rows of a linear program.
#[tactic(auto, using(crate::proofs::Copied::none_copied, crate::proofs::Copied::none_within))]
pub(crate) fn rows_of(alloc: Global, linear: &Linear) -> Result<Vec<Row>, AllocError>
    requires { IsLinear linear.now }
    ensures rows { IfOk result (λ v. AreRowsOf linear.now.bodies linear.now.sides v.items) }
    ensures within { IfOk result (λ v. AreWithin (length linear.now.bounds) v.items) }
{
    let bodies = linear.bodies();
    let sides = linear.sides();
    let mut rows = Vec::with_capacity(alloc, bodies.len())?;
    for (i, body) in bodies.iter().enumerate() {
        let body = body_of(alloc, body)?;
        rows.push(Row {
            body,
            side: sides[i],
        })?;
    }
    Ok(rows)
}

// The lower sides.
pub(crate) fn lower_sides(
    alloc: Global,
    bounds: &[Interval],
) -> Result<Vec<Option<Dec>>, AllocError>
    ensures { IfOk result (λ v. v.items ≡ map (λ b. b.lo) bounds.now) }
{
    bounds.iter().map(|b| b.lo).collect(alloc)
}

// The upper sides.
pub(crate) fn upper_sides(
    alloc: Global,
    bounds: &[Interval],
) -> Result<Vec<Option<Dec>>, AllocError>
    ensures { IfOk result (λ v. v.items ≡ map (λ b. b.hi) bounds.now) }
{
    bounds.iter().map(|b| b.hi).collect(alloc)
}

pub(crate) fn copied_kinds(alloc: Global, kinds: &[Kind]) -> Result<Vec<Kind>, AllocError>
    ensures { IfOk result (λ v. v.items ≡ kinds.now) }
{
    kinds.iter().copied().collect(alloc)
}
