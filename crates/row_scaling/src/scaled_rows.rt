// The rows of a linear program, each times its least factor.
ghost use Rattle.std.specs.Prelude.{◌≡◌, ℕ, ◌<◌, ◌≤◌, ◌^◌, ◌<ℤ◌, pos, IsTrue, IfOk, IfErr, false, length, get_or, None};
ghost use Rattle.linear_program.specs.Intervals.{is_sided};
ghost use Rattle.text_base.specs.Stopped.{IfFault};
ghost use Rattle.exact_numbers.specs.Rational.{whole};
ghost use Rattle.exact_numbers.specs.Values.{frac_value};
ghost use Rattle.scaled_program.specs.Fits.{ExportFits, RowFits};
ghost use Rattle.linear_program.specs.Coefs.{AreBelow};
ghost use Rattle.linear_program.specs.declared.form.Form.{Form};
ghost use Rattle.linear_program.specs.Forms.{form_terms};
ghost use Rattle.linear_program.specs.Programs.{LinearValue, linear_value};
ghost use Rattle.row_scaling.specs.Factored.{AreScaledRows, IsFactored, IsScaledAt, body_term_count, factor_for, row_for, term_count_of};
ghost use Rattle.row_scaling.specs.InsideMoves.{HasRows, IsRow};
ghost use Rattle.row_scaling.specs.Scaled.{row_term_count};
ghost use Rattle.row_scaling.specs.Scaling.{HasScaleFault};
ghost use Rattle.row_scaling.specs.declared.scale_fault.ScaleFault.TheVariants.{RowTooWide};
ghost use Rattle.row_scaling.specs.Rows.{side_value};

use crate::factors::factor_of_row;
use crate::fraction_sides::{scaled_sides, sides_less};
use crate::plain_sides::plain_sides;
use crate::row::{FactoredRow, ScaledRow};
use crate::scale_fault::ScaleFault;
use crate::scaled_terms::scaled_terms;
use exact_numbers::Frac;
use linear_program::{Form, Interval, Linear, Wide};
use std::alloc::Global;
use text_base::Stop;

// A whole number above 0 as a fraction.
#[tactic(auto, using(crate::proofs::NumberLemmas::one_not_none, crate::proofs::NumberLemmas::over_one_is))]
pub(crate) fn whole(number: i128) -> Frac
    requires { pos 0 <ℤ number }
    ensures { frac_value result ≡ whole number }
{
    match Frac::new(number, 1) {
        Some(fraction) => fraction,
        None => unreachable!(),
    }
}

// A row times its least factor. Wide exactly where a number does not fit.
fn scale_row(alloc: Global, body: &Form, side: Interval) -> Result<FactoredRow, Stop<Wide>>
    requires { IsTrue (is_sided side) }
    ensures scaled { (n i : ℕ) → AreBelow n (form_terms body.now)
        → IfOk result (λ r. IsFactored n i (row_for i body.now side) r) }
    ensures few { IfOk result (λ r. length r.row.terms ≡ length (form_terms body.now)) }
    ensures wide { (n i : ℕ) → AreBelow n (form_terms body.now)
        → IfErr result
        (λ stop. IfFault stop
        (λ _. ¬ RowFits n (row_for i body.now side) (factor_for n (row_for i body.now side)))) }
{
    let Ok(less) = sides_less(side, body.constant()) else {
        return Err(Stop::Fault(Wide));
    };
    let Some(factor) = factor_of_row(body, &less) else {
        return Err(Stop::Fault(Wide));
    };
    let multiplier = whole(factor);
    let Ok(sides) = scaled_sides(&less, multiplier) else {
        return Err(Stop::Fault(Wide));
    };
    let terms = match scaled_terms(alloc, body, multiplier) {
        Ok(terms) => terms,
        Err(stop) => return Err(stop),
    };
    let row = ScaledRow::new(alloc, terms, sides.side, sides.range)?;
    Ok(FactoredRow { factor, row })
}

// The same row of a body that is let go: its terms are handed on where they are decimals, and with
// them the sides, where the factor is 1.
fn move_row(alloc: Global, body: Form, side: Interval) -> Result<FactoredRow, Stop<Wide>>
    requires { IsTrue (is_sided side) }
    ensures scaled { (n i : ℕ) → AreBelow n (form_terms body)
        → IfOk result (λ r. IsFactored n i (row_for i body side) r) }
    ensures few { IfOk result (λ r. length r.row.terms ≡ length (form_terms body)) }
    ensures wide { (n i : ℕ) → AreBelow n (form_terms body)
        → IfErr result
        (λ stop. IfFault stop
        (λ _. ¬ RowFits n (row_for i body side) (factor_for n (row_for i body side)))) }
{
    let kept = side;
    let Some(sides) = plain_sides(body.constant(), side) else {
        return scale_row(alloc, &body, kept);
    };
    let _terms = body.terms();
    let _one = Frac::one();
    match body.into_terms() {
        Ok(terms) => {
            let row = ScaledRow::new(alloc, terms, sides.side, sides.range)?;
            Ok(FactoredRow { factor: 1, row })
        }
        Err(body) => scale_row(alloc, &body, kept),
    }
}

// The row of a constraint times its least factor, none where it has no side. Its fault is that a
// number does not fit.
fn scaled_row_at(
    alloc: Global,
    linear: &Linear,
    con: u32,
) -> Result<Option<FactoredRow>, Stop<ScaleFault>>
    requires { con < length linear.now.bodies }
    ensures scaled { IfOk result (λ o. IsScaledAt (linear_value linear.now) con o) }
    ensures few { (d : Form)
        → IfOk result
        (λ o. term_count_of o ≤ length (form_terms (get_or linear.now.bodies con d))) }
    ensures wide { IfErr result
        (λ stop. IfFault stop
        (λ fault. (fault ≡ RowTooWide con) × ¬ ExportFits (linear_value linear.now) con)) }
{
    let bodies = linear.bodies();
    let sides = linear.sides();
    let body = &bodies[con as usize];
    let side = sides[con as usize];
    if !side.has_side() {
        return Ok(None);
    }
    match scale_row(alloc, body, side) {
        Ok(row) => Ok(Some(row)),
        Err(Stop::Memory) => Err(Stop::Memory),
        Err(Stop::Fault(_)) => Err(Stop::Fault(ScaleFault::RowTooWide(con))),
    }
}

// The rows by constraint, none where one has no side, or the first that is too wide.
pub(crate) fn scaled_rows(
    alloc: Global,
    linear: &Linear,
) -> Result<Vec<Option<FactoredRow>>, Stop<ScaleFault>>
    ensures scaled { IfOk result (λ rows. AreScaledRows (linear_value linear.now) rows.items) }
    ensures few { IfOk result
        (λ rows. row_term_count rows.items ≤ body_term_count linear.now.bodies) }
    ensures wide { IfErr result
        (λ stop. IfFault stop (λ fault. HasScaleFault (linear_value linear.now) fault)) }
{
    let bodies = linear.bodies();
    let mut rows = Vec::with_capacity(alloc, bodies.len())?;
    for con in 0..bodies.len() as u32 {
        let row = match scaled_row_at(alloc, linear, con) {
            Ok(row) => row,
            Err(stop) => return Err(stop),
        };
        rows.push(row)?;
    }
    Ok(rows)
}

// The row of a body that is let go, times its least factor, none where it has no side. Its fault is
// that a number does not fit.
fn moved_row(
    alloc: Global,
    con: u32,
    body: Form,
    side: Interval,
) -> Result<Option<FactoredRow>, Stop<ScaleFault>>
    ensures scaled { (l : LinearValue) → IsRow l con body side
        → IfOk result (λ o. IsScaledAt (linear_value l) con o) }
    ensures few { IfOk result (λ o. term_count_of o ≤ length (form_terms body)) }
    ensures wide { (l : LinearValue) → IsRow l con body side
        → IfErr result
        (λ stop. IfFault stop
        (λ fault. (fault ≡ RowTooWide con) × ¬ ExportFits (linear_value l) con)) }
{
    if !side.has_side() {
        return Ok(None);
    }
    match move_row(alloc, body, side) {
        Ok(row) => Ok(Some(row)),
        Err(Stop::Memory) => Err(Stop::Memory),
        Err(Stop::Fault(_)) => Err(Stop::Fault(ScaleFault::RowTooWide(con))),
    }
}

/// The rows by constraint of bodies that are let go, none where one has no side, or the first that
/// is too wide.
pub(crate) fn moved_rows(
    alloc: Global,
    bodies: Vec<Form>,
    sides: &[Interval],
) -> Result<Vec<Option<FactoredRow>>, Stop<ScaleFault>>
    requires few { length bodies.items ≤ 2 ^ 20 }
    requires count { length sides.now ≡ length bodies.items }
    ensures scaled { (l : LinearValue) → HasRows l bodies.items sides.now
        → IfOk result (λ rows. AreScaledRows (linear_value l) rows.items) }
    ensures few { (l : LinearValue) → HasRows l bodies.items sides.now
        → IfOk result (λ rows. row_term_count rows.items ≤ body_term_count l.bodies) }
    ensures wide { (l : LinearValue) → HasRows l bodies.items sides.now
        → IfErr result
        (λ stop. IfFault stop (λ fault. HasScaleFault (linear_value l) fault)) }
{
    let mut rows = Vec::with_capacity(alloc, bodies.len())?;
    let mut rest = bodies.into_iter();
    for con in 0..sides.len() as u32 {
        let Some(body) = rest.next() else {
            unreachable!()
        };
        let row = match moved_row(alloc, con, body, sides[con as usize]) {
            Ok(row) => row,
            Err(stop) => return Err(stop),
        };
        rows.push(row)?;
    }
    Ok(rows)
}
