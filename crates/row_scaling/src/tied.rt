// The parts of a scaled program, with the row and the column of a tied objective.
ghost use Rattle.std.specs.Prelude.{◌≡◌, IfOk, Some};
ghost use Rattle.exact_numbers.specs.Rational.{one_ℚ};
ghost use Rattle.exact_numbers.specs.Values.{dec_value};
ghost use Rattle.row_scaling.specs.InsideParts.{HaveValue, IsColumn, IsTieRow};
ghost use Rattle.row_scaling.specs.Rows.{IsBelow, IsSparse};
ghost use Rattle.row_scaling.specs.Scaled.{IsScaled, IsTie};

use crate::row::{FactoredRow, ScaledObjective, ScaledRow, Tie};
use exact_numbers::Dec;
use linear_program::{Interval, Kind, Terms};
use std::alloc::{AllocError, Global};

/// Rows by constraint, bounds and kinds by variable. Where the objective is tied, its row comes
/// after those of the constraints, and its column after the variables.
#[derive(Drop)]
pub(crate) struct Parts {
    pub(crate) rows: Vec<Option<FactoredRow>>,
    pub(crate) constraints: usize,
    pub(crate) objective: ScaledObjective,
    // The column alone, where there is one.
    pub(crate) column: Option<ScaledObjective>,
    pub(crate) tie: Option<Tie>,
    pub(crate) maximise: bool,
    pub(crate) bounds: Vec<Interval>,
    pub(crate) kinds: Vec<Kind>,
    pub(crate) variables: usize,
}

#[tactic(auto, using(crate::proofs::SharedLemmas::one_decimal, crate::proofs::SharedLemmas::one_fits))]
fn one() -> Dec
    ensures { dec_value result ≡ one_ℚ }
{
    match Dec::new(1, 0) {
        Some(d) => d,
        None => unreachable!(),
    }
}

// The same terms. By of_slice they would cost a call more at each row of every program, whose terms
// it copies.
fn copied(alloc: Global, terms: &Terms) -> Result<Terms, AllocError>
    ensures { IfOk result (λ new. new ≡ terms.now) }
{
    let mut new = Terms::new(alloc);
    for term in terms.items() {
        new.push(*term)?;
    }
    Ok(new)
}

// The objective less so many times column z, its constant taken to both sides.
#[tactic(auto, using(crate::proofs::TieLemmas::no_difference, crate::proofs::TieLemmas::tie_terms_sparse))]
fn tie_row(
    alloc: Global,
    constant: Dec,
    coefficients: &Terms,
    tie: Tie,
    z: u32,
) -> Result<FactoredRow, AllocError>
    requires sparse { IsSparse 0 coefficients.now }
    requires below { IsBelow z coefficients.now }
    requires tie { IsTie tie }
    ensures { IfOk result
        (λ r. IsTieRow z (record { constant = constant; terms = coefficients.now }) tie r) }
{
    let mut terms = copied(alloc, coefficients)?;
    terms.push((z, tie.weight))?;
    let lo = constant.neg();
    let hi = lo;
    let side = Interval {
        lo: Some(lo),
        hi: Some(hi),
    };
    let row = ScaledRow::new(alloc, terms, side, None)?;
    Ok(FactoredRow {
        factor: tie.factor,
        row,
    })
}

// Column z alone.
fn column(alloc: Global, z: u32) -> Result<ScaledObjective, AllocError>
    ensures { IfOk result (IsColumn z) }
{
    let mut terms = Terms::new(alloc);
    terms.push((z, one()))?;
    Ok(ScaledObjective {
        constant: Dec::zero(),
        terms,
    })
}

// The parts of an objective that is tied.
fn tied_parts(
    alloc: Global,
    rows: Vec<Option<FactoredRow>>,
    objective: ScaledObjective,
    tie: Tie,
    maximise: bool,
    bounds: Vec<Interval>,
    kinds: Vec<Kind>,
) -> Result<Parts, AllocError>
    requires { IsScaled (record {
      rows = rows.items;
      objective = objective;
      tie = Some tie;
      maximise = maximise;
      bounds = bounds.items;
      kinds = kinds.items;
    }) }
    ensures { IfOk result (λ p. HaveValue p (record {
      rows = rows.items;
      objective = objective;
      tie = Some tie;
      maximise = maximise;
      bounds = bounds.items;
      kinds = kinds.items;
    })) }
{
    let constraints = rows.len();
    let variables = bounds.len();
    let ScaledObjective { constant, terms } = objective;
    let kept = tie;
    let row = tie_row(alloc, constant, &terms, tie, variables as u32)?;
    let alone = column(alloc, variables as u32)?;
    let mut all_rows = rows;
    all_rows.insert(constraints, Some(row))?;
    let mut all_bounds = bounds;
    all_bounds.push(Interval { lo: None, hi: None })?;
    let mut all_kinds = kinds;
    all_kinds.push(Kind::Continuous)?;
    Ok(Parts {
        rows: all_rows,
        constraints,
        objective: ScaledObjective { constant, terms },
        column: Some(alone),
        tie: Some(kept),
        maximise,
        bounds: all_bounds,
        kinds: all_kinds,
        variables,
    })
}

/// The parts of a scaled program.
pub(crate) fn all_parts(
    alloc: Global,
    rows: Vec<Option<FactoredRow>>,
    objective: ScaledObjective,
    tie: Option<Tie>,
    maximise: bool,
    bounds: Vec<Interval>,
    kinds: Vec<Kind>,
) -> Result<Parts, AllocError>
    requires { IsScaled (record {
      rows = rows.items;
      objective = objective;
      tie = tie;
      maximise = maximise;
      bounds = bounds.items;
      kinds = kinds.items;
    }) }
    ensures { IfOk result (λ p. HaveValue p (record {
      rows = rows.items;
      objective = objective;
      tie = tie;
      maximise = maximise;
      bounds = bounds.items;
      kinds = kinds.items;
    })) }
{
    match tie {
        None => Ok(Parts {
            constraints: rows.len(),
            variables: bounds.len(),
            rows,
            objective,
            column: None,
            tie: None,
            maximise,
            bounds,
            kinds,
        }),
        Some(tie) => tied_parts(alloc, rows, objective, tie, maximise, bounds, kinds),
    }
}
