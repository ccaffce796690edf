// The objective of a linear program, times its least factor where it is not decimal.
ghost use Rattle.std.specs.Prelude.{◌≡◌, ◌≢◌, ◌<ℤ◌, pos, IfOk, IfErr, IfSome, All, None};
ghost use Rattle.text_base.specs.Stopped.{IfFault};
ghost use Rattle.exact_numbers.specs.Rational.{one_ℚ};
ghost use Rattle.exact_numbers.specs.Values.{frac_value};
ghost use Rattle.linear_program.specs.Coefs.{AreAscending};
ghost use Rattle.linear_program.specs.Forms.{form_terms};
ghost use Rattle.row_scaling.specs.Factored.{AreTiedFit, IsObjectiveTimes, IsTiedOrPlain, IsTiedTo, IsTooWide, numbers_of};
ghost use Rattle.row_scaling.specs.Fitting.{NumberFits};
ghost use Rattle.row_scaling.specs.Scaled.{IsTie};

use crate::factors::factor_of_objective;
use crate::row::{ScaledObjective, Tie};
use crate::scaled_rows::whole;
use crate::scaled_terms::{scaled_number, scaled_terms};
use exact_numbers::Frac;
use linear_program::{Form, Wide};
use std::alloc::Global;
use text_base::Stop;

// An objective times the factor. Wide exactly where a number does not fit.
fn objective_times(
    alloc: Global,
    objective: &Form,
    factor: Frac,
) -> Result<ScaledObjective, Stop<Wide>>
    ensures scaled { IfOk result (λ o. IsObjectiveTimes (frac_value factor) objective.now o) }
    ensures ascending { AreAscending 0 (form_terms objective.now) }
    ensures wide { IfErr result
        (λ stop. IfFault stop
        (λ _. ¬ All (NumberFits (frac_value factor)) (numbers_of objective.now))) }
{
    let terms = match scaled_terms(alloc, objective, factor) {
        Ok(terms) => terms,
        Err(stop) => return Err(stop),
    };
    let Some(constant) = scaled_number(objective.constant(), factor) else {
        return Err(Stop::Fault(Wide));
    };
    Ok(ScaledObjective { constant, terms })
}

// The tie of a factor.
fn tie(factor: i128) -> Tie
    requires { pos 0 <ℤ factor }
    ensures factor { result.factor ≡ factor }
    ensures tie { IsTie result }
{
    match whole(factor).to_dec() {
        Some(decimal) => Tie {
            factor,
            weight: decimal.neg(),
        },
        None => unreachable!(),
    }
}

/// An objective, and what ties it where it is not decimal.
#[derive(Drop)]
pub(crate) struct TiedObjective {
    pub(crate) objective: ScaledObjective,
    pub(crate) tie: Option<Tie>,
}

// An objective times its least factor, tied. Wide exactly where a number does not fit.
#[tactic(auto, using(crate::proofs::NumberLemmas::factor_positive))]
fn tied_objective(alloc: Global, objective: &Form) -> Result<TiedObjective, Stop<Wide>>
    ensures scaled { IfOk result (λ o. IfSome o.tie (λ t. IsTiedTo objective.now o.objective t)) }
    ensures tied { IfOk result (λ o. o.tie ≢ None) }
    ensures wide { IfErr result (λ stop. IfFault stop (λ _. ¬ AreTiedFit objective.now)) }
{
    let Some(factor) = factor_of_objective(objective) else {
        return Err(Stop::Fault(Wide));
    };
    match objective_times(alloc, objective, whole(factor)) {
        Ok(scaled) => Ok(TiedObjective {
            objective: scaled,
            tie: Some(tie(factor)),
        }),
        Err(stop) => Err(stop),
    }
}

// The objective as it is where it is decimal, and otherwise tied. Wide exactly where it is not
// decimal, and a number of the tied one does not fit.
pub(crate) fn scaled_objective(alloc: Global, objective: &Form) -> Result<TiedObjective, Stop<Wide>>
    ensures scaled { IfOk result (λ o. IsTiedOrPlain objective.now o.objective o.tie) }
    ensures ascending { AreAscending 0 (form_terms objective.now) }
    ensures wide { IfErr result (λ stop. IfFault stop (λ _. IsTooWide objective.now)) }
{
    match objective_times(alloc, objective, Frac::one()) {
        Ok(scaled) => Ok(TiedObjective {
            objective: scaled,
            tie: None,
        }),
        Err(Stop::Memory) => Err(Stop::Memory),
        Err(Stop::Fault(_)) => tied_objective(alloc, objective),
    }
}
