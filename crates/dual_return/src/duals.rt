// Duals of the file's rows.
ghost use Rattle.std.specs.Prelude.{◌≡◌, ◌<◌, ◌≤◌, ◌^◌, ℕ, ℤ, pos, negsuc, ◌*ℤ◌, ◌&&◌, ◌≤ℤ◌, IfSome, IfOk, IfErr, OnOk, Option, Some, None, get_or, length, if◌then◌else◌, unsigned_abs, is_some, []};
ghost use Rattle.std.specs.List.{list_any};
ghost use Rattle.exact_numbers.specs.Rational.{whole, zero_ℚ, ◌*ℚ◌};
ghost use Rattle.exact_numbers.specs.Values.{dec_value, IsInReach};
ghost use Rattle.nl_model.specs.File.{File};
ghost use Rattle.row_scaling.specs.Scaling.{IsScaledOf, factor_at};
ghost use Rattle.text_base.specs.Stopped.{IfFault};
ghost use Rattle.dual_return.specs.Return.{IsDualAt, AreDuals, AreDualsIf, HasReturnFault, DualBy, AreFactors, sign_by, linear_for};

use crate::fault::ReturnFault;
use crate::parts::add_duals;
use answer_file::Answer;
use exact_numbers::Dec;
use nl_model::Decs;
use row_scaling::Scaled;
use sol_files::SolBuilder;
use std::alloc::Global;
use text_base::Stop;

// The factor with the answer's sign.
fn multiplier(turned: bool, factor: i128) -> i128
    requires { pos 0 ≤ℤ factor }
    ensures { result ≡ sign_by turned *ℤ factor }
{
    if turned { -factor } else { factor }
}

// Whether duals are given as for minimising, and the objective is maximised.
fn is_turned(answer: &Answer, scaled: &Scaled) -> bool
    ensures { result ≡ (answer.now.min_sign && scaled.now.maximise) }
{
    answer.min_sign() && scaled.maximise()
}

// The dual of a row from its value in the answer; none where it is out of reach.
fn dual(value: Option<Dec>, factor: Option<i128>, turned: bool) -> Option<Dec>
    requires { IfSome factor (λ g. pos 0 ≤ℤ g) }
    ensures { DualBy value factor (sign_by turned) result }
{
    let Some(factor) = factor else {
        return Some(Dec::zero());
    };
    match value {
        Some(value) => value.times(multiplier(turned, factor)),
        None => Some(Dec::zero()),
    }
}

/// The duals of all rows, or the first that is out of reach.
fn duals_of(
    alloc: Global,
    count: u32,
    scaled: &Scaled,
    answer: &Answer,
) -> Result<Decs, Stop<ReturnFault>>
    requires { AreFactors scaled.now }
    ensures duals { IfOk result (λ duals. (f : File) → count ≡ f.counts.n_con
        → IsScaledOf (linear_for f answer.now) scaled.now → AreDuals f answer.now duals) }
    ensures fault { IfErr result (λ stop. IfFault stop (λ fault. (f : File) → count ≡ f.counts.n_con
        → IsScaledOf (linear_for f answer.now) scaled.now → HasReturnFault f answer.now fault)) }
{
    let turned = is_turned(answer, scaled);
    let mut duals = Decs::new(alloc);
    'constraints: for con in 0..count {
        let Some(value) = dual(answer.row(con), scaled.factor(con), turned) else {
            return Err(Stop::Fault(ReturnFault::DualTooWide(con)));
        };
        duals.push(value)?;
    }
    Ok(duals)
}

/// Adds the duals, where the answer has values of rows.
pub(crate) fn add_given_duals(
    alloc: Global,
    sol: &mut SolBuilder,
    count: u32,
    scaled: &Scaled,
    answer: &Answer,
) -> Result<(), Stop<ReturnFault>>
    requires none { sol.old.duals ≡ [] }
    requires factors { AreFactors scaled.now }
    ensures others { OnOk result (sol.new ≡ record sol.old { duals = sol.new.duals }) }
    ensures duals { OnOk result ((f : File) → count ≡ f.counts.n_con
        → IsScaledOf (linear_for f answer.now) scaled.now
        → AreDualsIf (list_any is_some answer.now.rows) f answer.now sol.new.duals) }
    ensures fault { IfErr result (λ stop. IfFault stop (λ fault. (f : File) → count ≡ f.counts.n_con
        → IsScaledOf (linear_for f answer.now) scaled.now → HasReturnFault f answer.now fault)) }
{
    if !answer.has_rows() {
        return Ok(());
    }
    let duals = match duals_of(alloc, count, scaled, answer) {
        Ok(duals) => duals,
        Err(stop) => return Err(stop),
    };
    add_duals(sol, &duals)?;
    Ok(())
}
