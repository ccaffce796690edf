// The bound of a leaf, by the rows that have a number.
ghost use Rattle.std.specs.Prelude.{◌≡◌, IfOk, length};
ghost use Rattle.linear_program.specs.Linear.{Linear, row_count};
ghost use Rattle.exact_numbers.specs.Rational.{zero_ℚ};
ghost use Rattle.certificates.specs.Parts.{maximising};
ghost use Rattle.certificates.specs.Verdict.{dual_bound};
ghost use Rattle.exact_numbers.specs.Values.{frac_value};
ghost use Rattle.linear_program.specs.Coefs.{coef_in};
ghost use Rattle.linear_program.specs.Numbers.{spread};
ghost use Rattle.exact_checks.specs.Answers.{bound_answer_of};
ghost use Rattle.exact_checks.specs.Leaves.{CanBound, HasRows, IsGoal, IsOver};
ghost use Rattle.exact_checks.specs.Programs.{asked, bounds_in};
ghost use Rattle.exact_checks.specs.Sums.{AreZero, cost_count};
ghost use Rattle.exact_checks.specs.Terms.{AreTerms};

use crate::costs::Costs;
use crate::form::Row;
use crate::pairs::{first_lacking_side, rows_total, take_rows};
use crate::program::Program;
use crate::verdict::{BoundVerdict, Goal};
use exact_numbers::{Dec, Frac};
use linear_program::{Coefficients, Number};
use std::alloc::AllocError;

// The bound on a constant with these terms.
#[tactic(auto, using(crate::proofs::LeafLemmas::side_lacks, crate::proofs::Rows::variables_counted))]
fn bound_of_goal(
    costs: &mut Costs,
    program: &Program,
    planes: &[Row],
    maximise: bool,
    constant: Frac,
    terms: &Coefficients,
    lo: &[Option<Dec>],
    hi: &[Option<Dec>],
    pairs: &[(u32, Number)],
) -> Result<BoundVerdict, AllocError>
    requires leaf { CanBound program.now planes.now costs.old lo.now hi.now pairs.now }
    requires terms { AreTerms 0 (length program.now.lower.items) terms.now }
    ensures exact { IfOk result (λ v. (f : Linear) → HasRows program.now planes.now f
        → IsGoal maximise (frac_value constant) terms.now f → bound_answer_of v
        ≡ dual_bound f (bounds_in lo.now hi.now) (spread (row_count f) pairs.now)) }
    ensures zero { IfOk result (λ v. AreZero costs.new) }
    ensures count { IfOk result (λ v. cost_count costs.new ≡ cost_count costs.old) }
{
    if let Some(row) = first_lacking_side(program, planes, maximise, pairs) {
        return Ok(BoundVerdict::RowSideMissing(row));
    }
    costs.begin(program.n_var(), terms)?;
    take_rows(costs, program, planes, pairs)?;
    costs.order();
    let start = rows_total(program, planes, maximise, constant, pairs);
    let verdict = costs.bound(start, maximise, lo, hi);
    costs.clear();
    Ok(verdict)
}

/// The bound on the objective, or on 0, that the numbers of rows show within the bounds lo and hi:
/// those of the program, and those of planes after them. The work is that of the terms of the rows
/// that have a number, and of the objective; the costs are 0 before and after.
#[tactic(auto, using(crate::proofs::LeafLemmas::no_terms))]
pub fn leaf_bound(
    costs: &mut Costs,
    program: &Program,
    planes: &[Row],
    goal: Goal,
    lo: &[Option<Dec>],
    hi: &[Option<Dec>],
    pairs: &[(u32, Number)],
) -> Result<BoundVerdict, AllocError>
    requires leaf { CanBound program.now planes.now costs.old lo.now hi.now pairs.now }
    ensures exact { IfOk result (λ v. (f : Linear) → IsOver program.now planes.now f
        → bound_answer_of v ≡ dual_bound (asked goal f) (bounds_in lo.now hi.now)
        (spread (row_count f) pairs.now)) }
    ensures zero { IfOk result (λ v. AreZero costs.new) }
    ensures count { IfOk result (λ v. cost_count costs.new ≡ cost_count costs.old) }
{
    match goal {
        Goal::Objective => {
            let maximise = program.maximise;
            let body = &program.objective;
            bound_of_goal(
                costs,
                program,
                planes,
                maximise,
                body.constant,
                &body.terms,
                lo,
                hi,
                pairs,
            )
        }
        Goal::Zero => {
            let none = Coefficients::new(program.objective.terms.allocator());
            bound_of_goal(
                costs,
                program,
                planes,
                false,
                Frac::zero(),
                &none,
                lo,
                hi,
                pairs,
            )
        }
    }
}

/// The bound on a sum of terms, maximised, in place of the objective: otherwise as `leaf_bound`.
pub fn sum_bound(
    costs: &mut Costs,
    program: &Program,
    planes: &[Row],
    terms: &Coefficients,
    lo: &[Option<Dec>],
    hi: &[Option<Dec>],
    pairs: &[(u32, Number)],
) -> Result<BoundVerdict, AllocError>
    requires leaf { CanBound program.now planes.now costs.old lo.now hi.now pairs.now }
    requires terms { AreTerms 0 (length program.now.lower.items) terms.now }
    ensures exact { IfOk result (λ v. (f : Linear) → HasRows program.now planes.now f
        → bound_answer_of v
        ≡ dual_bound (maximising f (record { constant = zero_ℚ; coefficient = coef_in terms.now }))
        (bounds_in lo.now hi.now) (spread (row_count f) pairs.now)) }
    ensures zero { IfOk result (λ v. AreZero costs.new) }
    ensures count { IfOk result (λ v. cost_count costs.new ≡ cost_count costs.old) }
{
    bound_of_goal(
        costs,
        program,
        planes,
        true,
        Frac::zero(),
        terms,
        lo,
        hi,
        pairs,
    )
}
