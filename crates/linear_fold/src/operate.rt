// The operators on forms.
ghost use Rattle.std.specs.Prelude.{◌≡◌, ◌+◌, ◌*◌, ◌≤◌, [], ◌∷◌, IfOk, OnOk, length, ℕ, ◌<◌, reverse, take, vec_len};
ghost use Rattle.code_tables.specs.declared.class.OpClass.TheVariants.{Product, Quotient};
ghost use Rattle.exact_numbers.specs.Values.{frac_value};
ghost use Rattle.linear_program.specs.Lines.{constant_line, line_scaled, products_fit};
ghost use Rattle.nl_model.specs.Trees.{Takes, rule_of};
ghost use Rattle.linear_program.specs.Forms.{IsWithin, form_line};
ghost use Rattle.linear_fold.specs.InsideOperates.{AreOperands, ComesTo, IsLeft, IsOperand, IsPad, Operates, lines_of_parts, multiple_line, part_line};

use crate::parts::{PartialForm, operands_of, unit_of};
use crate::{constants, sums};
use code_tables::OpClass;
use exact_numbers::Frac;
use linear_program::{Form, Pad};
use nl_model::Reason;
use std::alloc::{AllocError, Global};
use text_base::{Ledger, Steps, Stop};

/// The form of an operator, or why it has none.
#[derive(Drop)]
pub enum Outcome {
    Linear(PartialForm),
    Refused(Reason),
}

// k times a form.
fn scaled_form<L: Ledger>(
    alloc: Global,
    a: &Form,
    k: Frac,
    steps: &mut Steps<L>,
    variables: u32,
) -> Result<Outcome, AllocError>
    requires { IsWithin variables a.now }
    ensures outcome { IfOk result
        (λ o. ComesTo variables
        (products_fit variables (frac_value k) (form_line a.now))
        (line_scaled (frac_value k) (form_line a.now)) o) }
    ensures above { steps.old ≤ steps.new }
    ensures below { steps.new ≤ steps.old + (variables + 1) }
{
    if k.is_zero() {
        return Ok(Outcome::Linear(PartialForm::Number(k)));
    }
    match a.times(alloc, k, steps) {
        Ok(form) => Ok(Outcome::Linear(PartialForm::Linear(form))),
        Err(Stop::Fault(_)) => Ok(Outcome::Refused(Reason::TooWide)),
        Err(Stop::Memory) => Err(AllocError),
    }
}

// k times a number.
#[tactic(auto, using(crate::proofs::Operators::number_fits, crate::proofs::Operators::number_scaled))]
fn scaled_number(number: Frac, k: Frac) -> Outcome
    ensures { (n : ℕ) → ComesTo n
        (products_fit n (frac_value k) (constant_line (frac_value number)))
        (line_scaled (frac_value k) (constant_line (frac_value number))) result }
{
    match k.mul(number) {
        Some(number) => Outcome::Linear(PartialForm::Number(number)),
        None => Outcome::Refused(Reason::TooWide),
    }
}

// k times a factor times a variable.
#[tactic(auto, using(crate::proofs::Operators::multiple_fits))]
fn scaled_multiple(variable: u32, factor: Frac, k: Frac) -> Outcome
    ensures { (n : ℕ) → variable < n → ComesTo n
        (products_fit n (frac_value k) (multiple_line variable (frac_value factor)))
        (line_scaled (frac_value k) (multiple_line variable (frac_value factor))) result }
{
    match k.mul(factor) {
        Some(factor) => Outcome::Linear(PartialForm::Variable(variable, factor)),
        None => Outcome::Refused(Reason::TooWide),
    }
}

/// k times an operand.
pub(crate) fn scaled<L: Ledger>(
    alloc: Global,
    a: &PartialForm,
    k: Frac,
    steps: &mut Steps<L>,
    variables: u32,
) -> Result<Outcome, AllocError>
    requires { IsOperand variables a.now }
    ensures outcome { IfOk result
        (λ o. ComesTo variables
        (products_fit variables (frac_value k) (part_line a.now))
        (line_scaled (frac_value k) (part_line a.now)) o) }
    ensures above { steps.old ≤ steps.new }
    ensures below { steps.new ≤ steps.old + (variables + 1) }
{
    match a {
        PartialForm::Number(number) => {
            steps.tick();
            Ok(scaled_number(*number, k))
        }
        PartialForm::Variable(variable, factor) => {
            steps.tick();
            steps.tick();
            Ok(scaled_multiple(*variable, *factor, k))
        }
        PartialForm::Linear(form) => scaled_form(alloc, form, k, steps, variables),
        PartialForm::Opposite(form) => scaled_form(alloc, form, k.neg(), steps, variables),
        PartialForm::Broken(_) => unreachable!(),
    }
}

fn product<L: Ledger>(
    alloc: Global,
    a: &PartialForm,
    b: &PartialForm,
    steps: &mut Steps<L>,
    variables: u32,
) -> Result<Outcome, AllocError>
    requires first { IsOperand variables a.now }
    requires second { IsOperand variables b.now }
    ensures outcome { IfOk result
        (λ o. Operates variables Product (part_line a.now ∷ part_line b.now ∷ []) o) }
    ensures above { steps.old ≤ steps.new }
    ensures below { steps.new ≤ steps.old + (variables + 1) }
{
    if let Some(k) = a.constant() {
        return scaled(alloc, b, k, steps, variables);
    }
    if let Some(k) = b.constant() {
        return scaled(alloc, a, k, steps, variables);
    }
    Ok(Outcome::Refused(Reason::Nonlinear))
}

fn quotient<L: Ledger>(
    alloc: Global,
    a: &PartialForm,
    b: &PartialForm,
    steps: &mut Steps<L>,
    variables: u32,
) -> Result<Outcome, AllocError>
    requires first { IsOperand variables a.now }
    requires second { IsOperand variables b.now }
    ensures outcome { IfOk result
        (λ o. Operates variables Quotient (part_line a.now ∷ part_line b.now ∷ [])
        o) }
    ensures above { steps.old ≤ steps.new }
    ensures below { steps.new ≤ steps.old + (variables + 1) }
{
    let Some(divisor) = b.constant() else {
        return Ok(Outcome::Refused(Reason::Nonlinear));
    };
    if divisor.is_zero() {
        return Ok(Outcome::Refused(Reason::DivideByZero));
    }
    scaled(alloc, a, divisor.reciprocal(), steps, variables)
}

// Two operands, the first of them last in the list.
#[tactic(auto, using(crate::proofs::Operators::pair_of))]
fn two_of(operands: &[PartialForm]) -> (&PartialForm, &PartialForm)
    requires { length operands.now ≡ 2 }
    ensures { reverse operands.now ≡ result.0.now ∷ result.1.now ∷ [] }
{
    (&operands[1], &operands[0])
}

#[tactic(auto, using(crate::proofs::Operators::single_of))]
fn one_of(operands: &[PartialForm]) -> &PartialForm
    requires { length operands.now ≡ 1 }
    ensures { reverse operands.now ≡ result.now ∷ [] }
{
    &operands[0]
}

/// The form or the fault of an operator, whose operands stand at the end of a stack, the first of them
/// last. Some of them may be taken.
#[tactic(auto, using(crate::proofs::Operators::first_within, crate::proofs::Operators::second_within, crate::proofs::Operators::one_within, crate::proofs::Operators::operand_unbroken))]
pub(crate) fn operate<L: Ledger>(
    alloc: Global,
    class: OpClass,
    stack: &mut Vec<PartialForm>,
    count: usize,
    pad: &mut Option<Pad>,
    steps: &mut Steps<L>,
    variables: u32,
) -> Result<Outcome, AllocError>
    requires rule { Takes (rule_of class) count }
    requires count { count ≤ vec_len stack.old }
    requires within { AreOperands variables (take count (reverse stack.old.items)) }
    requires pad { IsPad variables pad.old }
    ensures outcome { IfOk result
        (λ o. Operates variables class (lines_of_parts (take count (reverse stack.old.items))) o) }
    ensures left { OnOk result (IsLeft count stack.old.items stack.new.items) }
    ensures pad { OnOk result (IsPad variables pad.new) }
    ensures above { steps.old ≤ steps.new }
    ensures below { steps.new ≤ steps.old + 2 * (variables + 1) * count }
{
    match class {
        OpClass::Sum => sums::sum_of_all(alloc, stack, count, pad, steps, variables),
        OpClass::List => sums::sum_of_all(alloc, stack, count, pad, steps, variables),
        OpClass::Difference => sums::difference(alloc, stack, pad, steps, variables),
        OpClass::Negation => Ok(sums::negated(stack)),
        OpClass::Product => {
            if let Some(minus) = unit_of(operands_of(stack, count)) {
                return Ok(sums::by_unit(stack, minus));
            }
            let (a, b) = two_of(operands_of(stack, count));
            product(alloc, a, b, steps, variables)
        }
        OpClass::Quotient => {
            let (a, b) = two_of(operands_of(stack, count));
            quotient(alloc, a, b, steps, variables)
        }
        OpClass::Power => {
            let (a, b) = two_of(operands_of(stack, count));
            Ok(constants::power(a, b))
        }
        OpClass::Least => Ok(constants::best(operands_of(stack, count), true)),
        OpClass::Greatest => Ok(constants::best(operands_of(stack, count), false)),
        OpClass::Floor => Ok(constants::floor(one_of(operands_of(stack, count)))),
        OpClass::Ceiling => Ok(constants::ceiling(one_of(operands_of(stack, count)))),
        OpClass::Absolute => Ok(constants::absolute(one_of(operands_of(stack, count)))),
        OpClass::Refused => unreachable!(),
    }
}
