// What the parts of a tree come to. A number, and a factor times a variable, are no forms yet: they
// allocate nothing.
ghost use Rattle.std.specs.Prelude.{◌≡◌, ◌+◌, ◌≤◌, ◌∷◌, List, ℕ, IfOk, IfSome, OnOk, false, is_some, length, reverse, take, vec_len, [], ◌++◌};
ghost use Rattle.exact_numbers.specs.Values.{frac_value};
ghost use Rattle.exact_numbers.specs.Rational.{zero_ℚ};
ghost use Rattle.linear_program.specs.Lines.{is_constant, is_zero, line_neg};
ghost use Rattle.linear_program.specs.Forms.{IsWithin, form_line, form_terms, is_open};
ghost use Rattle.linear_fold.specs.InsideFolds.{IsEntryOf, IsPartWithin, first_broken};
ghost use Rattle.linear_fold.specs.InsideOperates.{HasPlaces, IsOperand, IsPad, IsPlaced, IsSamePart, IsSound, IsUnbroken, IsUnit, is_open_part, multiple_line, part_line};

use crate::entries::Entry;
use exact_numbers::Frac;
use linear_program::{Coefficients, Form, Pad};
use nl_model::Fault;
use std::alloc::{AllocError, Global};
use std::mem;
use text_base::{Ledger, Steps, Stop};

/// What a part of a tree came to: a number, a factor times a variable, a form, the opposite of a form,
/// or a fault. A form may be open: then what is added to the part is added in its place.
#[derive(Drop)]
pub enum PartialForm {
    Number(Frac),
    Variable(u32, Frac),
    Linear(Form),
    Opposite(Form),
    Broken(Fault),
}

// The first fault of a part and of those after it, whose first fault is known.
fn fault_before(part: &PartialForm, after: Option<Fault>) -> Option<Fault>
    ensures { (ps : List PartialForm) → after ≡ first_broken ps
        → result ≡ first_broken (part.now ∷ ps) }
{
    match part {
        PartialForm::Number(_) => after,
        PartialForm::Variable(_, _) => after,
        PartialForm::Linear(_) => after,
        PartialForm::Opposite(_) => after,
        PartialForm::Broken(fault) => Some(*fault),
    }
}

/// The first fault among operands, of which the first is the last of the list.
#[tactic(auto, using(crate::proofs::Operators::one_more, std::proofs::lemmas::List::take_all))]
pub(crate) fn first_fault(operands: &[PartialForm]) -> Option<Fault>
    ensures { result ≡ first_broken (reverse operands.now) }
{
    let mut broken = None;
    for operand in operands {
        broken = fault_before(operand, broken);
    }
    broken
}

/// Takes the last part of a stack.
pub(crate) fn take_last(stack: &mut Vec<PartialForm>) -> PartialForm
    requires { 1 ≤ vec_len stack.old }
    ensures { stack.old.items ≡ stack.new.items ++ result ∷ [] }
{
    match stack.pop() {
        Some(part) => part,
        None => unreachable!(),
    }
}

/// The last parts of a stack, so many.
pub(crate) fn operands_of(stack: &Vec<PartialForm>, count: usize) -> &[PartialForm]
    requires { count ≤ vec_len stack.now }
    ensures operands { reverse result.now ≡ take count (reverse stack.now.items) }
    ensures count { length result.now ≡ count }
{
    stack.split_at(stack.len() - count).1
}

/// Whether the first of operands, the last of the list, is -1; none where it is not 1 either.
pub(crate) fn unit_of(operands: &[PartialForm]) -> Option<bool>
    requires { 1 ≤ length operands.now }
    ensures { IfSome result (λ minus. IsUnit minus (reverse operands.now)) }
{
    let PartialForm::Number(number) = &operands[operands.len() - 1] else {
        return None;
    };
    if number.den() != 1 {
        return None;
    }
    if number.num() == 1 {
        return Some(false);
    }
    if number.num() == -1 {
        return Some(true);
    }
    None
}

// The constant of a form without coefficients.
fn constant_of(form: &Form) -> Option<Frac>
    ensures value { IfSome result (λ f. frac_value f ≡ (form_line form.now).constant) }
    ensures test { (n : ℕ) → IsWithin n form.now
        → is_some result ≡ is_constant n (form_line form.now) }
{
    if form.is_constant() {
        Some(form.constant())
    } else {
        None
    }
}

// The constant of the opposite of a form without coefficients.
fn constant_of_opposite(form: &Form) -> Option<Frac>
    ensures value { IfSome result (λ f. frac_value f ≡ (line_neg (form_line form.now)).constant) }
    ensures test { (n : ℕ) → IsWithin n form.now
        → is_some result ≡ is_constant n (line_neg (form_line form.now)) }
{
    match constant_of(form) {
        Some(constant) => Some(constant.neg()),
        None => None,
    }
}

// 0 times a variable is the constant 0; no other multiple is constant.
fn constant_of_multiple(factor: Frac) -> Option<Frac>
    ensures value { IfSome result (λ f. frac_value f ≡ zero_ℚ) }
    ensures test { is_some result ≡ is_zero (frac_value factor) }
{
    if factor.is_zero() { Some(factor) } else { None }
}

/// A factor times a variable, as a form.
pub(crate) fn form_of_multiple(
    alloc: Global,
    variable: u32,
    factor: Frac,
) -> Result<Form, AllocError>
    ensures line { IfOk result (λ f. form_line f ≡ multiple_line variable (frac_value factor)) }
    ensures few { IfOk result (λ f. length (form_terms f) ≤ 1) }
    ensures closed { IfOk result (λ f. is_open f ≡ false) }
{
    let zero = Form::new(alloc);
    if factor.is_zero() {
        return Ok(zero);
    }
    let coefficients = Coefficients::of_term(alloc, variable, factor)?;
    Ok(zero.with_coefficients(coefficients))
}

// The opposite of a form.
fn opposite_form<L: Ledger>(
    alloc: Global,
    form: &Form,
    steps: &mut Steps<L>,
    variables: u32,
) -> Result<Form, AllocError>
    requires { IsWithin variables form.now }
    ensures line { IfOk result (λ f. form_line f ≡ line_neg (form_line form.now)) }
    ensures closed { IfOk result (λ f. is_open f ≡ false) }
    ensures above { steps.old ≤ steps.new }
    ensures below { steps.new ≤ steps.old + (variables + 1) }
{
    match form.times(alloc, Frac::one().neg(), steps) {
        Ok(opposite) => Ok(opposite),
        Err(Stop::Fault(_)) => unreachable!(),
        Err(Stop::Memory) => Err(AllocError),
    }
}

// Closes a form, where it is open; its pad is free then.
fn close_form(
    alloc: Global,
    form: &mut Form,
    pad: &mut Option<Pad>,
    variables: u32,
) -> Result<(), AllocError>
    requires form { HasPlaces variables form.old }
    requires pad { IsPad variables pad.old }
    ensures line { OnOk result (form_line form.new ≡ form_line form.old) }
    ensures closed { OnOk result (is_open form.new ≡ false) }
    ensures pad { OnOk result (IsPad variables pad.new) }
{
    if !form.is_open() {
        return Ok(());
    }
    let (closed, empty) = mem::replace(form, Form::new(alloc)).close()?;
    *form = closed;
    *pad = Some(empty);
    Ok(())
}

impl PartialForm {
    /// The value of a part that is constant.
    #[tactic(auto, using(crate::proofs::Operators::number_constant))]
    pub(crate) fn constant(&self) -> Option<Frac>
        requires { IsUnbroken self.now }
        ensures value { IfSome result (λ f. frac_value f ≡ (part_line self.now).constant) }
        ensures test { (n : ℕ) → IsOperand n self.now
            → is_some result ≡ is_constant n (part_line self.now) }
    {
        match self {
            PartialForm::Number(number) => Some(*number),
            PartialForm::Variable(_, factor) => constant_of_multiple(*factor),
            PartialForm::Linear(form) => constant_of(form),
            PartialForm::Opposite(form) => constant_of_opposite(form),
            PartialForm::Broken(_) => unreachable!(),
        }
    }

    /// Whether it is a form, or the opposite of one, that is open.
    pub(crate) fn is_open(&self) -> bool
        ensures { result ≡ is_open_part self.now }
    {
        match self {
            PartialForm::Linear(form) => form.is_open(),
            PartialForm::Opposite(form) => form.is_open(),
            _ => false,
        }
    }

    /// About how many terms it has, told at once: no promise is made.
    pub(crate) fn room(&self) -> usize {
        match self {
            PartialForm::Linear(form) => form.room(),
            PartialForm::Opposite(form) => form.room(),
            _ => 1,
        }
    }

    /// Closes its form, where that is open; the pad is free then.
    pub(crate) fn close(
        &mut self,
        alloc: Global,
        pad: &mut Option<Pad>,
        variables: u32,
    ) -> Result<(), AllocError>
        requires part { IsPlaced variables self.old }
        requires pad { IsPad variables pad.old }
        ensures same { OnOk result (IsSamePart self.old self.new) }
        ensures closed { OnOk result (is_open_part self.new ≡ false) }
        ensures pad { OnOk result (IsPad variables pad.new) }
    {
        match self {
            PartialForm::Linear(form) => close_form(alloc, form, pad, variables),
            PartialForm::Opposite(form) => close_form(alloc, form, pad, variables),
            _ => Ok(()),
        }
    }

    /// The part with the other sign.
    pub(crate) fn opposite(self) -> PartialForm
        requires { IsUnbroken self }
        ensures line { part_line result ≡ line_neg (part_line self) }
        ensures sound { (n : ℕ) → IsSound n self → IsSound n result }
    {
        match self {
            PartialForm::Number(number) => PartialForm::Number(number.neg()),
            PartialForm::Variable(variable, factor) => {
                PartialForm::Variable(variable, factor.neg())
            }
            PartialForm::Linear(form) => PartialForm::Opposite(form),
            PartialForm::Opposite(form) => PartialForm::Linear(form),
            PartialForm::Broken(_) => unreachable!(),
        }
    }

    /// The form of a whole tree, or its fault.
    pub(crate) fn into_entry<L: Ledger>(
        self,
        alloc: Global,
        steps: &mut Steps<L>,
        variables: u32,
    ) -> Result<Entry, AllocError>
        requires { IsPartWithin variables self }
        ensures entry { IfOk result (λ e. IsEntryOf self e) }
        ensures above { steps.old ≤ steps.new }
        ensures below { steps.new ≤ steps.old + (variables + 1) }
    {
        match self {
            PartialForm::Number(number) => Ok(Entry::Linear(Form::of_constant(alloc, number))),
            PartialForm::Variable(variable, factor) => {
                let form = form_of_multiple(alloc, variable, factor)?;
                Ok(Entry::Linear(form))
            }
            PartialForm::Linear(form) => Ok(Entry::Linear(form)),
            PartialForm::Opposite(form) => {
                let opposite = opposite_form(alloc, &form, steps, variables)?;
                Ok(Entry::Linear(opposite))
            }
            PartialForm::Broken(fault) => Ok(Entry::Broken(fault)),
        }
    }
}
