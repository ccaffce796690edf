// Sums of parts. A part that is open, or else the pad, takes the others, so that a sum within a sum
// is added up in its place.
ghost use Rattle.std.specs.Prelude.{◌≡◌, Bool, true, ◌+◌, ◌*◌, ◌<◌, ◌≤◌, ℕ, IfOk, OnOk, reverse, take, vec_len};
ghost use Rattle.code_tables.specs.declared.class.OpClass.TheVariants.{Difference, List, Negation, Product};
ghost use Rattle.exact_numbers.specs.Values.{frac_value};
ghost use Rattle.linear_program.specs.Lines.{Line, line_sum, running_line, running_sums_fit, sums_fit};
ghost use Rattle.linear_program.specs.Forms.{AddsScaled, form_line, is_open, pad_places};
ghost use Rattle.linear_fold.specs.InsideOperates.{AreOperands, AreUnbroken, ComesTo, HasPlaces, IsForm, IsLeft, IsOperand, IsPad, IsSameSum, IsSound, IsUnbroken, IsUnit, Operates, SumsTo, lines_of_parts, multiple_line, part_line};

use crate::operate::Outcome;
use crate::parts::{PartialForm, form_of_multiple, take_last};
use exact_numbers::Frac;
use linear_program::{Form, Pad, Wide};
use nl_model::Reason;
use std::alloc::{AllocError, Global};
use std::mem;
use text_base::{Ledger, Steps, Stop};

// Adds k times a factor times a variable to an open form; a step for the constant, which is 0, and
// for the term.
fn add_multiple<L: Ledger>(
    form: &mut Form,
    variable: u32,
    factor: Frac,
    k: Frac,
    steps: &mut Steps<L>,
) -> Result<(), Stop<Wide>>
    requires open { is_open form.old ≡ true }
    requires below { variable < pad_places form.old }
    ensures sums { AddsScaled (form_line form.old) (frac_value k)
        (multiple_line variable (frac_value factor)) (form_line form.new) result }
    ensures open { is_open form.new ≡ true }
    ensures places { pad_places form.new ≡ pad_places form.old }
    ensures counted { steps.new ≡ steps.old + 2 }
{
    steps.tick();
    steps.tick();
    let Some(scaled) = k.mul(factor) else {
        return Err(Stop::Fault(Wide));
    };
    form.add_term(variable, scaled)
}

// The same, to a form that may be closed.
fn add_variable<L: Ledger>(
    alloc: Global,
    form: &mut Form,
    variable: u32,
    factor: Frac,
    k: Frac,
    steps: &mut Steps<L>,
) -> Result<(), Stop<Wide>>
    requires { is_open form.old ≡ true → variable < pad_places form.old }
    ensures sums { AddsScaled (form_line form.old) (frac_value k)
        (multiple_line variable (frac_value factor)) (form_line form.new) result }
    ensures open { is_open form.new ≡ is_open form.old }
    ensures places { pad_places form.new ≡ pad_places form.old }
    ensures above { steps.old ≤ steps.new }
    ensures below { steps.new ≤ steps.old + 2 }
{
    if form.is_open() {
        return add_multiple(form, variable, factor, k, steps);
    }
    let multiple = form_of_multiple(alloc, variable, factor)?;
    form.add_scaled(&multiple, k, steps)
}

// Adds k times an operand to a form.
fn add_part<L: Ledger>(
    alloc: Global,
    form: &mut Form,
    part: &PartialForm,
    k: Frac,
    steps: &mut Steps<L>,
    variables: u32,
) -> Result<(), Stop<Wide>>
    requires form { HasPlaces variables form.old }
    requires part { IsOperand variables part.now }
    ensures sums { AddsScaled (form_line form.old) (frac_value k) (part_line part.now)
        (form_line form.new) result }
    ensures form { HasPlaces variables form.new }
    ensures above { steps.old ≤ steps.new }
    ensures below { steps.new ≤ steps.old + (variables + 1) }
{
    match part {
        PartialForm::Number(number) => form.add_scaled(
            &Form::of_constant(alloc, *number),
            k,
            steps,
        ),
        PartialForm::Variable(variable, factor) => {
            add_variable(alloc, form, *variable, *factor, k, steps)
        }
        PartialForm::Linear(other) => form.add_scaled(other, k, steps),
        PartialForm::Opposite(other) => form.add_scaled(other, k.neg(), steps),
        PartialForm::Broken(_) => unreachable!(),
    }
}

// The form of an operand, on an empty pad.
fn on_pad<L: Ledger>(
    alloc: Global,
    part: &PartialForm,
    empty: Pad,
    steps: &mut Steps<L>,
    variables: u32,
) -> Result<Form, AllocError>
    requires part { IsOperand variables part.now }
    requires pad { empty ≡ variables }
    ensures line { IfOk result (λ f. form_line f ≡ part_line part.now) }
    ensures places { IfOk result (λ f. HasPlaces variables f) }
    ensures above { steps.old ≤ steps.new }
    ensures below { steps.new ≤ steps.old + (variables + 1) }
{
    let mut form = Form::on_pad(empty);
    match add_part(alloc, &mut form, part, Frac::one(), steps, variables) {
        Ok(()) => Ok(form),
        Err(Stop::Fault(_)) => unreachable!(),
        Err(Stop::Memory) => Err(AllocError),
    }
}

// Makes a form of an operand, where it is none.
fn as_form(alloc: Global, part: &mut PartialForm) -> Result<(), AllocError>
    requires { IsUnbroken part.old }
    ensures line { OnOk result (part_line part.new ≡ part_line part.old) }
    ensures form { OnOk result (IsForm part.new) }
    ensures sound { (n : ℕ) → IsSound n part.old → IsSound n part.new }
{
    match part {
        PartialForm::Number(number) => {
            *part = PartialForm::Linear(Form::of_constant(alloc, *number));
            Ok(())
        }
        PartialForm::Variable(variable, factor) => {
            let form = form_of_multiple(alloc, *variable, *factor)?;
            *part = PartialForm::Linear(form);
            Ok(())
        }
        _ => Ok(()),
    }
}

// Makes a form of an operand to which others can be added: an open one, where the pad is free.
fn start<L: Ledger>(
    alloc: Global,
    part: &mut PartialForm,
    pad: &mut Option<Pad>,
    steps: &mut Steps<L>,
    variables: u32,
) -> Result<(), AllocError>
    requires part { IsOperand variables part.old }
    requires pad { IsPad variables pad.old }
    ensures line { OnOk result (part_line part.new ≡ part_line part.old) }
    ensures form { OnOk result (IsForm part.new) }
    ensures sound { IsSound variables part.new }
    ensures pad { IsPad variables pad.new }
    ensures above { steps.old ≤ steps.new }
    ensures below { steps.new ≤ steps.old + (variables + 1) }
{
    if part.is_open() {
        return Ok(());
    }
    match mem::replace(pad, None) {
        Some(empty) => {
            let form = on_pad(alloc, part, empty, steps, variables)?;
            *part = PartialForm::Linear(form);
            Ok(())
        }
        None => as_form(alloc, part),
    }
}

// Makes two operands ready to be added up: the first is a form to which the second can be added. They
// change places where the second is open.
fn make_ready<L: Ledger>(
    alloc: Global,
    total: &mut PartialForm,
    part: &mut PartialForm,
    pad: &mut Option<Pad>,
    steps: &mut Steps<L>,
    variables: u32,
) -> Result<(), AllocError>
    requires first { IsOperand variables total.old }
    requires second { IsOperand variables part.old }
    requires pad { IsPad variables pad.old }
    ensures same { OnOk result (IsSameSum variables (part_line total.old) (part_line part.old)
        (part_line total.new) (part_line part.new)) }
    ensures form { OnOk result (IsForm total.new) }
    ensures sound { IsSound variables total.new }
    ensures first { OnOk result (IsOperand variables total.new) }
    ensures second { OnOk result (IsOperand variables part.new) }
    ensures pad { IsPad variables pad.new }
    ensures above { steps.old ≤ steps.new }
    ensures below { steps.new ≤ steps.old + (variables + 1) }
{
    if part.is_open() {
        mem::swap(total, part);
        return Ok(());
    }
    start(alloc, total, pad, steps, variables)
}

// Adds an operand to one that is a form.
fn add_onto<L: Ledger>(
    alloc: Global,
    total: &mut PartialForm,
    part: &PartialForm,
    steps: &mut Steps<L>,
    variables: u32,
) -> Result<(), Stop<Wide>>
    requires form { IsForm total.old }
    requires first { IsOperand variables total.old }
    requires second { IsOperand variables part.now }
    ensures sums { SumsTo (sums_fit variables (part_line total.old) (part_line part.now))
        (line_sum (part_line total.old) (part_line part.now)) (part_line total.new) result }
    ensures sound { IsSound variables total.new }
    ensures above { steps.old ≤ steps.new }
    ensures below { steps.new ≤ steps.old + (variables + 1) }
{
    match total {
        PartialForm::Linear(form) => add_part(alloc, form, part, Frac::one(), steps, variables),
        PartialForm::Opposite(form) => add_part(
            alloc,
            form,
            part,
            Frac::one().neg(),
            steps,
            variables,
        ),
        _ => unreachable!(),
    }
}

// Adds an operand to another.
fn add<L: Ledger>(
    alloc: Global,
    total: &mut PartialForm,
    part: &mut PartialForm,
    pad: &mut Option<Pad>,
    steps: &mut Steps<L>,
    variables: u32,
) -> Result<(), Stop<Wide>>
    requires first { IsOperand variables total.old }
    requires second { IsOperand variables part.old }
    requires pad { IsPad variables pad.old }
    ensures sums { SumsTo (sums_fit variables (part_line total.old) (part_line part.old))
        (line_sum (part_line total.old) (part_line part.old)) (part_line total.new) result }
    ensures sound { IsSound variables total.new }
    ensures pad { IsPad variables pad.new }
    ensures above { steps.old ≤ steps.new }
    ensures below { steps.new ≤ steps.old + 2 * (variables + 1) }
{
    make_ready(alloc, total, part, pad, steps, variables)?;
    add_onto(alloc, total, part, steps, variables)
}

// Adds so many operands, which stand at the end of a stack, to another; the first of them is last.
fn add_all<L: Ledger>(
    alloc: Global,
    total: &mut PartialForm,
    stack: &mut Vec<PartialForm>,
    count: usize,
    pad: &mut Option<Pad>,
    steps: &mut Steps<L>,
    variables: u32,
) -> Result<(), Stop<Wide>>
    requires total { IsOperand variables total.old }
    requires count { count ≤ vec_len stack.old }
    requires within { AreOperands variables (take count (reverse stack.old.items)) }
    requires pad { IsPad variables pad.old }
    ensures sums { SumsTo
        (running_sums_fit variables (part_line total.old)
        (lines_of_parts (take count (reverse stack.old.items))))
        (running_line (part_line total.old)
        (lines_of_parts (take count (reverse stack.old.items)))) (part_line total.new) result }
    ensures sound { IsSound variables total.new }
    ensures left { IsLeft count stack.old.items stack.new.items }
    ensures pad { IsPad variables pad.new }
    ensures above { steps.old ≤ steps.new }
    ensures below { steps.new ≤ steps.old + 2 * (variables + 1) * count }
{
    for _ in 0..count {
        let mut part = take_last(stack);
        match add(alloc, total, &mut part, pad, steps, variables) {
            Ok(()) => {}
            Err(stop) => return Err(stop),
        }
    }
    Ok(())
}

// What operands came to; the pad is free again where they are too wide.
fn outcome_of(
    alloc: Global,
    total: PartialForm,
    added: Result<(), Stop<Wide>>,
    pad: &mut Option<Pad>,
    variables: u32,
) -> Result<Outcome, AllocError>
    requires sound { IsSound variables total }
    requires pad { IsPad variables pad.old }
    ensures outcome { IfOk result
        (λ o. (fit : Bool) (sum : Line) → SumsTo fit sum (part_line total) added
        → ComesTo variables fit sum o) }
    ensures pad { OnOk result (IsPad variables pad.new) }
{
    match added {
        Ok(()) => Ok(Outcome::Linear(total)),
        Err(Stop::Fault(_)) => {
            let mut wide = total;
            wide.close(alloc, pad, variables)?;
            Ok(Outcome::Refused(Reason::TooWide))
        }
        Err(Stop::Memory) => Err(AllocError),
    }
}

/// The running sum of so many operands from the left, which are taken from the end of a stack; the
/// first of them is last.
pub(crate) fn sum_of_all<L: Ledger>(
    alloc: Global,
    stack: &mut Vec<PartialForm>,
    count: usize,
    pad: &mut Option<Pad>,
    steps: &mut Steps<L>,
    variables: u32,
) -> Result<Outcome, AllocError>
    requires some { 1 ≤ count }
    requires count { count ≤ vec_len stack.old }
    requires within { AreOperands variables (take count (reverse stack.old.items)) }
    requires pad { IsPad variables pad.old }
    ensures outcome { IfOk result
        (λ o. Operates variables List
        (lines_of_parts (take count (reverse stack.old.items))) o) }
    ensures left { IsLeft count stack.old.items stack.new.items }
    ensures pad { OnOk result (IsPad variables pad.new) }
    ensures above { steps.old ≤ steps.new }
    ensures below { steps.new ≤ steps.old + 2 * (variables + 1) * count }
{
    let mut total = take_last(stack);
    let added = add_all(alloc, &mut total, stack, count - 1, pad, steps, variables);
    outcome_of(alloc, total, added, pad, variables)
}

/// The difference of two operands, which are taken from the end of a stack; the first is last.
pub(crate) fn difference<L: Ledger>(
    alloc: Global,
    stack: &mut Vec<PartialForm>,
    pad: &mut Option<Pad>,
    steps: &mut Steps<L>,
    variables: u32,
) -> Result<Outcome, AllocError>
    requires count { 2 ≤ vec_len stack.old }
    requires within { AreOperands variables (take 2 (reverse stack.old.items)) }
    requires pad { IsPad variables pad.old }
    ensures outcome { IfOk result
        (λ o. Operates variables Difference
        (lines_of_parts (take 2 (reverse stack.old.items))) o) }
    ensures left { IsLeft 2 stack.old.items stack.new.items }
    ensures pad { OnOk result (IsPad variables pad.new) }
    ensures above { steps.old ≤ steps.new }
    ensures below { steps.new ≤ steps.old + 2 * (variables + 1) * 2 }
{
    let mut total = take_last(stack);
    let part = take_last(stack);
    let mut opposite = part.opposite();
    let added = add(alloc, &mut total, &mut opposite, pad, steps, variables);
    outcome_of(alloc, total, added, pad, variables)
}

/// The opposite of an operand, which is taken from the end of a stack.
pub(crate) fn negated(stack: &mut Vec<PartialForm>) -> Outcome
    requires count { 1 ≤ vec_len stack.old }
    requires unbroken { AreUnbroken (take 1 (reverse stack.old.items)) }
    ensures outcome { (n : ℕ) → AreOperands n (take 1 (reverse stack.old.items))
        → Operates n Negation (lines_of_parts (take 1 (reverse stack.old.items))) result }
    ensures left { IsLeft 1 stack.old.items stack.new.items }
{
    let part = take_last(stack);
    Outcome::Linear(part.opposite())
}

/// The product of an operand by 1, or by -1: both are taken from the end of a stack, the factor being
/// last.
pub(crate) fn by_unit(stack: &mut Vec<PartialForm>, minus: bool) -> Outcome
    requires count { 2 ≤ vec_len stack.old }
    requires unit { IsUnit minus (take 2 (reverse stack.old.items)) }
    requires unbroken { AreUnbroken (take 2 (reverse stack.old.items)) }
    ensures outcome { (n : ℕ) → AreOperands n (take 2 (reverse stack.old.items))
        → Operates n Product (lines_of_parts (take 2 (reverse stack.old.items))) result }
    ensures left { IsLeft 2 stack.old.items stack.new.items }
{
    let _factor = take_last(stack);
    let part = take_last(stack);
    if minus {
        return Outcome::Linear(part.opposite());
    }
    Outcome::Linear(part)
}
