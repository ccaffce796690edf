// Trees folded to forms, from the last node to the first.
ghost use Rattle.std.specs.Prelude.{◌≡◌, ℕ, ◌+◌, ◌++◌, ◌*◌, ◌<◌, ◌≤◌, List, [], ◌∷◌, IfOk, OnOk, length, reverse, take, true, vec_len};
ghost use Rattle.nl_model.specs.Trees.{Takes, rule_of, Known, Tree, Trees, defined, number, operator, variable};
ghost use Rattle.linear_program.specs.Lines.{Point};
ghost use Rattle.nl_model.specs.Nodes.{AreNodesFormed, trees_of, with_node};
ghost use Rattle.linear_fold.specs.InsideFolds.{AreKnown, AreNodesWithin, AreOperandsOf, ArePartsFolded, ArePartsWithin, AreSlotsWithin, IsEntryWithin, IsFolded, IsGiven, IsPartFolded, IsPartWithin, NodeFinds};
ghost use Rattle.linear_fold.specs.InsideOperates.{AreSameParts, IsLeft, IsPad};

use crate::entries::Entry;
use crate::operate::{self, Outcome};
use crate::parts::{PartialForm, first_fault, operands_of, take_last, unit_of};
use code_tables::{OpClass, class_of};
use exact_numbers::{Dec, Frac};
use linear_program::{Form, Pad};
use nl_model::{Fault, Node, Reason};
use std::alloc::{AllocError, Global};
use text_base::{Ledger, Steps};

// A stack has room for so many parts at first.
const MOST_AT_FIRST: usize = 16;

// So many terms are always few.
const FEW: usize = 8;

// So many are never few.
const MOST_LISTED: usize = 0x1_0000;

/// Where sums are added up: on the pad, which is there where no part of the stack is open. The place is
/// that of the part that was opened last.
#[derive(Drop)]
pub(crate) struct Room {
    pub(crate) pad: Option<Pad>,
    pub(crate) open_at: usize,
}

#[tactic(auto, using(crate::proofs::Folding::number_within))]
fn number_part(value: Dec, place: usize) -> PartialForm
    ensures part { (n : ℕ) (known : Point → Known)
        → IsPartFolded known n place (number value.m value.e) result }
    ensures within { (n : ℕ) → IsPartWithin n result }
{
    match Frac::of_dec(value) {
        Some(constant) => PartialForm::Number(constant),
        None => PartialForm::Broken(Fault {
            place,
            reason: Reason::TooWide,
        }),
    }
}

fn variable_part(index: u32) -> PartialForm
    ensures part { (n i : ℕ) (known : Point → Known) → index < n
        → IsPartFolded known n i (variable index) result }
    ensures within { (n : ℕ) → index < n → IsPartWithin n result }
{
    PartialForm::Variable(index, Frac::one())
}

// A copy of the form of a defined variable.
fn defined_part(
    alloc: Global,
    slots: &[Option<Form>],
    index: u32,
    variables: u32,
) -> Result<PartialForm, AllocError>
    requires given { IsGiven variables slots.now index }
    requires slots { AreSlotsWithin variables slots.now }
    ensures part { IfOk result
        (λ p. (i : ℕ) (known : Point → Known) → AreKnown variables known slots.now
        → IsPartFolded known variables i (defined index) p) }
    ensures within { IfOk result (λ p. IsPartWithin variables p) }
{
    match &slots[(index - variables) as usize] {
        Some(form) => {
            let copy = form.copied(alloc)?;
            Ok(PartialForm::Linear(copy))
        }
        None => unreachable!(),
    }
}

// Whether so many terms are few beside those of an open part: to list them takes no more than to close
// it.
fn are_few(count: usize, open: usize) -> bool {
    count <= FEW || (count < MOST_LISTED && count * count <= open)
}

// Whether the operands that come before an open part of the sum, or beside one below it, are too many
// to be listed.
fn are_many(stack: &[PartialForm], rest: usize, open_at: usize) -> bool
    requires { open_at < length stack.now }
{
    let first = rest.max(open_at + 1);
    if open_at >= rest && stack.len() - first <= 1 {
        return false;
    }
    let mut count: usize = 0;
    for place in first..stack.len() {
        count = count.saturating_add(stack[place].room());
    }
    !are_few(count, stack[open_at].room())
}

// Whether the open part of a stack is to be closed before an operator, whose operands stand from a place
// on. A sum takes it, or is added up without it; a negation and a product by 1 or -1 leave it as it is.
fn is_in_the_way(class: OpClass, stack: &[PartialForm], rest: usize, room: &Room) -> bool
    ensures { result ≡ true → room.now.open_at < length stack.now }
{
    if room.pad.is_some() || room.open_at >= stack.len() {
        return false;
    }
    match class {
        OpClass::Sum => are_many(stack, rest, room.open_at),
        OpClass::Difference => are_many(stack, rest, room.open_at),
        OpClass::List => are_many(stack, rest, room.open_at),
        OpClass::Negation => false,
        OpClass::Product => room.open_at >= rest && unit_of(stack).is_none(),
        _ => room.open_at >= rest,
    }
}

// Closes the open part of a stack, where an operator wants it.
fn make_way(
    alloc: Global,
    class: OpClass,
    stack: &mut Vec<PartialForm>,
    rest: usize,
    room: &mut Room,
    variables: u32,
) -> Result<(), AllocError>
    requires parts { ArePartsWithin variables (reverse stack.old.items) }
    requires pad { IsPad variables room.old.pad }
    ensures same { OnOk result
        (AreSameParts (reverse stack.old.items) (reverse stack.new.items)) }
    ensures pad { OnOk result (IsPad variables room.new.pad) }
{
    if !is_in_the_way(class, stack, rest, room) {
        return Ok(());
    }
    let place = room.open_at;
    stack[place].close(alloc, &mut room.pad, variables)
}

// Lets go the parts of a stack from a place on, and closes those that are open.
fn let_go(
    alloc: Global,
    stack: &mut Vec<PartialForm>,
    rest: usize,
    pad: &mut Option<Pad>,
    variables: u32,
) -> Result<(), AllocError>
    requires rest { rest ≤ vec_len stack.old }
    requires parts { ArePartsWithin variables (reverse stack.old.items) }
    requires pad { IsPad variables pad.old }
    ensures front { OnOk result (stack.new.items ≡ take rest stack.old.items) }
    ensures pad { OnOk result (IsPad variables pad.new) }
{
    let count = stack.len() - rest;
    for _ in 0..count {
        let mut part = take_last(stack);
        part.close(alloc, pad, variables)?;
    }
    Ok(())
}

// What an operator comes to, whose operands stand at the end of a stack, the first of them last. Some
// of them may be taken.
fn operation_part<L: Ledger>(
    alloc: Global,
    class: OpClass,
    stack: &mut Vec<PartialForm>,
    count: usize,
    place: usize,
    pad: &mut Option<Pad>,
    steps: &mut Steps<L>,
    variables: u32,
) -> Result<PartialForm, AllocError>
    requires rule { Takes (rule_of class) count }
    requires count { count ≤ vec_len stack.old }
    requires within { ArePartsWithin variables (take count (reverse stack.old.items)) }
    requires pad { IsPad variables pad.old }
    ensures part { IfOk result
        (λ p. (known : Point → Known) (ts : Trees)
        → AreOperandsOf known variables (place + 1) ts (take count (reverse stack.old.items))
        → IsPartFolded known variables place (operator class ts) p) }
    ensures within { IfOk result (λ p. IsPartWithin variables p) }
    ensures left { OnOk result (IsLeft count stack.old.items stack.new.items) }
    ensures pad { OnOk result (IsPad variables pad.new) }
    ensures above { steps.old ≤ steps.new }
    ensures below { steps.new ≤ steps.old + 2 * (variables + 1) * count }
{
    if let Some(fault) = first_fault(operands_of(stack, count)) {
        return Ok(PartialForm::Broken(fault));
    }
    match operate::operate(alloc, class, stack, count, pad, steps, variables) {
        Ok(Outcome::Linear(part)) => Ok(part),
        Ok(Outcome::Refused(reason)) => Ok(PartialForm::Broken(Fault { place, reason })),
        Err(error) => Err(error),
    }
}

// The part of a node; an operator takes its operands from the stack, whose top is at its end.
fn part_of<L: Ledger>(
    alloc: Global,
    node: Node,
    place: usize,
    stack: &mut Vec<PartialForm>,
    slots: &[Option<Form>],
    room: &mut Room,
    steps: &mut Steps<L>,
    variables: u32,
) -> Result<PartialForm, AllocError>
    requires finds { NodeFinds variables slots.now (vec_len stack.old) node }
    requires pad { IsPad variables room.old.pad }
    requires slots { AreSlotsWithin variables slots.now }
    requires parts { ArePartsWithin variables (reverse stack.old.items) }
    ensures pad { OnOk result (IsPad variables room.new.pad) }
    ensures within { IfOk result
        (λ p. ArePartsWithin variables (p ∷ reverse stack.new.items)) }
    ensures size { IfOk result
        (λ p. (trees : List Tree) → length trees ≡ length stack.old.items
        → length (with_node node trees) ≡ 1 + length stack.new.items) }
    ensures part { IfOk result
        (λ p. (known : Point → Known) (trees : List Tree) → AreKnown variables known slots.now
        → ArePartsFolded known variables (place + 1) trees (reverse stack.old.items)
        → ArePartsFolded known variables place (with_node node trees)
        (p ∷ reverse stack.new.items)) }
    ensures above { steps.old ≤ steps.new }
    ensures below { steps.new ≤ steps.old + 2 * (variables + 1) * vec_len stack.old }
    ensures used { OnOk result (steps.new + 2 * (variables + 1) * vec_len stack.new
        ≤ steps.old + 2 * (variables + 1) * vec_len stack.old) }
{
    match node {
        Node::Num(value) => Ok(number_part(value, place)),
        Node::Var(index) => Ok(variable_part(index)),
        Node::Defined(index) => defined_part(alloc, slots, index, variables),
        Node::Op(opcode, count) => {
            let count = count as usize;
            let rest = stack.len() - count;
            let class = class_of(opcode);
            make_way(alloc, class, stack, rest, room, variables)?;
            let pad = &mut room.pad;
            let part = operation_part(alloc, class, stack, count, place, pad, steps, variables)?;
            let_go(alloc, stack, rest, pad, variables)?;
            Ok(part)
        }
    }
}

// Puts a part on a stack, and keeps its place where it is open.
fn put_part(
    stack: &mut Vec<PartialForm>,
    part: PartialForm,
    room: &mut Room,
) -> Result<(), AllocError>
    ensures items { OnOk result (stack.new.items ≡ stack.old.items ++ part ∷ []) }
    ensures pad { room.new.pad ≡ room.old.pad }
{
    if part.is_open() {
        room.open_at = stack.len();
    }
    stack.push(part)?;
    Ok(())
}

/// Folds the tree that nodes in prefix form are: its form, or its first fault.
pub(crate) fn fold_tree<L: Ledger>(
    alloc: Global,
    nodes: &[Node],
    slots: &[Option<Form>],
    room: &mut Room,
    steps: &mut Steps<L>,
    variables: u32,
) -> Result<Entry, AllocError>
    requires formed { AreNodesFormed nodes.now }
    requires one { length (trees_of nodes.now) ≡ 1 }
    requires within { AreNodesWithin variables slots.now nodes.now }
    requires slots { AreSlotsWithin variables slots.now }
    requires pad { IsPad variables room.old.pad }
    ensures pad { OnOk result (IsPad variables room.new.pad) }
    ensures entry { IfOk result
        (λ e. (known : Point → Known) (tree : Tree) → AreKnown variables known slots.now
        → trees_of nodes.now ≡ tree ∷ [] → IsFolded known variables 0 tree e) }
    ensures within { IfOk result (λ e. IsEntryWithin variables e) }
    ensures above { steps.old ≤ steps.new }
    ensures below { steps.new + (variables + 1)
        ≤ steps.old + 2 * (variables + 1) * length nodes.now }
{
    let mut stack: Vec<PartialForm> = Vec::with_capacity(alloc, nodes.len().min(MOST_AT_FIRST))?;
    for place in (0..nodes.len()).rev() {
        let part = part_of(
            alloc,
            nodes[place],
            place,
            &mut stack,
            slots,
            room,
            steps,
            variables,
        )?;
        put_part(&mut stack, part, room)?;
    }
    let mut part = take_last(&mut stack);
    part.close(alloc, &mut room.pad, variables)?;
    part.into_entry(alloc, steps, variables)
}
