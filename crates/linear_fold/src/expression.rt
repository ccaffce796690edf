// Expressions folded to forms: a tree, which may be missing, and its linear terms.
ghost use Rattle.std.specs.Prelude.{◌≡◌, ℕ, ◌+◌, ◌*◌, ◌^◌, ◌<◌, ◌≤◌, List, [], ◌∷◌, IfOk, IfSome, OnOk, OnErr, length, option_copied};
ghost use Rattle.std.specs.Option.{option_map_or};
ghost use Rattle.text_base.specs.Stopped.{IfFault};
ghost use Rattle.linear_program.specs.Lines.{Line, Point};
ghost use Rattle.nl_model.specs.Trees.{Known, LinearTerm, Tree, tree_size};
ghost use Rattle.nl_model.specs.Nodes.{IsTreeFormed};
ghost use Rattle.nl_model.specs.Rules.{AreTermsBelow};
ghost use Rattle.nl_model.specs.Expressions.{linear_terms, tree_or_zero};
ghost use Rattle.linear_fold.specs.InsideFolds.{AddsTerms, AreKnown, AreSlotsWithin, ComesToTerms, IsEntryWithin, IsExpressionFolded, IsFolded, IsTreeGiven};
ghost use Rattle.linear_program.specs.Forms.{IsWithin, form_line, place_count, sum_line};
ghost use Rattle.linear_fold.specs.InsideOperates.{IsBlank, IsPad};

use crate::ascending::{are_ascending, are_zero, form_in_order, form_of_ascending};
use crate::entries::Entry;
use crate::fold::{Room, fold_tree};
use crate::leaf_sums::leaf_sum;
use exact_numbers::{Dec, Frac};
use linear_program::{Form, Pad, Sum, Terms};
use nl_model::{Expr, Fault, Reason};
use std::alloc::{AllocError, Global};
use std::mem;
use text_base::{Ledger, Steps, Stop};

/// How many nodes an expression has; a missing one is the number 0.
pub(crate) fn node_count(tree: Option<&Expr>) -> usize
    ensures nodes { result ≡ tree_size (tree_or_zero (option_copied tree.entry)) }
    ensures few { result ≤ 2 ^ 22 }
{
    match tree {
        Some(expr) => expr.nodes().len(),
        None => 1,
    }
}

// The entry of a tree; a missing one is the number 0.
fn tree_entry<L: Ledger>(
    alloc: Global,
    tree: Option<&Expr>,
    slots: &[Option<Form>],
    room: &mut Room,
    steps: &mut Steps<L>,
    variables: u32,
) -> Result<Entry, AllocError>
    requires given { IfSome (option_copied tree) (IsTreeGiven variables slots.now) }
    requires slots { AreSlotsWithin variables slots.now }
    requires pad { IsPad variables room.old.pad }
    ensures pad { OnOk result (IsPad variables room.new.pad) }
    ensures entry { IfOk result
        (λ e. (known : Point → Known) → AreKnown variables known slots.now
        → IsFolded known variables 0 (tree_or_zero (option_copied tree.entry)) e) }
    ensures within { IfOk result (λ e. IsEntryWithin variables e) }
    ensures above { steps.old ≤ steps.new }
    ensures below { steps.new
        ≤ steps.old + 2 * (variables + 1) * option_map_or tree_size (option_copied tree.entry) 0 }
{
    match tree {
        Some(expr) => {
            let nodes = expr.nodes();
            match leaf_sum(alloc, nodes, variables, steps)? {
                Some(form) => Ok(Entry::Linear(form)),
                None => fold_tree(alloc, nodes, slots, room, steps, variables),
            }
        }
        None => Ok(Entry::Linear(Form::new(alloc))),
    }
}

// Adds a term, which has a number.
fn add_one(total: &mut Sum, variable: u32, factor: Dec, place: usize) -> Result<(), Stop<Fault>>
    requires { variable < place_count total.old }
    ensures adds { AddsTerms (sum_line total.old) place (linear_terms ((variable, factor) ∷ []))
        (sum_line total.new) result }
    ensures places { place_count total.new ≡ place_count total.old }
{
    let wide = Fault {
        place,
        reason: Reason::TooWide,
    };
    let Some(factor) = Frac::of_dec(factor) else {
        return Err(Stop::Fault(wide));
    };
    match total.add_term(variable, factor) {
        Ok(()) => Ok(()),
        Err(stop) => Err(stop.map_fault(|_| wide)),
    }
}

// Adds terms one by one, of which the first has a number; a step for each.
fn add_linear_terms<L: Ledger>(
    total: &mut Sum,
    terms: &[(u32, Dec)],
    first: usize,
    steps: &mut Steps<L>,
) -> Result<(), Stop<Fault>>
    requires below { AreTermsBelow (place_count total.old) terms.now }
    requires first { first ≤ 2 ^ 22 }
    ensures adds { AddsTerms (sum_line total.old) first (linear_terms terms.now)
        (sum_line total.new) result }
    ensures places { place_count total.new ≡ place_count total.old }
    ensures above { steps.old ≤ steps.new }
    ensures below { steps.new ≤ steps.old + length terms.now }
{
    for (index, term) in terms.iter().enumerate() {
        steps.tick();
        match add_one(total, term.0, term.1, first + index) {
            Ok(()) => {}
            Err(stop) => return Err(stop),
        }
    }
    Ok(())
}

// Adds a form to a sum that is 0.
fn put<L: Ledger>(total: &mut Sum, form: &Form, steps: &mut Steps<L>) -> Result<(), AllocError>
    requires blank { IsBlank total.old }
    requires within { IsWithin (place_count total.old) form.now }
    ensures line { OnOk result (sum_line total.new ≡ form_line form.now) }
    ensures places { place_count total.new ≡ place_count total.old }
    ensures above { steps.old ≤ steps.new }
    ensures below { steps.new ≤ steps.old + (place_count total.old + 1) }
{
    match total.add_scaled(form, Frac::one(), steps) {
        Ok(()) => Ok(()),
        Err(Stop::Fault(_)) => unreachable!(),
        Err(Stop::Memory) => Err(AllocError),
    }
}

// The entry of a sum; its pad is free then.
fn entry_of_sum(
    total: Sum,
    summed: Result<(), Stop<Fault>>,
    room: &mut Room,
) -> Result<Entry, AllocError>
    ensures pad { OnOk result (IfSome room.new.pad (λ p. p ≡ place_count total)) }
    ensures entry { IfOk result
        (λ e. (a : Line) (i : ℕ) (ts : List LinearTerm)
        → AddsTerms a i ts (sum_line total) summed → ComesToTerms a i ts e) }
{
    let (form, pad) = total.close()?;
    room.pad = Some(pad);
    match summed {
        Ok(()) => Ok(Entry::Linear(form)),
        Err(Stop::Fault(fault)) => Ok(Entry::Broken(fault)),
        Err(Stop::Memory) => Err(AllocError),
    }
}

// The sum 0, on the pad.
fn empty_sum(alloc: Global, room: &mut Room, variables: u32) -> Result<Sum, AllocError>
    requires { IsPad variables room.old.pad }
    ensures blank { IfOk result (λ s. IsBlank s) }
    ensures places { IfOk result (λ s. place_count s ≡ variables) }
{
    match mem::replace(&mut room.pad, None) {
        Some(pad) => Ok(Sum::on_pad(pad)),
        None => {
            let pad = Pad::new(alloc, variables)?;
            Ok(Sum::on_pad(pad))
        }
    }
}

// A form with terms, of which the first has a number.
fn with_terms<L: Ledger>(
    alloc: Global,
    form: &Form,
    terms: &[(u32, Dec)],
    first: usize,
    room: &mut Room,
    steps: &mut Steps<L>,
    variables: u32,
) -> Result<Entry, AllocError>
    requires pad { IsPad variables room.old.pad }
    requires within { IsWithin variables form.now }
    requires below { AreTermsBelow variables terms.now }
    requires first { first ≤ 2 ^ 22 }
    ensures pad { OnOk result (IsPad variables room.new.pad) }
    ensures entry { IfOk result
        (λ e. ComesToTerms (form_line form.now) first (linear_terms terms.now) e) }
    ensures above { steps.old ≤ steps.new }
    ensures below { steps.new ≤ steps.old + (variables + 1) + length terms.now }
{
    if form.is_constant() {
        if are_ascending(terms) {
            return form_of_ascending(alloc, form, terms, first, steps);
        }
        if let Some(entry) = form_in_order(alloc, form, terms, first, steps)? {
            return Ok(entry);
        }
    }
    let mut total = empty_sum(alloc, room, variables)?;
    put(&mut total, form, steps)?;
    let summed = add_linear_terms(&mut total, terms, first, steps);
    entry_of_sum(total, summed, room)
}

// The entry of a tree with terms, of which the first has a number.
fn sum_entry<L: Ledger>(
    alloc: Global,
    entry: Entry,
    terms: &[(u32, Dec)],
    first: usize,
    room: &mut Room,
    steps: &mut Steps<L>,
    variables: u32,
) -> Result<Entry, AllocError>
    requires pad { IsPad variables room.old.pad }
    requires within { IsEntryWithin variables entry }
    requires below { AreTermsBelow variables terms.now }
    requires first { first ≤ 2 ^ 22 }
    ensures pad { OnOk result (IsPad variables room.new.pad) }
    ensures entry { IfOk result
        (λ e. (known : Point → Known) (tree : Tree) → tree_size tree ≡ first
        → IsFolded known variables 0 tree entry
        → IsExpressionFolded known variables
        (record { tree = tree; terms = linear_terms terms.now }) e) }
    ensures within { IfOk result (λ e. IsEntryWithin variables e) }
    ensures above { steps.old ≤ steps.new }
    ensures below { steps.new ≤ steps.old + 2 * (variables + 1) * length terms.now }
{
    match entry {
        Entry::Broken(fault) => Ok(Entry::Broken(fault)),
        Entry::Linear(form) => {
            if are_zero(terms) {
                return Ok(Entry::Linear(form));
            }
            with_terms(alloc, &form, terms, first, room, steps, variables)
        }
    }
}

/// Folds a tree, which may be missing, with its terms: its form, or its first fault.
pub(crate) fn fold_expression<L: Ledger>(
    alloc: Global,
    tree: Option<&Expr>,
    terms: &Terms,
    slots: &[Option<Form>],
    room: &mut Room,
    steps: &mut Steps<L>,
    variables: u32,
) -> Result<Entry, AllocError>
    requires given { IfSome (option_copied tree) (IsTreeGiven variables slots.now) }
    requires below { AreTermsBelow variables terms.now }
    requires slots { AreSlotsWithin variables slots.now }
    requires pad { IsPad variables room.old.pad }
    ensures pad { OnOk result (IsPad variables room.new.pad) }
    ensures entry { IfOk result
        (λ e. (known : Point → Known) → AreKnown variables known slots.now
        → IsExpressionFolded known variables
        (record { tree = tree_or_zero (option_copied tree.entry); terms = linear_terms terms.now })
        e) }
    ensures within { IfOk result (λ e. IsEntryWithin variables e) }
    ensures above { steps.old ≤ steps.new }
    ensures below { steps.new
        ≤ steps.old + 2 * (variables + 1)
        * (option_map_or tree_size (option_copied tree.entry) 0 + length terms.now) }
{
    let entry = tree_entry(alloc, tree, slots, room, steps, variables)?;
    let first = node_count(tree);
    sum_entry(alloc, entry, terms.items(), first, room, steps, variables)
}
