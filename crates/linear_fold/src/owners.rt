// Owners folded one by one: what has a tree and terms.
ghost use Rattle.std.specs.Prelude.{◌≡◌, ◌+◌, ◌*◌, ◌^◌, ◌<◌, ◌≤◌, [], ◌∷◌, false, IfOk, IfErr, IfSome, None, OnOk, length, option_copied};
ghost use Rattle.text_base.specs.Stopped.{IfFault};
ghost use Rattle.nl_model.specs.FilePlaces.{terms_at, tree_at};
ghost use Rattle.nl_model.specs.Rules.{IsFile};
ghost use Rattle.nl_model.specs.declared.at.At.TheVariants.{Head};
ghost use Rattle.nl_model.specs.declared.at.Owner.TheVariants.{Con};
ghost use Rattle.nl_model.specs.FoldFaults.{most_coefficients};
ghost use Rattle.linear_fold.specs.declared.fold_fault.FoldFault.TheVariants.{FoldTooLarge};
ghost use Rattle.linear_fold.specs.FoldedFaults.{HasFaultPlace, fault_for, place_after};
ghost use Rattle.linear_program.specs.Coefs.{AreAscending};
ghost use Rattle.linear_program.specs.Forms.{form_terms};
ghost use Rattle.linear_fold.specs.InsideHeldBodies.{IsBodyOf, IsHeldAt, body_at};
ghost use Rattle.linear_fold.specs.InsideOwnerFolds.{AreOwnersFolded, HasFolded, HasOwner, IsFormOf, definitions_before, owned_at, owner_size};

use crate::entries::{Entry, Held};
use crate::expression::{fold_expression, node_count};
use crate::fold::Room;
use crate::fold_fault::FoldFault;
use crate::held::held_row;
use linear_program::{Form, Terms};
use nl_model::{At, Expr, Fault, NlFile, Owner, Reason};
use std::alloc::Global;
use text_base::{Ledger, Steps, Stop};

// The most coefficients of a folded file.
const MOST_COEFFICIENTS: usize = 0x80_0000;

/// What folding a file keeps: the forms of defined variables, room for sums, and the coefficients so
/// far.
#[derive(Drop)]
pub(crate) struct Folder {
    pub(crate) alloc: Global,
    pub(crate) slots: Vec<Option<Form>>,
    pub(crate) room: Room,
    pub(crate) count: usize,
    pub(crate) variables: u32,
}

// The tree of an owner, where one was given, and its terms.
fn expression_of(file: &NlFile, owner: Owner) -> (Option<&Expr>, &Terms)
    requires { HasOwner file.now owner }
    ensures tree { option_copied result.0 ≡ tree_at file.now owner }
    ensures terms { result.1.now ≡ terms_at file.now owner }
{
    match owner {
        Owner::Def(index) => {
            let definition = &file.defs()[index as usize];
            (Some(&definition.tree), &definition.terms)
        }
        Owner::Con(con) => (file.body(con), file.terms(con)),
        Owner::Obj(k) => (Some(file.objective(k)), file.slopes(k)),
    }
}

// The place with this number, of an owner with so many nodes.
fn place_of(owner: Owner, nodes: usize, number: usize) -> At
    requires { number < 2 ^ 32 }
    ensures { result ≡ place_after nodes owner number }
{
    if number < nodes {
        At::Node(owner, number as u32)
    } else {
        At::Term(owner, (number - nodes) as u32)
    }
}

// The fault of an owner with so many nodes.
fn fault_of(owner: Owner, nodes: usize, fault: Fault) -> FoldFault
    requires { fault.place < 2 ^ 32 }
    ensures { result ≡ fault_for fault.reason (place_after nodes owner fault.place) }
{
    let at = place_of(owner, nodes, fault.place);
    match fault.reason {
        Reason::Nonlinear => FoldFault::Nonlinear(at),
        Reason::DivideByZero => FoldFault::DivideByZero(at),
        Reason::TooWide => FoldFault::TooWide(at),
        Reason::RefusedPower => FoldFault::RefusedPower(at),
    }
}

// The coefficients with so many more of an owner, where they are not too many.
fn count_more(count: usize, owner: Owner, more: usize) -> Result<usize, FoldFault>
    requires count { count ≤ most_coefficients }
    requires more { more < 2 ^ 63 }
    ensures count { IfOk result (λ total. total ≡ count + more) }
    ensures few { IfOk result (λ total. total ≤ most_coefficients) }
    ensures fault { IfErr result (λ fault. fault ≡ FoldTooLarge (Head owner)) }
    ensures many { IfErr result (λ fault. most_coefficients < count + more) }
{
    let total = count + more;
    if total > MOST_COEFFICIENTS {
        return Err(FoldFault::FoldTooLarge(At::Head(owner)));
    }
    Ok(total)
}

// The coefficients with those of the form of an owner, where they are not too many.
fn count_with(count: usize, owner: Owner, form: &Form) -> Result<usize, FoldFault>
    requires { count ≤ most_coefficients }
    ensures count { IfOk result (λ total. total ≡ count + length (form_terms form.now)) }
    ensures few { IfOk result (λ total. total ≤ most_coefficients) }
    ensures fault { IfErr result (λ fault. fault ≡ FoldTooLarge (Head owner)) }
    ensures many { IfErr result
        (λ fault. most_coefficients < count + length (form_terms form.now)) }
    ensures ascending { AreAscending 0 (form_terms form.now) }
{
    count_more(count, owner, form.len())
}

/// Folds an owner: its form, or its fault.
pub(crate) fn fold_owner<L: Ledger>(
    file: &NlFile,
    owner: Owner,
    folder: &mut Folder,
    steps: &mut Steps<L>,
) -> Result<Form, Stop<FoldFault>>
    requires file { IsFile file.now }
    requires owner { HasOwner file.now owner }
    requires folder { HasFolded file.now (definitions_before file.now owner) folder.old }
    ensures folder { OnOk result
        (HasFolded file.now (definitions_before file.now owner) folder.new) }
    ensures form { IfOk result (λ form. IsFormOf file.now owner form) }
    ensures count { IfOk result
        (λ form. folder.new.count ≡ folder.old.count + length (form_terms form)) }
    ensures folded { AreOwnersFolded file.now folder.old.count (owned_at file.now owner ∷ [])
        folder.new.count result }
    ensures place { IfErr result (λ stop. IfFault stop (λ fault. HasFaultPlace file.now fault)) }
    ensures above { steps.old ≤ steps.new }
    ensures below { steps.new
        ≤ steps.old + 2 * (file.now.counts.n_var + 1) * owner_size file.now owner }
{
    let (tree, terms) = expression_of(file, owner);
    let entry = fold_expression(
        folder.alloc,
        tree,
        terms,
        &folder.slots,
        &mut folder.room,
        steps,
        folder.variables,
    )?;
    match entry {
        Entry::Broken(fault) => Err(Stop::Fault(fault_of(owner, node_count(tree), fault))),
        Entry::Linear(form) => match count_with(folder.count, owner, &form) {
            Ok(count) => {
                folder.count = count;
                Ok(form)
            }
            Err(fault) => Err(Stop::Fault(fault)),
        },
    }
}

/// The form of a body, whose terms may still be those of the file.
#[derive(Drop)]
pub(crate) struct Body {
    pub(crate) form: Form,
    pub(crate) held: bool,
}

// What the row of a constraint comes to where it is held; none of others, and where none is to be.
fn held_at<L: Ledger>(file: &NlFile, con: u32, hold: bool, steps: &mut Steps<L>) -> Option<Held>
    requires { con < file.now.counts.n_con }
    ensures held { IfSome result (IsHeldAt file.now con) }
    ensures hold { hold ≡ false → result ≡ None }
    ensures none { result ≡ None → steps.new ≡ steps.old }
    ensures above { steps.old ≤ steps.new }
    ensures below { steps.new
        ≤ steps.old + 2 * (file.now.counts.n_var + 1) * owner_size file.now (Con con) }
{
    if !hold {
        return None;
    }
    let (tree, terms) = expression_of(file, Owner::Con(con));
    held_row(tree, terms.items(), steps)
}

// The form of a body that is held, or the fault of its row.
fn held_body(
    file: &NlFile,
    con: u32,
    held: Held,
    folder: &mut Folder,
) -> Result<Body, Stop<FoldFault>>
    requires file { IsFile file.now }
    requires con { con < file.now.counts.n_con }
    requires folder { HasFolded file.now file.now.definitions folder.old }
    requires held { IsHeldAt file.now con held }
    ensures folder { OnOk result (HasFolded file.now file.now.definitions folder.new) }
    ensures form { IfOk result (λ b. IsBodyOf file.now con b.held b.form) }
    ensures count { IfOk result
        (λ b. folder.new.count
        ≡ folder.old.count + length (form_terms (body_at file.now con b.held b.form))) }
    ensures folded { AreOwnersFolded file.now folder.old.count (owned_at file.now (Con con) ∷ [])
        folder.new.count result }
    ensures place { IfErr result (λ stop. IfFault stop (λ fault. HasFaultPlace file.now fault)) }
{
    let owner = Owner::Con(con);
    let (tree, terms) = expression_of(file, owner);
    match held {
        Held::Broken(fault) => Err(Stop::Fault(fault_of(owner, node_count(tree), fault))),
        Held::Number(number) => match count_more(folder.count, owner, terms.len()) {
            Ok(count) => {
                folder.count = count;
                let form = Form::of_constant(folder.alloc, number);
                Ok(Body { form, held: true })
            }
            Err(fault) => Err(Stop::Fault(fault)),
        },
    }
}

/// Folds a body: its form, or its fault. Where bodies are to be held, it is one whose terms are
/// handed on later.
pub(crate) fn fold_body<L: Ledger>(
    file: &NlFile,
    con: u32,
    hold: bool,
    folder: &mut Folder,
    steps: &mut Steps<L>,
) -> Result<Body, Stop<FoldFault>>
    requires file { IsFile file.now }
    requires con { con < file.now.counts.n_con }
    requires folder { HasFolded file.now file.now.definitions folder.old }
    ensures folder { OnOk result (HasFolded file.now file.now.definitions folder.new) }
    ensures form { IfOk result (λ b. IsBodyOf file.now con b.held b.form) }
    ensures hold { hold ≡ false → IfOk result (λ b. b.held ≡ false) }
    ensures count { IfOk result
        (λ b. folder.new.count
        ≡ folder.old.count + length (form_terms (body_at file.now con b.held b.form))) }
    ensures folded { AreOwnersFolded file.now folder.old.count (owned_at file.now (Con con) ∷ [])
        folder.new.count result }
    ensures place { IfErr result (λ stop. IfFault stop (λ fault. HasFaultPlace file.now fault)) }
    ensures above { steps.old ≤ steps.new }
    ensures below { steps.new
        ≤ steps.old + 2 * (file.now.counts.n_var + 1) * owner_size file.now (Con con) }
{
    match held_at(file, con, hold, steps) {
        Some(held) => held_body(file, con, held, folder),
        None => {
            let form = fold_owner(file, Owner::Con(con), folder, steps)?;
            Ok(Body { form, held: false })
        }
    }
}
