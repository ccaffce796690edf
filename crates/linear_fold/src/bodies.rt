// The bodies of a file and one of its objectives, folded after the defined variables.
ghost use Rattle.std.specs.Prelude.{◌≡◌, ◌+◌, ◌*◌, ◌≤◌, [], ◌∷◌, IfOk, IfErr, None, OnOk, Some, length, option_map, true};
ghost use Rattle.text_base.specs.Stopped.{IfFault};
ghost use Rattle.nl_model.specs.HeaderRules.{AreCounts};
ghost use Rattle.nl_model.specs.Rules.{IsFile};
ghost use Rattle.nl_model.specs.declared.at.Owner.TheVariants.{Con as OfConstraint, Obj as OfObjective};
ghost use Rattle.nl_model.specs.FoldFaults.{has_objective, most_coefficients, owners_fault, owners_of};
ghost use Rattle.linear_program.specs.Elements.{elements_from};
ghost use Rattle.linear_fold.specs.FoldedFaults.{HasFaultPlace, named_fault, step_bound};
ghost use Rattle.linear_program.specs.Forms.{form_terms};
ghost use Rattle.linear_fold.specs.InsideHeldBodies.{HasBodies, bodies_in};
ghost use Rattle.linear_fold.specs.InsideOwnerFolds.{AreFormsOf, AreOwnersFolded, HasFolded, IsFormOf, bodies_size, coefficients_of, owned_at, owner_size};

use crate::definitions::fold_definitions;
use crate::fold_fault::FoldFault;
use crate::owners::{Body, Folder, fold_body, fold_owner};
use linear_program::Form;
use nl_model::{NlFile, Owner};
use std::alloc::Global;
use text_base::{Ledger, Steps, Stop};

/// The forms of bodies, and which are held: the terms of these are still those of the file.
#[derive(Drop)]
pub(crate) struct Bodies {
    pub(crate) forms: Vec<Form>,
    pub(crate) held: Vec<bool>,
}

// Folds the bodies of all constraints.
fn fold_bodies<L: Ledger>(
    alloc: Global,
    file: &NlFile,
    hold: bool,
    folder: &mut Folder,
    steps: &mut Steps<L>,
) -> Result<Bodies, Stop<FoldFault>>
    requires file { IsFile file.now }
    requires folder { HasFolded file.now file.now.definitions folder.old }
    ensures folder { OnOk result (HasFolded file.now file.now.definitions folder.new) }
    ensures bodies { IfOk result (HasBodies file.now hold) }
    ensures counted { IfOk result
        (λ v. folder.new.count ≡ folder.old.count + coefficients_of (bodies_in file.now v)) }
    ensures folded { AreOwnersFolded file.now folder.old.count
        (elements_from (λ i. owned_at file.now (OfConstraint i)) 0 file.now.counts.n_con)
        folder.new.count result }
    ensures place { IfErr result (λ stop. IfFault stop (λ fault. HasFaultPlace file.now fault)) }
    ensures above { steps.old ≤ steps.new }
    ensures below { steps.new
        ≤ steps.old + 2 * (file.now.counts.n_var + 1) * bodies_size file.now.bodies file.now.terms }
{
    let counts = file.header().counts();
    let mut forms = Vec::with_capacity(alloc, counts.n_con as usize)?;
    let mut held = Vec::with_capacity(alloc, counts.n_con as usize)?;
    for con in 0..counts.n_con {
        let body = match fold_body(file, con, hold, folder, steps) {
            Ok(body) => body,
            Err(stop) => return Err(stop),
        };
        let Body {
            form,
            held: is_held,
        } = body;
        let Ok(()) = forms.push(form) else {
            return Err(Stop::Memory);
        };
        let Ok(()) = held.push(is_held) else {
            return Err(Stop::Memory);
        };
    }
    Ok(Bodies { forms, held })
}

// Folds an objective; a file without objectives has the objective 0.
fn fold_objective<L: Ledger>(
    alloc: Global,
    file: &NlFile,
    objective: u32,
    folder: &mut Folder,
    steps: &mut Steps<L>,
) -> Result<Form, Stop<FoldFault>>
    requires file { IsFile file.now }
    requires has { has_objective file.now objective ≡ true }
    requires folder { HasFolded file.now file.now.definitions folder.old }
    ensures form { IfOk result (λ form. IsFormOf file.now (OfObjective objective) form) }
    ensures few { IfOk result
        (λ form. folder.old.count + length (form_terms form) ≤ most_coefficients) }
    ensures folded { AreOwnersFolded file.now folder.old.count
        (owned_at file.now (OfObjective objective) ∷ []) folder.new.count result }
    ensures place { IfErr result (λ stop. IfFault stop (λ fault. HasFaultPlace file.now fault)) }
    ensures above { steps.old ≤ steps.new }
    ensures below { steps.new
        ≤ steps.old + 2 * (file.now.counts.n_var + 1)
        * owner_size file.now (OfObjective objective) }
{
    let counts = file.header().counts();
    if objective < counts.n_obj {
        return fold_owner(file, Owner::Obj(objective), folder, steps);
    }
    Ok(Form::new(alloc))
}

/// Folds the defined variables, the bodies and an objective: the forms of these, or the first
/// fault. Bodies are held where they are to be.
pub(crate) fn fold_forms<L: Ledger>(
    alloc: Global,
    file: &NlFile,
    objective: u32,
    hold: bool,
    folder: &mut Folder,
    steps: &mut Steps<L>,
) -> Result<(Bodies, Form), Stop<FoldFault>>
    requires file { IsFile file.now }
    requires counts { AreCounts file.now.counts }
    requires has { has_objective file.now objective ≡ true }
    requires folder { HasFolded file.now [] folder.old }
    requires nothing { folder.old.count ≡ 0 }
    ensures forms { IfOk result
        (λ r. AreFormsOf file.now objective (bodies_in file.now r.0) r.1) }
    ensures bodies { IfOk result (λ r. HasBodies file.now hold r.0) }
    ensures fine { OnOk result
        (owners_fault file.now.counts.n_var 0 (owners_of file.now objective) ≡ None) }
    ensures fault { IfErr result
        (λ stop. IfFault stop
        (λ fault. option_map (named_fault file.now)
        (owners_fault file.now.counts.n_var 0 (owners_of file.now objective)) ≡ Some fault)) }
    ensures place { IfErr result (λ stop. IfFault stop (λ fault. HasFaultPlace file.now fault)) }
    ensures above { steps.old ≤ steps.new }
    ensures below { steps.new ≤ steps.old + step_bound file.now }
{
    match fold_definitions(file, folder, steps) {
        Ok(()) => {}
        Err(stop) => return Err(stop),
    }
    let bodies = match fold_bodies(alloc, file, hold, folder, steps) {
        Ok(bodies) => bodies,
        Err(stop) => return Err(stop),
    };
    match fold_objective(alloc, file, objective, folder, steps) {
        Ok(form) => Ok((bodies, form)),
        Err(stop) => Err(stop),
    }
}
