// The fold of a whole file.
ghost use Rattle.std.specs.Prelude.{◌≡◌, ◌<◌, ◌==◌, ◌&&◌, ◌||◌, IfOk, IfErr, OnOk, nat_lt, true};
ghost use Rattle.text_base.specs.Stopped.{IfFault};
ghost use Rattle.nl_model.specs.HeaderRules.{AreCounts};
ghost use Rattle.nl_model.specs.Rules.{IsFile};
ghost use Rattle.nl_model.specs.Expressions.{maximises};
ghost use Rattle.linear_fold.specs.FoldedFile.{IsLinearOf, FoldsWith, IsFirstFault, AreFoldSteps};
ghost use Rattle.linear_fold.specs.InsideHeldBodies.{HasBodies, bodies_in};
ghost use Rattle.linear_fold.specs.InsideOwnerFolds.{AreFormsOf};

use crate::bodies::{Bodies, fold_forms};
use crate::completing::completed_forms;
use crate::definitions::empty_folder;
use crate::fold_fault::FoldFault;
use linear_program::{Form, Interval, Linear};
use nl_model::{Counts, NlFile, all_kinds};
use std::alloc::{AllocError, Global};
use text_base::{Ledger, Steps, Stop};

// Whether there is such an objective; a file without objectives has the objective 0.
fn has_objective(counts: &Counts, objective: u32) -> bool
    ensures { result
        ≡ (nat_lt objective counts.now.n_obj || ((objective == 0) && (counts.now.n_obj == 0))) }
{
    objective < counts.n_obj || (objective == 0 && counts.n_obj == 0)
}

// Whether an objective is maximised; the 0 of a file without objectives is not.
fn is_maximised(file: &NlFile, objective: u32) -> bool
    requires { IsFile file.now }
    ensures { result ≡ maximises file.now objective }
{
    if objective < file.header().counts().n_obj {
        file.maximise(objective)
    } else {
        false
    }
}

// The sides of all constraints.
fn sides_of(alloc: Global, file: &NlFile) -> Result<Vec<Interval>, AllocError>
    requires { IsFile file.now }
    ensures { IfOk result (λ v. v.items ≡ file.now.sides) }
{
    let counts = file.header().counts();
    let mut sides = Vec::with_capacity(alloc, counts.n_con as usize)?;
    for con in 0..counts.n_con {
        let side = file.side(con);
        let _lo = side.lo;
        sides.push(side)?;
    }
    Ok(sides)
}

// The bounds of all variables.
fn bounds_of(alloc: Global, file: &NlFile) -> Result<Vec<Interval>, AllocError>
    requires { IsFile file.now }
    ensures { IfOk result (λ v. v.items ≡ file.now.bounds) }
{
    let counts = file.header().counts();
    let mut bounds = Vec::with_capacity(alloc, counts.n_var as usize)?;
    for var in 0..counts.n_var {
        let bound = file.bound(var);
        let _lo = bound.lo;
        bounds.push(bound)?;
    }
    Ok(bounds)
}

// The folded file of the forms of its bodies and of an objective.
fn assemble(
    alloc: Global,
    file: &NlFile,
    objective: u32,
    bodies: Vec<Form>,
    form: Form,
) -> Result<Linear, AllocError>
    requires file { IsFile file.now }
    requires counts { AreCounts file.now.counts }
    requires forms { AreFormsOf file.now objective bodies.items form }
    ensures { IfOk result (IsLinearOf file.now objective) }
{
    let sides = sides_of(alloc, file)?;
    let bounds = bounds_of(alloc, file)?;
    let kinds = all_kinds(alloc, file)?;
    let maximise = is_maximised(file, objective);
    Ok(Linear::of_parts(bodies, form, objective, maximise, sides, bounds, kinds))
}

// The folded file of its bodies and of the form of an objective; its sides and bounds are handed
// on, and so are the terms of held bodies. The rest of it is let go.
fn assemble_file(
    alloc: Global,
    file: NlFile,
    objective: u32,
    bodies: Bodies,
    form: Form,
) -> Result<Linear, AllocError>
    requires file { IsFile file }
    requires counts { AreCounts file.counts }
    requires forms { AreFormsOf file objective (bodies_in file bodies) form }
    requires bodies { HasBodies file true bodies }
    ensures { IfOk result (IsLinearOf file objective) }
{
    let maximise = is_maximised(&file, objective);
    let listed = all_kinds(alloc, &file);
    let (terms, sides, bounds) = file.into_rows();
    let kinds = listed?;
    let Bodies { forms, held } = bodies;
    let all = completed_forms(forms, &held, terms);
    Ok(Linear::of_parts(all, form, objective, maximise, sides, bounds, kinds))
}

// The forms of the bodies of a file and of one of its objectives, or its first fault.
fn forms_of<L: Ledger>(
    alloc: Global,
    file: &NlFile,
    objective: u32,
    hold: bool,
    steps: &mut Steps<L>,
) -> Result<(Bodies, Form), Stop<FoldFault>>
    ensures forms { IfOk result
        (λ r. AreFormsOf file.now objective (bodies_in file.now r.0) r.1) }
    ensures bodies { IfOk result (λ r. HasBodies file.now hold r.0) }
    ensures file { IsFile file.now }
    ensures counts { AreCounts file.now.counts }
    ensures folds { OnOk result (FoldsWith file.now objective) }
    ensures fault { IfErr result (λ stop. IfFault stop (IsFirstFault file.now objective)) }
    ensures steps { AreFoldSteps file.now objective steps.old steps.new }
{
    if !has_objective(file.header().counts(), objective) {
        return Err(Stop::Fault(FoldFault::NoSuchObjective(objective)));
    }
    let mut folder = empty_folder(alloc, file)?;
    let forms = match fold_forms(alloc, file, objective, hold, &mut folder, steps) {
        Ok(forms) => forms,
        Err(stop) => return Err(stop),
    };
    Ok(forms)
}

/// Folds a file with one of its objectives: its linear program, or its first fault.
pub fn fold_all<L: Ledger>(
    alloc: Global,
    file: &NlFile,
    objective: u32,
    steps: &mut Steps<L>,
) -> Result<Linear, Stop<FoldFault>>
    ensures linear { IfOk result (IsLinearOf file.now objective) }
    ensures folds { OnOk result (FoldsWith file.now objective) }
    ensures fault { IfErr result (λ stop. IfFault stop (IsFirstFault file.now objective)) }
    ensures steps { AreFoldSteps file.now objective steps.old steps.new }
{
    let (bodies, form) = match forms_of(alloc, file, objective, false, steps) {
        Ok(forms) => forms,
        Err(stop) => return Err(stop),
    };
    let Bodies { forms, held: _ } = bodies;
    let linear = assemble(alloc, file, objective, forms, form)?;
    Ok(linear)
}

/// The same of a file that is let go: its sides and bounds are handed on, and so are the terms of
/// rows whose body is a number, where they ascend.
pub fn fold_file<L: Ledger>(
    alloc: Global,
    file: NlFile,
    objective: u32,
    steps: &mut Steps<L>,
) -> Result<Linear, Stop<FoldFault>>
    ensures linear { IfOk result (IsLinearOf file objective) }
    ensures folds { OnOk result (FoldsWith file objective) }
    ensures fault { IfErr result (λ stop. IfFault stop (IsFirstFault file objective)) }
    ensures steps { AreFoldSteps file objective steps.old steps.new }
{
    let forms = forms_of(alloc, &file, objective, true, steps);
    let (bodies, form) = match forms {
        Ok(forms) => forms,
        Err(stop) => {
            drop(file);
            return Err(stop);
        }
    };
    let linear = assemble_file(alloc, file, objective, bodies, form)?;
    Ok(linear)
}
