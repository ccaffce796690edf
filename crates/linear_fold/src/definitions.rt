// The defined variables of a file, folded in file order.
ghost use Rattle.std.specs.Prelude.{◌≡◌, ◌+◌, ◌*◌, ◌≤◌, [], ◌∷◌, IfOk, IfErr, None, OnOk, Some, length, replicate, slice_get, take};
ghost use Rattle.text_base.specs.Stopped.{IfFault};
ghost use Rattle.nl_model.specs.Trees.{tree_size};
ghost use Rattle.nl_model.specs.HeaderRules.{AreCounts};
ghost use Rattle.nl_model.specs.Rules.{IsFile};
ghost use Rattle.nl_model.specs.declared.at.Owner.TheVariants.{Def as OfDefinition};
ghost use Rattle.linear_program.specs.Elements.{elements_from};
ghost use Rattle.linear_fold.specs.FoldedFaults.{HasFaultPlace};
ghost use Rattle.linear_fold.specs.InsideOwnerFolds.{AreOwnersFolded, HasFolded, definitions_size, owned_at};

use crate::fold::Room;
use crate::fold_fault::FoldFault;
use crate::owners::{Folder, fold_owner};
use linear_program::{Form, Pad};
use nl_model::{Def, NlFile, Owner, defined_count};
use std::alloc::{AllocError, Global};
use text_base::{Ledger, Steps, Stop};

// So many places without forms.
fn empty_slots(alloc: Global, count: u64) -> Result<Vec<Option<Form>>, AllocError>
    ensures { IfOk result (λ v. v.items ≡ replicate count None) }
{
    let mut all = Vec::new(alloc);
    'filled: for _ in 0..count {
        all.push(None)?;
    }
    Ok(all)
}

/// A folder for a file, which holds nothing.
pub(crate) fn empty_folder(alloc: Global, file: &NlFile) -> Result<Folder, AllocError>
    ensures folder { IfOk result (λ r. HasFolded file.now [] r) }
    ensures count { IfOk result (λ r. r.count ≡ 0) }
{
    let counts = file.header().counts();
    let slots = empty_slots(alloc, defined_count(counts))?;
    let pad = Pad::new(alloc, counts.n_var)?;
    Ok(Folder {
        alloc,
        slots,
        room: Room {
            pad: Some(pad),
            open_at: 0,
        },
        count: 0,
        variables: counts.n_var,
    })
}

// Folds the definition at a position, which may use the earlier ones, into its place.
fn fold_definition<L: Ledger>(
    file: &NlFile,
    index: u32,
    definition: &Def,
    folder: &mut Folder,
    steps: &mut Steps<L>,
) -> Result<(), Stop<FoldFault>>
    requires file { IsFile file.now }
    requires at { slice_get file.now.definitions index ≡ Some definition.now }
    requires folder { HasFolded file.now (take index file.now.definitions) folder.old }
    ensures folder { OnOk result
        (HasFolded file.now (take (index + 1) file.now.definitions) folder.new) }
    ensures folded { AreOwnersFolded file.now folder.old.count
        (owned_at file.now (OfDefinition index) ∷ []) folder.new.count result }
    ensures place { IfErr result (λ stop. IfFault stop (λ fault. HasFaultPlace file.now fault)) }
    ensures above { steps.old ≤ steps.new }
    ensures below { steps.new
        ≤ steps.old + 2 * (file.now.counts.n_var + 1)
        * (tree_size definition.now.tree + length definition.now.terms) }
{
    let form = fold_owner(file, Owner::Def(index), folder, steps)?;
    let slot = (definition.index - folder.variables) as usize;
    folder.slots[slot] = Some(form);
    Ok(())
}

/// Folds all definitions.
pub(crate) fn fold_definitions<L: Ledger>(
    file: &NlFile,
    folder: &mut Folder,
    steps: &mut Steps<L>,
) -> Result<(), Stop<FoldFault>>
    requires file { IsFile file.now }
    requires counts { AreCounts file.now.counts }
    requires folder { HasFolded file.now [] folder.old }
    ensures folder { OnOk result (HasFolded file.now file.now.definitions folder.new) }
    ensures folded { AreOwnersFolded file.now folder.old.count
        (elements_from (λ i. owned_at file.now (OfDefinition i)) 0 (length file.now.definitions))
        folder.new.count result }
    ensures place { IfErr result (λ stop. IfFault stop (λ fault. HasFaultPlace file.now fault)) }
    ensures above { steps.old ≤ steps.new }
    ensures below { steps.new
        ≤ steps.old + 2 * (file.now.counts.n_var + 1) * definitions_size file.now.definitions }
{
    for (index, definition) in file.defs().iter().enumerate() {
        match fold_definition(file, index as u32, definition, folder, steps) {
            Ok(()) => {}
            Err(stop) => return Err(stop),
        }
    }
    Ok(())
}
