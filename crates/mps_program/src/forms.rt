// The forms of the constraints and of the objective.
ghost use Rattle.std.specs.Prelude.{◌≡◌, ◌+◌, ◌<◌, ◌≤◌, [], IfOk, IfErr, OnOk, None, Some, false, length};
ghost use Rattle.std.specs.Option.{option_map, option_or};
ghost use Rattle.exact_numbers.specs.Values.{dec_value};
ghost use Rattle.mps_model.specs.Mps.{objective_row};
ghost use Rattle.mps_model.specs.Valid.{IsMps};
ghost use Rattle.text_base.specs.Stopped.{IfFault};
ghost use Rattle.mps_program.specs.Faults.{first_wide_body, is_body_wide, is_objective_wide, wide_objective};
ghost use Rattle.mps_program.specs.InsideForms.{AreBodiesOf, AreTermsFrom, IsObjectiveOf};
ghost use Rattle.mps_program.specs.Places.{listed, places};
ghost use Rattle.mps_program.specs.Program.{constraints, is_constraint};
ghost use Rattle.mps_program.specs.Terms.{row_terms};
ghost use Rattle.mps_program.specs.declared.mps_fault.MpsFault.TheVariants.{TooWide as TooWideFault};

use crate::mps_fault::MpsFault;
use crate::rows::{is_bounded_kind, objective_row, right_side};
use crate::terms::has_wide_term;
use exact_numbers::{Dec, Frac};
use linear_program::{Buckets, Form, PartLists, part_end};
use mps_model::Mps;
use std::alloc::{AllocError, Global};
use text_base::Stop;

/// The forms of the constraints, in order, and that of the objective.
#[derive(Drop)]
pub(crate) struct RowForms {
    pub(crate) bodies: Vec<Form>,
    pub(crate) objective: Form,
}

// Adds the forms of the constraints among the rows of a part, of which the first is row `first`.
#[tactic(auto, unfolding(crate::specs::Places::places))]
fn add_bodies(
    alloc: Global,
    bodies: &mut Vec<Form>,
    mps: &Mps,
    first: usize,
    part: &PartLists,
) -> Result<(), Stop<MpsFault>>
    requires within { first + length part.now ≤ length mps.now.rows }
    requires terms { AreTermsFrom (row_terms mps.now) first part.now }
    requires bodies { AreBodiesOf (row_terms mps.now) (places (is_constraint mps.now.rows) first)
        bodies.old.items }
    requires clean { places (is_body_wide mps.now) first ≡ [] }
    ensures bodies { OnOk result (AreBodiesOf (row_terms mps.now)
        (places (is_constraint mps.now.rows) (first + length part.now)) bodies.new.items) }
    ensures clean { OnOk result (places (is_body_wide mps.now) (first + length part.now) ≡ []) }
    ensures fault { IfErr result
        (λ stop. IfFault stop (λ fault. option_map TooWideFault (first_wide_body mps.now)
        ≡ Some fault)) }
{
    let rows = mps.rows();
    'rows: for k in 0..part.len() {
        let i = first + k;
        let row = &rows[i];
        if is_bounded_kind(row.kind) {
            let own = part.list(k);
            if has_wide_term(own) {
                return Err(Stop::Fault(MpsFault::TooWide(i as u32)));
            }
            let form = Form::in_fractions(alloc, Frac::zero(), own)?;
            bodies.push(form)?;
        }
    }
    Ok(())
}

// The form of the objective, whose terms these are. None where a number of it has no fraction.
fn objective_of(
    alloc: Global,
    mps: &Mps,
    place: usize,
    own: &[(u32, Dec)],
) -> Result<Option<Form>, AllocError>
    requires valid { IsMps dec_value mps.now }
    requires place { place ≡ objective_row mps.now.rows }
    requires own { own.now ≡ row_terms mps.now place }
    ensures { IfOk result (IsObjectiveOf mps.now) }
{
    let right = right_side(mps, place);
    let Some(side) = Frac::of_dec(right) else {
        return Ok(None);
    };
    if has_wide_term(own) {
        return Ok(None);
    }
    let form = Form::in_fractions(alloc, side.neg(), own)?;
    Ok(Some(form))
}

// The same, where the row of the objective is in a part, and else what was found before.
fn next_objective(
    alloc: Global,
    mps: &Mps,
    place: usize,
    first: usize,
    part: &PartLists,
    before: Option<Form>,
) -> Result<Option<Form>, AllocError>
    requires valid { IsMps dec_value mps.now }
    requires place { place ≡ objective_row mps.now.rows }
    requires terms { AreTermsFrom (row_terms mps.now) first part.now }
    requires before { place < first → IsObjectiveOf mps.now before }
    ensures { IfOk result (λ o. place < first + length part.now → IsObjectiveOf mps.now o) }
{
    if place < first {
        return Ok(before);
    }
    let k = place - first;
    if k >= part.len() {
        return Ok(before);
    }
    let found = objective_of(alloc, mps, place, part.list(k))?;
    Ok(found)
}

// The forms of rows whose terms are in buckets: so many constraints, and the objective.
pub(crate) fn forms_of(
    alloc: Global,
    mps: &Mps,
    count: usize,
    mut terms: Buckets,
) -> Result<RowForms, Stop<MpsFault>>
    requires { terms ≡ listed (row_terms mps.now) (length mps.now.rows) }
    ensures bodies { IfOk result
        (λ f. AreBodiesOf (row_terms mps.now) (constraints mps.now.rows) f.bodies.items) }
    ensures objective { IfOk result (λ f. IsObjectiveOf mps.now (Some f.objective)) }
    ensures clean { IfOk result (λ f. first_wide_body mps.now ≡ None) }
    ensures fault { IfErr result (λ stop. IfFault stop (λ fault.
        option_map TooWideFault (option_or (first_wide_body mps.now) (wide_objective mps.now))
        ≡ Some fault)) }
{
    let rows = mps.rows();
    let total = rows.len();
    let place = objective_row(rows);
    let mut bodies = Vec::with_capacity(alloc, count)?;
    let mut objective = None;
    let mut part = PartLists::new(alloc);
    let mut done = 0usize;
    'parts: while done < total {
        let end = part_end(done, total);
        part = terms.take_part(done as u32, end - done, part)?;
        add_bodies(alloc, &mut bodies, mps, done, &part)?;
        objective = next_objective(alloc, mps, place, done, &part, objective)?;
        done = end;
    }
    let Some(form) = objective else {
        return Err(Stop::Fault(MpsFault::TooWide(place as u32)));
    };
    Ok(RowForms {
        bodies,
        objective: form,
    })
}
