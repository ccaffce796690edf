// A value of a suffix, judged.
ghost use Rattle.std.specs.Prelude.{◌≡◌, ◌==◌, Some, IfOk, IfErr, option_copied};
ghost use Rattle.text_base.specs.Judged.{Takes, first_reason};
ghost use Rattle.text_base.specs.Names.{IsName};
ghost use Rattle.exact_numbers.specs.Numbers.{is_whole};
ghost use Rattle.answer_file.specs.Grammar.{object_tests, is_tied, differs, is_given_in, is_bad_value};
ghost use Rattle.answer_file.specs.Suffixes.{suffix_at, suffix_named};
ghost use Rattle.answer_file.specs.Steps.{with_object};

use crate::fault::AnswerReason;
use crate::group::Group;
use crate::table::{NewValue, SuffixTable};
use crate::target::Target;
use exact_numbers::Dec;
use nl_model::wants_whole;
use std::alloc::Global;
use text_base::Stop;

// Whether the suffix that came before differs in this from the kind.
fn differs(group: Option<&Group>, kind: u8) -> bool
    ensures { result ≡ differs (option_copied group.entry) kind }
{
    match group {
        Some(group) => (group.kind() / 4) % 2 != (kind / 4) % 2,
        None => false,
    }
}

// Whether the suffix has a value for the object.
fn is_given_in(group: Option<&Group>, target: Option<Target>) -> bool
    ensures { result ≡ is_given_in (option_copied group.entry) target }
{
    match (group, target) {
        (Some(group), Some(Target::Place(place))) => group.has(place),
        _ => false,
    }
}

fn is_whole(value: Dec) -> bool
    ensures { result ≡ is_whole value }
{
    value.is_whole()
}

// Whether the value is none, or not whole where it must be.
fn is_bad_value(kind: u8, value: Option<Dec>) -> bool
    ensures { result ≡ is_bad_value kind value }
{
    match value {
        Some(value) => wants_whole(kind) && !is_whole(value),
        None => true,
    }
}

// Whether the object ties the objective.
fn is_tied(target: Option<Target>) -> bool
    ensures { result ≡ is_tied target }
{
    match target {
        Some(Target::Tied) => true,
        _ => false,
    }
}

/// Judges a value for an object, of the suffix that stands at a place.
pub(crate) fn judge_object(
    table: &SuffixTable,
    kind: u8,
    place: Option<u32>,
    target: Option<Target>,
    value: Option<Dec>,
) -> Result<(), AnswerReason>
    ensures fine { IfOk result (λ u. first_reason (object_tests table.now kind
        (suffix_at table.now place) target value) ≡ None) }
    ensures fault { IfErr result (λ reason. first_reason
        (object_tests table.now kind (suffix_at table.now place) target value) ≡ Some reason) }
{
    let group = table.at(place);
    let tied = is_tied(target);
    if !tied && differs(group, kind) {
        return Err(AnswerReason::BadLine);
    }
    if target.is_none() {
        return Err(AnswerReason::UnknownName);
    }
    if is_bad_value(kind, value) {
        return Err(AnswerReason::BadNumber);
    }
    if is_given_in(group, target) {
        return Err(AnswerReason::Repeated);
    }
    if !tied && table.is_full(place) {
        return Err(AnswerReason::TooLarge);
    }
    Ok(())
}

/// Takes a value of a suffix of this kind and name.
pub(crate) fn take_object(
    table: &mut SuffixTable,
    alloc: Global,
    kind: u8,
    name: &[u8],
    target: Option<Target>,
    value: Option<Dec>,
) -> Result<(), Stop<AnswerReason>>
    requires { IsName name.now }
    ensures { Takes (object_tests table.old kind (suffix_named table.old kind name.now) target
        value) (with_object table.old kind name.now target value) result table.new }
{
    let suffix = table.place(kind, name);
    let given = value;
    if let Err(reason) = judge_object(table, kind, suffix, target, given) {
        return Err(Stop::Fault(reason));
    }
    let (Some(Target::Place(object)), Some(value)) = (target, value) else {
        return Ok(());
    };
    let new = NewValue {
        kind,
        object,
        value,
    };
    table.add(alloc, name, suffix, new)?;
    Ok(())
}
