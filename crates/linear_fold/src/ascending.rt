// Terms that ascend by variable: as they stand, they are the coefficients of a form.
ghost use Rattle.std.specs.Prelude.{◌≡◌, ◌+◌, ◌^◌, ◌≤◌, ◌↔◌, [], length, All, IfOk, IfSome, IsTrue, None, true};
ghost use Rattle.std.specs.List.Sorted.{IsPermutation};
ghost use Rattle.exact_numbers.specs.Fits.{fits};
ghost use Rattle.exact_numbers.specs.Values.{dec_value, frac_value};
ghost use Rattle.linear_program.specs.Lines.{constant_line};
ghost use Rattle.nl_model.specs.Expressions.{linear_terms};
ghost use Rattle.linear_fold.specs.InsideHeld.{ComesToHeld};
ghost use Rattle.linear_fold.specs.InsideLinearTerms.{AreStrictlyAscending, AreZeroTerms};
ghost use Rattle.linear_fold.specs.InsideFolds.{ComesToTerms};
ghost use Rattle.linear_program.specs.Forms.{form_line, form_terms};

use crate::entries::{Entry, Held};
use exact_numbers::{Dec, Frac};
use linear_program::{Form, Terms};
use nl_model::{Fault, Reason};
use std::alloc::{AllocError, Global};
use text_base::{Ledger, Steps};

/// Whether the variables of terms strictly ascend and no factor is 0.
pub(crate) fn are_ascending(terms: &[(u32, Dec)]) -> bool
    ensures { IsTrue result ↔ AreStrictlyAscending 0 (linear_terms terms.now) }
{
    let mut least: u64 = 0;
    for (variable, factor) in terms {
        if u64::from(*variable) < least {
            return false;
        }
        if factor.is_zero() {
            return false;
        }
        least = u64::from(*variable) + 1;
    }
    true
}

// Whether each factor has a fraction that is not 0.
fn are_kept(terms: &[(u32, Dec)]) -> bool
    ensures { result ≡ true → All (λ t. fits (dec_value t.1) ≡ true) terms.now }
{
    for (_, factor) in terms {
        if factor.is_zero() {
            return false;
        }
        if !factor.has_fraction() {
            return false;
        }
    }
    true
}

// The terms in the order of their variables.
fn in_order(alloc: Global, terms: &[(u32, Dec)]) -> Result<Vec<(u32, Dec)>, AllocError>
    ensures order { IfOk result (λ v. IsPermutation terms.now v.items) }
    ensures count { IfOk result (λ v. length v.items ≡ length terms.now) }
{
    let mut ordered = terms.to_vec(alloc)?;
    ordered.sort_unstable_by_key(|term| term.0);
    Ok(ordered)
}

/// Whether no term adds anything: each factor is 0.
pub(crate) fn are_zero(terms: &[(u32, Dec)]) -> bool
    ensures { IsTrue result ↔ AreZeroTerms (linear_terms terms.now) }
{
    for (_, factor) in terms {
        if !factor.is_zero() {
            return false;
        }
    }
    true
}

/// A number with terms that ascend, of which the first has a number; a step for the number and for
/// each term.
pub(crate) fn with_decimals<L: Ledger>(
    number: Frac,
    terms: &[(u32, Dec)],
    first: usize,
    steps: &mut Steps<L>,
) -> Held
    requires ascending { AreStrictlyAscending 0 (linear_terms terms.now) }
    requires first { first ≤ 2 ^ 22 }
    ensures held { ComesToHeld (constant_line (frac_value number)) first terms.now result }
    ensures above { steps.old ≤ steps.new }
    ensures below { steps.new ≤ steps.old + 1 + length terms.now }
{
    steps.tick();
    for (index, term) in terms.iter().enumerate() {
        steps.tick();
        if !term.1.has_fraction() {
            return Held::Broken(Fault {
                place: first + index,
                reason: Reason::TooWide,
            });
        }
    }
    Held::Number(number)
}

/// The form of a number and of terms that ascend, of which the first has a number; a step for the
/// number and for each term.
pub(crate) fn form_of_ascending<L: Ledger>(
    alloc: Global,
    number: &Form,
    terms: &[(u32, Dec)],
    first: usize,
    steps: &mut Steps<L>,
) -> Result<Entry, AllocError>
    requires number { form_terms number.now ≡ [] }
    requires ascending { AreStrictlyAscending 0 (linear_terms terms.now) }
    requires first { first ≤ 2 ^ 22 }
    ensures entry { IfOk result
        (λ e. ComesToTerms (form_line number.now) first (linear_terms terms.now) e) }
    ensures above { steps.old ≤ steps.new }
    ensures below { steps.new ≤ steps.old + 1 + length terms.now }
{
    match with_decimals(number.constant(), terms, first, steps) {
        Held::Broken(fault) => Ok(Entry::Broken(fault)),
        Held::Number(constant) => {
            let list = Terms::of_slice(alloc, terms)?;
            Ok(Entry::Linear(Form::of_terms(constant, list)))
        }
    }
}

/// The form of a number and of terms that have fractions and ascend once they are in order; none of
/// others. A step for the number and for each term.
pub(crate) fn form_in_order<L: Ledger>(
    alloc: Global,
    number: &Form,
    terms: &[(u32, Dec)],
    first: usize,
    steps: &mut Steps<L>,
) -> Result<Option<Entry>, AllocError>
    requires number { form_terms number.now ≡ [] }
    requires first { first ≤ 2 ^ 22 }
    ensures entry { IfOk result
        (λ o. IfSome o
        (λ e. ComesToTerms (form_line number.now) first (linear_terms terms.now) e)) }
    ensures none { IfOk result (λ o. o ≡ None → steps.new ≡ steps.old) }
    ensures above { steps.old ≤ steps.new }
    ensures below { steps.new ≤ steps.old + 1 + length terms.now }
{
    if !are_kept(terms) {
        return Ok(None);
    }
    let ordered = in_order(alloc, terms)?;
    if !are_ascending(&ordered) {
        return Ok(None);
    }
    let entry = form_of_ascending(alloc, number, &ordered, first, steps)?;
    Ok(Some(entry))
}
