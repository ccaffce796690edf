// The forms of bodies that are held, with their terms.
ghost use Rattle.std.specs.Prelude.{◌≡◌, ◌<◌, get_or, length, slice_set};
ghost use Rattle.linear_program.specs.declared.form.Form.{Form};
ghost use Rattle.linear_program.specs.Decimals.{AreDecimals};
ghost use Rattle.linear_program.specs.Forms.{kept_constant};
ghost use Rattle.linear_fold.specs.InsideHeld.{form_with};
ghost use Rattle.linear_fold.specs.InsideHeldBodies.{AreStillDecimals, IsStillDecimal, completed, completed_form};

use linear_program::{Form, Terms};

// The closed form of the same number with terms.
fn with_terms(form: &Form, terms: Terms) -> Form
    requires { AreDecimals 0 terms }
    ensures { result ≡ form_with (kept_constant form.now.kept) terms }
{
    Form::of_terms(form.constant(), terms)
}

// Whether the body at a place is held.
fn is_held(held: &[bool], place: usize) -> bool
    requires { place < length held.now }
    ensures { result ≡ get_or held.now place result }
{
    held[place]
}

// Puts the form of a body with its terms in its place, where it is held.
fn complete(forms: &mut Vec<Form>, place: usize, held: bool, terms: Terms)
    requires place { place < length forms.old.items }
    requires decimals { IsStillDecimal held terms }
    ensures { (d : Form) → forms.new.items
        ≡ slice_set forms.old.items place
        (completed_form held terms (get_or forms.old.items place d)) }
{
    if held {
        let form = with_terms(&forms[place], terms);
        forms[place] = form;
    }
}

/// The forms with the terms of those that are held.
pub(crate) fn completed_forms(forms: Vec<Form>, held: &[bool], terms: Vec<Terms>) -> Vec<Form>
    requires marks { length held.now ≡ length forms.items }
    requires rows { length terms.items ≡ length forms.items }
    requires still { AreStillDecimals held.now terms.items }
    ensures { result.items ≡ completed held.now terms.items forms.items }
{
    let mut all = forms;
    let mut rest = terms.into_iter();
    for place in 0..held.len() {
        let Some(list) = rest.next() else {
            unreachable!()
        };
        complete(&mut all, place, is_held(held, place), list);
    }
    all
}
