// Sums of linear forms.
ghost use Rattle.std.specs.Prelude.{◌≡◌, ◌+◌, ◌<◌, ◌≤◌, IfOk, OnErr, OnOk, false, length};
ghost use Rattle.exact_numbers.specs.Values.{frac_value};
ghost use Rattle.exact_numbers.specs.Rational.{zero_ℚ};
ghost use Rattle.linear_program.specs.Lines.{constant_line};
ghost use Rattle.linear_program.specs.Coefs.{AddsAt, AreAscending, AreBelow};
ghost use Rattle.linear_program.specs.Forms.{AddsScaled, IsWithin, SumsUp, form_line, form_terms, is_open, place_count, sum_line, terms_left};
ghost use Rattle.linear_program.specs.Places.{terms_from};

use crate::accumulator::Accumulator;
use crate::form::Form;
use crate::form_terms::FormTerms;
use crate::pad::Pad;
use crate::too_wide::Wide;
use exact_numbers::Frac;
use std::alloc::{AllocError, Global};
use text_base::{Ledger, Steps, Stop};

/// What is added to: a constant, and a sparse accumulator of coefficients.
#[derive(Drop)]
pub struct Sum {
    constant: Frac,
    accumulator: Box<Accumulator>,
}

impl Sum {
    /// The sum 0, on a pad.
    pub fn on_pad(pad: Pad) -> Sum
        ensures line { sum_line result ≡ constant_line zero_ℚ }
        ensures places { place_count result ≡ pad }
    {
        Sum {
            constant: Frac::zero(),
            accumulator: pad.into_accumulator(),
        }
    }

    /// The constant.
    pub(crate) fn constant(&self) -> Frac
        ensures { result ≡ self.now.constant }
    {
        self.constant
    }

    /// The terms of the variables whose coefficient is not 0, ascending by variable.
    pub(crate) fn terms(&self) -> FormTerms<'_>
        ensures terms { terms_left result ≡ terms_from 0 self.now.accumulator.value }
        ensures ascending { AreAscending 0 (terms_from 0 self.now.accumulator.value) }
    {
        self.accumulator.terms()
    }

    /// Adds a factor to the coefficient of a variable.
    pub fn add_term(&mut self, variable: u32, factor: Frac) -> Result<(), Stop<Wide>>
        requires { variable < place_count self.old }
        ensures adds { AddsAt (sum_line self.old).coef variable (frac_value factor)
            (sum_line self.new).coef result }
        ensures constant { (sum_line self.new).constant ≡ (sum_line self.old).constant }
        ensures places { place_count self.new ≡ place_count self.old }
    {
        self.accumulator.add(variable, factor)
    }

    // Adds k times terms, a step for each.
    fn add_terms<L: Ledger>(
        &mut self,
        terms: FormTerms<'_>,
        k: Frac,
        steps: &mut Steps<L>,
    ) -> Result<(), Stop<Wide>>
        requires { AreBelow (place_count self.old) (terms_left terms) }
        ensures sums { SumsUp (sum_line self.old) (frac_value k) (terms_left terms.entry)
            (sum_line self.new) result }
        ensures places { place_count self.new ≡ place_count self.old }
        ensures counted { OnOk result (steps.new ≡ steps.old + length (terms_left terms.entry)) }
        ensures above { steps.old ≤ steps.new }
        ensures below { steps.new ≤ steps.old + length (terms_left terms.entry) }
    {
        for term in terms {
            steps.tick();
            let Some(scaled) = k.mul(term.1) else {
                return Err(Stop::Fault(Wide));
            };
            match self.add_term(term.0, scaled) {
                Ok(()) => {}
                Err(stop) => return Err(stop),
            }
        }
        Ok(())
    }

    // Adds k times a form; what is left after an error is not said.
    fn add_parts<L: Ledger>(
        &mut self,
        form: &Form,
        k: Frac,
        steps: &mut Steps<L>,
    ) -> Result<(), Stop<Wide>>
        requires { IsWithin (place_count self.old) form.now }
        ensures sums { AddsScaled (sum_line self.old) (frac_value k) (form_line form.now)
            (sum_line self.new) result }
        ensures places { place_count self.new ≡ place_count self.old }
        ensures counted { OnOk result (steps.new ≡ steps.old + length (form_terms form.now) + 1) }
        ensures above { steps.old ≤ steps.new }
        ensures below { steps.new ≤ steps.old + length (form_terms form.now) + 1 }
        ensures ascending { AreAscending 0 (form_terms form.now) }
    {
        let terms = form.terms();
        steps.tick();
        let Some(scaled) = k.mul(form.constant()) else {
            return Err(Stop::Fault(Wide));
        };
        let Some(sum) = self.constant.add(scaled) else {
            return Err(Stop::Fault(Wide));
        };
        self.constant = sum;
        self.add_terms(terms, k, steps)
    }

    /// Sets the constant and each coefficient to 0.
    pub fn clear(&mut self)
        ensures line { sum_line self.new ≡ constant_line zero_ℚ }
        ensures places { place_count self.new ≡ place_count self.old }
    {
        self.constant = Frac::zero();
        self.accumulator.clear();
    }

    /// Adds k times a form. Wide exactly where a product or a sum of one coefficient or of the
    /// constants does not fit. A step is counted for the constant and for each term of the form.
    /// After Wide and want of memory the sum is 0.
    pub fn add_scaled<L: Ledger>(
        &mut self,
        form: &Form,
        k: Frac,
        steps: &mut Steps<L>,
    ) -> Result<(), Stop<Wide>>
        requires { IsWithin (place_count self.old) form.now }
        ensures sums { AddsScaled (sum_line self.old) (frac_value k) (form_line form.now)
            (sum_line self.new) result }
        ensures zero { OnErr result (sum_line self.new ≡ constant_line zero_ℚ) }
        ensures places { place_count self.new ≡ place_count self.old }
        ensures counted { OnOk result (steps.new ≡ steps.old + length (form_terms form.now) + 1) }
        ensures above { steps.old ≤ steps.new }
        ensures below { steps.new ≤ steps.old + length (form_terms form.now) + 1 }
        ensures ascending { AreAscending 0 (form_terms form.now) }
    {
        match self.add_parts(form, k, steps) {
            Ok(()) => Ok(()),
            Err(stop) => {
                self.clear();
                Err(stop)
            }
        }
    }

    /// The form of the sum, which is 0 again.
    pub fn take(&mut self, alloc: Global) -> Result<Form, AllocError>
        ensures line { IfOk result (λ f. form_line f ≡ sum_line self.old) }
        ensures zero { OnOk result (sum_line self.new ≡ constant_line zero_ℚ) }
        ensures places { OnOk result (place_count self.new ≡ place_count self.old) }
    {
        let coefficients = self.accumulator.take(alloc)?;
        let form = Form::of_parts(self.constant, coefficients);
        self.constant = Frac::zero();
        Ok(form)
    }

    // About how many coefficients are not 0.
    pub(crate) fn room(&self) -> usize {
        self.accumulator.room()
    }

    /// The closed form of the sum, and the empty pad.
    pub fn close(self) -> Result<(Form, Pad), AllocError>
        ensures line { IfOk result (λ r. form_line r.0 ≡ sum_line self) }
        ensures terms { IfOk result (λ r. form_terms r.0 ≡ terms_from 0 self.accumulator.value) }
        ensures closed { IfOk result (λ r. is_open r.0 ≡ false) }
        ensures places { IfOk result (λ r. r.1 ≡ place_count self) }
    {
        let Sum {
            constant,
            mut accumulator,
        } = self;
        let alloc = accumulator.allocator();
        let coefficients = accumulator.take(alloc)?;
        let _ascending = coefficients.ordered();
        let form = Form::of_parts(constant, coefficients);
        Ok((form, Pad::of_accumulator(accumulator)))
    }
}
