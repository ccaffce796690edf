// How a scaled program as data reads in the terms of linear programs. Each law is proved by a
// function with an empty body.
ghost use Rattle.std.specs.Prelude.{◌≡◌, ℕ, pos, None};
ghost use Rattle.exact_numbers.specs.Rational.{whole, ◌*ℚ◌};
ghost use Rattle.linear_program.specs.Linear.{Form};
ghost use Rattle.scaled_program.specs.Program.{scaled_row, tie};
ghost use Rattle.linear_program.specs.Programs.{variables_from};
ghost use Rattle.row_scaling.specs.Exported.{scaled_as, exported_from, form_of, tied_row};
ghost use Rattle.row_scaling.specs.Scaled.{ScaledValue};

/// An objective that is not tied is written as it is.
#[tactic(auto, using(crate::proofs::LinearLemmas::plain_as))]
pub fn plain_program()
    ensures { (s : ScaledValue) → s.tie ≡ None
        → scaled_as s ≡ record {
          rows = exported_from 0 s.rows;
          objective = form_of s.objective;
          variables = variables_from 0 s.bounds s.kinds;
          maximise = s.maximise;
        } }
{}

/// The last row of a tied objective is the objective less z, times the factor.
pub fn tied_row_is_scaled()
    ensures { (n k : ℕ) (objective form : Form)
        → form.constant ≡ whole (pos k) *ℚ objective.constant
        → ((j : ℕ) → form.coefficient j ≡ whole (pos k) *ℚ objective.coefficient j)
        → tied_row n (pos k) form ≡ scaled_row k (tie n objective) }
{}
