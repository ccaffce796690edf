// Each law is proved by a function with an empty body.
ghost use Rattle.std.specs.Prelude.{◌≡◌, ℕ, List};
ghost use Rattle.exact_numbers.specs.Values.{dec_value};
ghost use Rattle.exact_numbers.specs.declared.dec.Dec.{Dec};
ghost use Rattle.exact_numbers.specs.Rational.{ℚ};
ghost use Rattle.mps_model.specs.Mps.{Mps, with_values};
ghost use Rattle.mps_model.specs.Text.{mps_text_by};

/// Where numbers are written by their values, a program is written as the program of the values is.
pub fn text_is_of_values()
    ensures { (text : ℚ → List ℕ) (m : Mps Dec)
        → mps_text_by text (with_values dec_value m) ≡ mps_text_by (λ d. text (dec_value d)) m }
{}
