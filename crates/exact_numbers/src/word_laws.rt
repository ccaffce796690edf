// Laws of words that are numbers. Each is proved by a function with an empty body.
ghost use Rattle.std.specs.Prelude.{◌≡◌, Some};
ghost use Rattle.exact_numbers.specs.Values.{frac_value};
ghost use Rattle.exact_numbers.specs.Written.{frac_text};
ghost use Rattle.exact_numbers.specs.declared.frac.Frac.{Frac};
ghost use Rattle.exact_numbers.specs.Words.{frac_of};

/// What is written of a fraction is read back as the same fraction.
pub fn written_fractions_are_read()
    ensures { (f : Frac)
        → frac_of (frac_text (frac_value f).top (frac_value f).bottom) ≡ Some f }
{}
