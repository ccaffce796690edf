// Each law is proved by a function with an empty body.
ghost use Rattle.std.specs.Prelude.{◌≡◌, ◌↔◌, ◌-◌, ◌^◌, pos, true};
ghost use Rattle.exact_numbers.specs.Rational.{ℚ};
ghost use Rattle.exact_numbers.specs.Text.{IsDecText, text_value};
ghost use Rattle.exact_numbers.specs.Values.{Decimal, dec_value, decimal_of, exponent_of, mantissa_of, text_of, value_text, FitsDec, fits_dec};
ghost use Rattle.exact_numbers.specs.declared.dec.Dec.{Dec};
ghost use Rattle.exact_numbers.specs.declared.mantissa.TheConstants.{MAXN};

/// The spelling of the value of a Dec is its two numbers, so equal values have equal Decs, and its
/// written text is that of its value.
pub fn one_spelling()
    ensures spelling { (d : Dec) → decimal_of (dec_value d)
        ≡ record { mantissa = mantissa_of d; exponent = exponent_of d } }
    ensures mantissa { (c d : Dec) → dec_value c ≡ dec_value d → mantissa_of c ≡ mantissa_of d }
    ensures exponent { (c d : Dec) → dec_value c ≡ dec_value d → exponent_of c ≡ exponent_of d }
    ensures text { (d : Dec) → text_of d ≡ value_text (dec_value d) }
{}

/// The written text of a Dec is a decimal text of its value, so reading it gives the same Dec.
pub fn spellings_are_read()
    ensures text { (d : Dec) → IsDecText (text_of d) }
    ensures value { (d : Dec) → text_value (text_of d) ≡ dec_value d }
{}

/// The greatest size of a number.
pub fn greatest_size()
    ensures { MAXN ≡ pos (2 ^ 127 - 1) }
{}

/// The test of a number says whether some Dec has its value.
pub fn test_of_decimals()
    ensures { (x : ℚ) → (fits_dec x ≡ true) ↔ FitsDec x }
{}
