// Numbers as they are written.
ghost use Rattle.std.specs.Prelude.{◌≡◌, ◌↔◌, IsTrue};
ghost use Rattle.exact_numbers.specs.Rational.{zero_ℚ, ◌<ℚ◌};
ghost use Rattle.exact_numbers.specs.Values.{IsFracOf};
ghost use Rattle.linear_program.specs.Numbers.{number_value};

use exact_numbers::{Dec, Frac};

/// A number as it is written: a decimal, or a fraction.
#[derive(Clone, Copy)]
pub enum Number {
    Decimal(Dec),
    Fraction(Frac),
}

impl Number {
    /// The number as a fraction, where it fits.
    pub fn fraction(&self) -> Option<Frac>
        ensures { IsFracOf result (number_value self.now) }
    {
        match self {
            Number::Decimal(number) => Frac::of_dec(*number),
            Number::Fraction(number) => Some(*number),
        }
    }

    /// Whether this is 0.
    pub fn is_zero(&self) -> bool
        ensures { IsTrue result ↔ (number_value self.now ≡ zero_ℚ) }
    {
        match self {
            Number::Decimal(number) => number.is_zero(),
            Number::Fraction(number) => number.is_zero(),
        }
    }

    /// Whether this is below 0.
    pub fn is_negative(&self) -> bool
        ensures { IsTrue result ↔ (number_value self.now <ℚ zero_ℚ) }
    {
        match self {
            Number::Decimal(number) => number.is_negative(),
            Number::Fraction(number) => number.is_negative(),
        }
    }
}
