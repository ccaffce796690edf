ghost use Rattle.exact_numbers.specs.Decimal.{IsDec};
ghost use Rattle.exact_numbers.specs.InsidePacked.{whole_of};

use crate::words::Words;
use std::marker::Model;

/// The number m * 10 ^ e, in its one form: the last digit of m is not 0, and zero is (0, 0).
#[derive(Clone, Copy)]
pub struct Dec {
    pub(crate) words: Words,
    pub(crate) e: i16,
    ghost spelled: { IsDec (whole_of words) e },
}

impl Model for Dec {
    ghost use Rattle.exact_numbers.specs.Decimal.{IsDec, DecValue};
    ghost use Rattle.exact_numbers.specs.InsidePacked.{AreWords, whole_of, signed_words_of, signed_words_back};
    ghost use Rattle.exact_numbers.specs.InsideHeld.{IsDec-prop, dec_words};
    ghost use mathlib.Core.HLevel.{is_prop→PathP};

    ghost Value = { DecValue };

    ghost view = { λ d. record { m = whole_of d.words; e = d.e; spelled = d.spelled } };

    ghost invariant = { λ d. AreWords d.words };

    ghost inverse = { λ d. record {
      words = signed_words_of d.m;
      e = d.e;
      spelled = dec_words d.spelled;
    } };

    ghost inverse_ok = { λ d h i. record {
      words = signed_words_back d.words h i;
      e = d.e;
      spelled = is_prop→PathP (λ j. IsDec (whole_of (signed_words_back d.words h j)) d.e)
          (λ j. IsDec-prop _ _) (dec_words d.spelled) d.spelled i;
    } };
}

impl Dec {
    ghost use Rattle.std.specs.Prelude.{◌≡◌};
    ghost use Rattle.exact_numbers.specs.Decimal.{IsDec};

    // The Dec of a mantissa and an exponent.
    #[inline]
    pub(crate) fn of_parts(m: i128, e: i16) -> Dec
        requires { IsDec m e }
        ensures mantissa { result.m ≡ m }
        ensures exponent { result.e ≡ e }
    {
        Dec {
            words: Words::of_whole(m),
            e,
        }
    }
}

impl PartialEq for Dec {
    ghost use Rattle.std.specs.Cmp.{int_eq_equiv, partial_equiv_from_equiv, on_equiv, and_equiv};
    ghost use Rattle.std.specs.Ordering.{int_eq, on, eq_of_both};

    ghost eq = { eq_of_both (on (λ d. d.m) int_eq) (on (λ d. d.e) int_eq) };

    ghost laws = { partial_equiv_from_equiv
        (and_equiv (on_equiv (λ d. d.m) int_eq_equiv) (on_equiv (λ d. d.e) int_eq_equiv)) };

    fn eq(&self, other: &Dec) -> bool {
        self.words.whole() == other.words.whole() && self.e == other.e
    }
}

impl Eq for Dec {
    ghost use Rattle.std.specs.Cmp.{int_eq_equiv, on_equiv, and_equiv};

    ghost laws = { and_equiv (on_equiv (λ d. d.m) int_eq_equiv) (on_equiv (λ d. d.e) int_eq_equiv) };
}
