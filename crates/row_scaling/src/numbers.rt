// Tests and values of decimal numbers.
ghost use Rattle.std.specs.Prelude.{◌≡◌, ◌↔◌, IsTrue};
ghost use Rattle.std.specs.Option.{option_map};
ghost use Rattle.exact_numbers.specs.Rational.{zero_ℚ, neg_ℚ};
ghost use Rattle.exact_numbers.specs.Values.{dec_value};
ghost use Rattle.scaled_program.specs.Program.{nonzero};

use exact_numbers::Dec;
use std::cmp::Ordering;

// The number, but none where it is 0.
#[tactic(auto, using(crate::proofs::ZeroLemmas::none_at_zero, crate::proofs::ZeroLemmas::some_at_other))]
pub(crate) fn nonzero(d: Dec) -> Option<Dec>
    ensures { option_map dec_value result ≡ nonzero (dec_value d) }
{
    if d.m() == 0 { None } else { Some(d) }
}

pub(crate) fn negated(d: Dec) -> Dec
    ensures { dec_value result ≡ neg_ℚ (dec_value d) }
{
    d.neg()
}

#[tactic(auto, using(crate::proofs::SharedLemmas::by_order))]
pub(crate) fn same_value(a: Dec, b: Dec) -> bool
    ensures { IsTrue result ↔ (dec_value a ≡ dec_value b) }
{
    a.order(b) == Ordering::Equal
}

#[tactic(auto, using(crate::proofs::SharedLemmas::zero_decimal, crate::proofs::SharedLemmas::zero_fits))]
pub(crate) fn zero() -> Dec
    ensures { dec_value result ≡ zero_ℚ }
{
    match Dec::new(0, 0) {
        Some(d) => d,
        None => unreachable!(),
    }
}
