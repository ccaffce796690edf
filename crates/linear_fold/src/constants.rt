// The operators that want constants.
ghost use Rattle.std.specs.Prelude.{◌≡◌, ℕ, ◌+◌, ◌<◌, ◌^◌, pos, negsuc, [], ◌∷◌, false, true, length, reverse, unsigned_abs, MatchOption};
ghost use Rattle.code_tables.specs.declared.class.OpClass.TheVariants.{Absolute, Ceiling, Floor, Power};
ghost use Rattle.exact_numbers.specs.Values.{frac_value};
ghost use Rattle.exact_numbers.specs.Fits.{fits};
ghost use Rattle.exact_numbers.specs.Functions.{absolute_of as absolute_in, exponent_of as exponent_in, floor_of as floor_in, greater_of, lesser_of, power_of as power_in};
ghost use Rattle.exact_numbers.specs.Rational.{whole as whole_number};
ghost use Rattle.linear_fold.specs.InsideOperates.{AreOperands, AreUnbroken, IsOperand, IsUnbroken, IsValueOf, Operates, best_class, better_of, lines_of_parts, part_line};

use crate::operate::Outcome;
use crate::parts::PartialForm;
use exact_numbers::Frac;
use nl_model::Reason;
use std::cmp::Ordering;

// The value of an exponent that is whole and from 0 to 127.
fn exponent_of(x: Frac) -> Option<u32>
    ensures { result ≡ exponent_in (frac_value x) }
{
    if x.den() != 1 || x.num() < 0 || x.num() > 127 {
        return None;
    }
    Some(x.num() as u32)
}

// x to the n, where it fits.
#[tactic(auto, using(crate::proofs::ConstantLemmas::power_first, crate::proofs::ConstantLemmas::power_next, exact_numbers::proofs::Bridge::frac_fits_lem))]
fn power_of(x: Frac, n: u32) -> Option<Frac>
    ensures { MatchOption result (fits (power_in (frac_value x) n) ≡ false)
        (λ f. (fits (power_in (frac_value x) n) ≡ true)
        × (frac_value f ≡ power_in (frac_value x) n)) }
{
    let mut power = Frac::one();
    for _ in 0..n {
        match x.mul(power) {
            Some(next) => power = next,
            None => return None,
        }
    }
    Some(power)
}

pub(crate) fn power(a: &PartialForm, b: &PartialForm) -> Outcome
    requires first { IsUnbroken a.now }
    requires second { IsUnbroken b.now }
    ensures { (n : ℕ) → IsOperand n a.now → IsOperand n b.now
        → Operates n Power (part_line a.now ∷ part_line b.now ∷ []) result }
{
    let Some(base) = a.constant() else {
        return Outcome::Refused(Reason::Nonlinear);
    };
    let Some(exponent) = b.constant() else {
        return Outcome::Refused(Reason::Nonlinear);
    };
    let Some(times) = exponent_of(exponent) else {
        return Outcome::Refused(Reason::RefusedPower);
    };
    match power_of(base, times) {
        Some(value) => Outcome::Linear(PartialForm::Number(value)),
        None => Outcome::Refused(Reason::TooWide),
    }
}

#[tactic(auto, using(crate::proofs::ConstantLemmas::lesser_first, crate::proofs::ConstantLemmas::lesser_second))]
fn lesser(a: Frac, b: Frac) -> Frac
    ensures { frac_value result ≡ lesser_of (frac_value a) (frac_value b) }
{
    match b.order(a) {
        Ordering::Less => b,
        _ => a,
    }
}

#[tactic(auto, using(crate::proofs::ConstantLemmas::greater_first, crate::proofs::ConstantLemmas::greater_second))]
fn greater(a: Frac, b: Frac) -> Frac
    ensures { frac_value result ≡ greater_of (frac_value a) (frac_value b) }
{
    match a.order(b) {
        Ordering::Less => b,
        _ => a,
    }
}

fn better(least: bool, a: Frac, b: Frac) -> Frac
    ensures { frac_value result ≡ better_of least (frac_value a) (frac_value b) }
{
    if least { lesser(a, b) } else { greater(a, b) }
}

// The least of constant forms, or the greatest; none where one is not constant.
fn best_value(operands: &[PartialForm], least: bool) -> Option<Frac>
    requires some { 0 < length operands.now }
    requires unbroken { AreUnbroken (reverse operands.now) }
    ensures { (n : ℕ) → AreOperands n (reverse operands.now)
        → IsValueOf n (best_class least) (reverse operands.now) result }
{
    let last = operands.len() - 1;
    let Some(mut best) = operands[last].constant() else {
        return None;
    };
    for place in (0..operands.len()).rev() {
        let Some(value) = operands[place].constant() else {
            return None;
        };
        best = better(least, best, value);
    }
    Some(best)
}

pub(crate) fn best(operands: &[PartialForm], least: bool) -> Outcome
    requires some { 0 < length operands.now }
    requires unbroken { AreUnbroken (reverse operands.now) }
    ensures { (n : ℕ) → AreOperands n (reverse operands.now)
        → Operates n (best_class least) (lines_of_parts (reverse operands.now)) result }
{
    match best_value(operands, least) {
        Some(value) => Outcome::Linear(PartialForm::Number(value)),
        None => Outcome::Refused(Reason::Nonlinear),
    }
}

// A whole number.
fn whole(num: i128) -> Frac
    requires { unsigned_abs num < 2 ^ 127 }
    ensures { frac_value result ≡ whole_number num }
{
    match Frac::new(num, 1) {
        Some(number) => number,
        None => unreachable!(),
    }
}

// The whole number of a size.
fn whole_above(size: u128) -> Frac
    requires { size < 2 ^ 127 }
    ensures { frac_value result ≡ whole_number (pos size) }
{
    whole(size as i128)
}

// The whole number below 0 of a size less 1.
fn whole_under(size: u128) -> Frac
    requires { size + 1 < 2 ^ 127 }
    ensures { frac_value result ≡ whole_number (negsuc size) }
{
    whole(-(size as i128) - 1)
}

// The numerator without its sign.
fn numerator_size(x: Frac) -> u128
    ensures value { result ≡ unsigned_abs (frac_value x).top }
    ensures bound { result < 2 ^ 127 }
{
    x.num().unsigned_abs()
}

fn denominator_of(x: Frac) -> u128
    ensures { result ≡ (frac_value x).bottom }
{
    x.den().unsigned_abs()
}

// The greatest whole number not above a number.
fn floor_of(x: Frac) -> Frac
    ensures { frac_value result ≡ floor_in (frac_value x) }
{
    let denominator = denominator_of(x);
    let size = numerator_size(x);
    if x.is_negative() {
        return whole_under((size - 1) / denominator);
    }
    whole_above(size / denominator)
}

pub(crate) fn floor(a: &PartialForm) -> Outcome
    requires { IsUnbroken a.now }
    ensures { (n : ℕ) → IsOperand n a.now
        → Operates n Floor (part_line a.now ∷ []) result }
{
    match a.constant() {
        Some(value) => Outcome::Linear(PartialForm::Number(floor_of(value))),
        None => Outcome::Refused(Reason::Nonlinear),
    }
}

pub(crate) fn ceiling(a: &PartialForm) -> Outcome
    requires { IsUnbroken a.now }
    ensures { (n : ℕ) → IsOperand n a.now
        → Operates n Ceiling (part_line a.now ∷ []) result }
{
    match a.constant() {
        Some(value) => {
            let ceiling = floor_of(value.neg()).neg();
            Outcome::Linear(PartialForm::Number(ceiling))
        }
        None => Outcome::Refused(Reason::Nonlinear),
    }
}

// A number without its sign.
fn absolute_of(x: Frac) -> Frac
    ensures { frac_value result ≡ absolute_in (frac_value x) }
{
    if x.is_negative() {
        return x.neg();
    }
    x
}

pub(crate) fn absolute(a: &PartialForm) -> Outcome
    requires { IsUnbroken a.now }
    ensures { (n : ℕ) → IsOperand n a.now
        → Operates n Absolute (part_line a.now ∷ []) result }
{
    match a.constant() {
        Some(value) => Outcome::Linear(PartialForm::Number(absolute_of(value))),
        None => Outcome::Refused(Reason::Nonlinear),
    }
}
