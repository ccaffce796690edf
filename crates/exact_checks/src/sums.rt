// Running sums: short fractions that are not reduced, as long as all parts have 64 bits.
ghost use Rattle.std.specs.Prelude.{◌≡◌, ◌≢◌, ◌↔◌, ◌*◌, ◌<◌, ◌^◌, pos, int_lt, Bool, true, false, length, IfSome, IsTrue, Some, option_and_then};
ghost use Rattle.std.specs.Option.{option_map};
ghost use Rattle.certificates.specs.Checked.{plus_product};
ghost use Rattle.certificates.specs.Verdict.{cost_check, cost_part_of};
ghost use Rattle.exact_numbers.specs.Fits.{fits};
ghost use Rattle.exact_numbers.specs.Rational.{ℚ, ◌*ℚ◌, ◌-ℚ◌, neg_ℚ, zero_ℚ};
ghost use Rattle.linear_program.specs.Linear.{Interval};
ghost use Rattle.exact_numbers.specs.Values.{dec_value, frac_value};
ghost use Rattle.linear_program.specs.Numbers.{number_value};
ghost use Rattle.exact_checks.specs.Answers.{cause_found};
ghost use Rattle.exact_checks.specs.Lists.{bounds_in};
ghost use Rattle.exact_checks.specs.Sums.{IsNeeded, less_part, short_value, sum_value};
ghost use Rattle.exact_checks.specs.Terms.{value_found};
ghost use Rattle.exact_checks.specs.declared.sums.RunningSum.TheVariants.{Untouched};

use crate::number::{is_negative, less_product};
use crate::short_fraction::ShortFraction;
use crate::sides::side_fraction;
use crate::verdict::{Fault, Spot};
use exact_numbers::{Dec, Frac};
use linear_program::Number;

/// A sum, be it the reduced cost of a variable, the weight of a row or the bound so far: 0 where
/// nothing was added yet; a short fraction; another one; none, since it is too wide.
#[derive(Clone, Copy)]
pub(crate) enum RunningSum {
    Untouched,
    Short(ShortFraction),
    Exact(Frac),
    TooWide,
}

// The least and the greatest number of 64 bits with a sign.
const LEAST: i128 = -0x8000_0000_0000_0000;

const MOST: i128 = 0x7fff_ffff_ffff_ffff;

// The powers of 10 below 2^63.
const TENS: [u64; 19] = [
    1,
    10,
    100,
    1000,
    10000,
    100000,
    1000000,
    10000000,
    100000000,
    1000000000,
    10000000000,
    100000000000,
    1000000000000,
    10000000000000,
    100000000000000,
    1000000000000000,
    10000000000000000,
    100000000000000000,
    1000000000000000000,
];

// A power of 10 below 2^63.
#[inline]
fn power_of_ten(times: u32) -> Option<u64>
    ensures { IfSome result (λ p. (p ≡ 10 ^ times) × (0 < p) × (p < 2 ^ 63)) }
{
    if times < 19 {
        return Some(TENS[times as usize]);
    }
    None
}

impl ShortFraction {
    // 0.
    #[tactic(auto, using(crate::proofs::ShortLemmas::zero_over))]
    pub(crate) fn zero() -> ShortFraction
        ensures { short_value result ≡ zero_ℚ }
    {
        ShortFraction { num: 0, den: 1 }
    }

    // The same number, where its parts have 64 bits with a sign.
    #[inline]
    pub(crate) fn of(number: Frac) -> Option<ShortFraction>
        ensures { IfSome result (λ l. short_value l ≡ frac_value number) }
    {
        let num = number.num();
        let den = number.den();
        if num < LEAST || num > MOST || den > MOST {
            return None;
        }
        Some(ShortFraction {
            num: num as i64,
            den: den as u64,
        })
    }

    // The same of a decimal, where it has no zeros before the point.
    #[inline]
    fn of_dec(number: Dec) -> Option<ShortFraction>
        ensures { IfSome result (λ l. short_value l ≡ dec_value number) }
    {
        let num = number.m();
        let e = number.e();
        if num < LEAST || num > MOST || e > 0 {
            return None;
        }
        let places = e.unsigned_abs() as u32;
        let den = power_of_ten(places)?;
        Some(ShortFraction {
            num: num as i64,
            den,
        })
    }

    // The same of a number as it is written.
    #[inline]
    pub(crate) fn of_number(number: &Number) -> Option<ShortFraction>
        ensures { IfSome result (λ l. short_value l ≡ number_value number.now) }
    {
        match number {
            Number::Decimal(number) => ShortFraction::of_dec(*number),
            Number::Fraction(number) => ShortFraction::of(*number),
        }
    }

    // The number as a fraction in lowest terms.
    pub(crate) fn reduced(self) -> Option<Frac>
        ensures { value_found result ≡ Some (short_value self) }
    {
        Frac::new(self.num as i128, self.den as i128)
    }

    // The number with the other sign, where it is short.
    fn negated(self) -> Option<ShortFraction>
        ensures { IfSome result (λ l. short_value l ≡ neg_ℚ (short_value self)) }
    {
        let num = self.num.checked_neg()?;
        Some(ShortFraction { num, den: self.den })
    }

    // The product, where it is short.
    #[inline]
    fn times(self, other: ShortFraction) -> Option<ShortFraction>
        ensures { IfSome result (λ l. short_value l ≡ short_value self *ℚ short_value other) }
    {
        let num = self.num.checked_mul(other.num)?;
        let den = self.den.checked_mul(other.den)?;
        if den > MOST as u64 {
            return None;
        }
        Some(ShortFraction { num, den })
    }

    // The same number over k times the denominator, where it is short.
    #[inline]
    #[tactic(auto, using(crate::proofs::ShortLemmas::factor_small, crate::proofs::ShortLemmas::scaled_same))]
    fn scaled(self, k: u64) -> Option<ShortFraction>
        requires above { 0 < k }
        requires small { self.den * k < 2 ^ 63 }
        ensures { IfSome result (λ l. (short_value l ≡ short_value self) × (l.den ≡ self.den * k)) }
    {
        let num = self.num.checked_mul(k as i64)?;
        Some(ShortFraction {
            num,
            den: self.den * k,
        })
    }

    // The difference over one denominator, where it is short.
    #[inline]
    #[tactic(auto, using(crate::proofs::ShortLemmas::difference_over))]
    fn less_over(self, other: ShortFraction) -> Option<ShortFraction>
        requires { other.den ≡ self.den }
        ensures { IfSome result (λ l. short_value l ≡ short_value self -ℚ short_value other) }
    {
        let num = self.num.checked_sub(other.num)?;
        Some(ShortFraction { num, den: self.den })
    }

    // The sum with the product, where it is short.
    #[inline]
    pub(crate) fn plus_product(
        self,
        factor: ShortFraction,
        number: ShortFraction,
    ) -> Option<ShortFraction>
        ensures { IfSome result (λ l. plus_product (short_value self) (short_value factor)
            (short_value number) ≡ Some (short_value l)) }
    {
        let negated = factor.negated()?;
        let part = negated.times(number)?;
        self.less(part)
    }

    // The difference, where one denominator is a multiple of the other and it is short.
    #[inline]
    fn less(self, other: ShortFraction) -> Option<ShortFraction>
        ensures { IfSome result (λ l. short_value l ≡ short_value self -ℚ short_value other) }
    {
        if self.den % other.den == 0 {
            let part = other.scaled(self.den / other.den)?;
            return self.less_over(part);
        }
        if other.den % self.den == 0 {
            let start = self.scaled(other.den / self.den)?;
            return start.less_over(other);
        }
        None
    }
}

// The number as a sum.
#[inline]
pub(crate) fn sum_of(number: Option<Frac>) -> RunningSum
    ensures { sum_value result ≡ value_found number }
{
    match number {
        Some(number) => match ShortFraction::of(number) {
            Some(short) => RunningSum::Short(short),
            None => RunningSum::Exact(number),
        },
        None => RunningSum::TooWide,
    }
}

// The same of a number as it is written.
#[inline]
#[tactic(auto, using(crate::proofs::Numbers::found))]
pub(crate) fn sum_of_number(number: &Number) -> RunningSum
    requires { fits (number_value number.now) ≡ true }
    ensures { sum_value result ≡ Some (number_value number.now) }
{
    match ShortFraction::of_number(number) {
        Some(short) => RunningSum::Short(short),
        None => sum_of(number.fraction()),
    }
}

impl RunningSum {
    // Whether nothing was added yet.
    pub(crate) fn is_untouched(&self) -> bool
        ensures { IsTrue result ↔ (self.now ≡ Untouched) }
    {
        match self {
            RunningSum::Untouched => true,
            _ => false,
        }
    }

    // The sum as a fraction in lowest terms.
    pub(crate) fn exact(&self) -> Option<Frac>
        ensures { value_found result ≡ sum_value self.now }
    {
        match self {
            RunningSum::Untouched => Some(Frac::zero()),
            RunningSum::Short(number) => number.reduced(),
            RunningSum::Exact(number) => Some(*number),
            RunningSum::TooWide => None,
        }
    }

    // The sum as a short fraction.
    fn short(&self) -> Option<ShortFraction>
        ensures { IfSome result (λ l. sum_value self.now ≡ Some (short_value l)) }
    {
        match self {
            RunningSum::Untouched => Some(ShortFraction::zero()),
            RunningSum::Short(number) => Some(*number),
            RunningSum::Exact(_) | RunningSum::TooWide => None,
        }
    }

    // Whether the sum is 0.
    #[tactic(auto, using(crate::proofs::ShortLemmas::zero_short))]
    fn is_zero(&self) -> bool
        ensures { IsTrue result ↔ (sum_value self.now ≡ Some zero_ℚ) }
    {
        match self {
            RunningSum::Untouched => true,
            RunningSum::Short(number) => number.num == 0,
            RunningSum::Exact(number) => number.is_zero(),
            RunningSum::TooWide => false,
        }
    }

    // Whether the sum is below 0.
    #[tactic(auto, using(crate::proofs::CostLemmas::zero_not_negative, crate::proofs::ShortLemmas::sign_over))]
    fn is_negative(&self) -> bool
        ensures { (d : ℚ) → sum_value self.now ≡ Some d → result ≡ int_lt d.top (pos 0) }
    {
        match self {
            RunningSum::Untouched => false,
            RunningSum::Short(number) => number.num < 0,
            RunningSum::Exact(number) => is_negative(*number),
            RunningSum::TooWide => false,
        }
    }

    // The sum less the product, in short fractions alone.
    #[inline]
    fn less_short(&self, weight: &RunningSum, factor: &Number) -> Option<ShortFraction>
        ensures { IfSome result (λ l. Some (short_value l)
            ≡ less_part (sum_value weight.now) (number_value factor.now) (sum_value self.now)) }
    {
        let start = self.short()?;
        let weight = weight.short()?;
        let factor = ShortFraction::of_number(factor)?;
        let part = weight.times(factor)?;
        start.less(part)
    }

    // The sum less the product, in fractions in lowest terms.
    fn less_exact(&self, weight: &RunningSum, factor: &Number) -> RunningSum
        requires { fits (number_value factor.now) ≡ true }
        ensures { sum_value result
            ≡ less_part (sum_value weight.now) (number_value factor.now) (sum_value self.now) }
    {
        let Some(factor) = factor.fraction() else {
            unreachable!();
        };
        match self.exact() {
            Some(start) => match weight.exact() {
                Some(number) => sum_of(less_product(start, number, factor)),
                None => RunningSum::TooWide,
            },
            None => RunningSum::TooWide,
        }
    }

    // Takes the product from the sum.
    pub(crate) fn lessen(&mut self, weight: &RunningSum, factor: &Number)
        requires { fits (number_value factor.now) ≡ true }
        ensures { sum_value self.new
            ≡ less_part (sum_value weight.now) (number_value factor.now) (sum_value self.old) }
    {
        match self.less_short(weight, factor) {
            Some(left) => *self = RunningSum::Short(left),
            None => *self = self.less_exact(weight, factor),
        }
    }

    // The sum with the other sign.
    fn negated(&self) -> RunningSum
        ensures { sum_value result ≡ option_map neg_ℚ (sum_value self.now) }
    {
        if let Some(short) = self.short() {
            if let Some(negated) = short.negated() {
                return RunningSum::Short(negated);
            }
        }
        match self.exact() {
            Some(number) => RunningSum::Exact(number.neg()),
            None => RunningSum::TooWide,
        }
    }

    // The fault of a variable with this cost, where this is the bound that it needs.
    #[tactic(auto, using(crate::proofs::Sweeps::no_fault_at_zero))]
    pub(crate) fn fault(&self, number: u32, side: &Option<Dec>) -> Option<Fault>
        ensures { (max : Bool) (i : Interval) → IsNeeded max i (sum_value self.now) side.now
            → cause_found result ≡ cost_check max i number (sum_value self.now) }
    {
        if let RunningSum::TooWide = self {
            return Some(Fault::TooWide(Spot::Cost(number)));
        }
        if self.is_zero() {
            return None;
        }
        match side {
            Some(_) => None,
            None => Some(Fault::BoundSideMissing(number)),
        }
    }

    // Whether the cost, or the bound that it needs, is 0.
    #[tactic(auto, using(crate::proofs::CostLemmas::no_part_of_side, crate::proofs::CostLemmas::no_part_of_zero))]
    pub(crate) fn has_no_part(&self, side: &Option<Dec>) -> bool
        ensures nothing { (max : Bool) (i : Interval) (s d : ℚ) → result ≡ true → fits s ≡ true
            → sum_value self.now ≡ Some d → IsNeeded max i (sum_value self.now) side.now
            → cost_part_of max i s d ≡ Some s }
        ensures some { result ≡ false → sum_value self.now ≢ Some zero_ℚ }
    {
        if self.is_zero() {
            return true;
        }
        match side {
            Some(number) => number.is_zero(),
            None => false,
        }
    }

    // Adds the part of a variable with this cost, where this is the bound that it needs.
    pub(crate) fn add_part(&mut self, cost: &RunningSum, side: &Option<Dec>)
        requires { sum_value cost.now ≢ Some zero_ℚ }
        ensures { (max : Bool) (i : Interval) → IsNeeded max i (sum_value cost.now) side.now
            → sum_value self.new
            ≡ option_and_then (λ s. option_and_then (cost_part_of max i s) (sum_value cost.now))
            (sum_value self.old) }
    {
        match side_fraction(*side) {
            Some(factor) => self.lessen(&cost.negated(), &Number::Fraction(factor)),
            None => *self = RunningSum::TooWide,
        }
    }
}

// The bound that a cost needs.
#[tactic(auto, using(crate::proofs::CostLemmas::needs, crate::proofs::Rows::side_read))]
pub(crate) fn needed_bound<'a>(
    cost: &RunningSum,
    maximise: bool,
    lo: &'a [Option<Dec>],
    hi: &'a [Option<Dec>],
    j: usize,
) -> &'a Option<Dec>
    requires lower { j < length lo.now }
    requires upper { j < length hi.now }
    ensures { IsNeeded maximise (bounds_in lo.now hi.now j) (sum_value cost.now) result.now }
{
    if maximise == cost.is_negative() {
        &lo[j]
    } else {
        &hi[j]
    }
}
