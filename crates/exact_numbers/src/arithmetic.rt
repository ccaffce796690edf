ghost use Rattle.std.specs.Prelude.{◌≡◌, ◌≢◌, ℕ, pos, ◌+◌, ◌*◌, ◌%◌, ◌<◌, ◌≤◌, ◌^◌, ◌⊎◌, true, false, MatchOption, unsigned_abs, neg_ℤ, IsTrue, ◌↔◌, SomeIff, ◌*ℤ◌, ◌+ℤ◌, ◌<ℤ◌};
ghost use Rattle.exact_numbers.specs.Decimal.{signed};
ghost use Rattle.exact_numbers.specs.Rational.{over, zero_ℚ, one_ℚ, ◌+ℚ◌, ◌-ℚ◌, ◌*ℚ◌, ◌<ℚ◌, neg_ℚ, inverse_of};
ghost use Rattle.exact_numbers.specs.Fraction.{IsFrac, IsLcm};
ghost use Rattle.exact_numbers.specs.Values.{frac_value, IsFracWhere, IsFracOf, IsQuotientOf, sum_fits, quotient};

use crate::frac::Frac;
use crate::gcd::gcd;
use crate::mantissa::{MAX_SIZE, WORD, with_sign};

// The fraction of a sign, a numerator's size and a denominator.
fn reduced(negative: bool, num: u128, den: u128) -> Option<Frac>
    requires { 0 < den }
    ensures { IsFracOf result (over (signed negative num) den) }
{
    let common = gcd(num, den);
    let size = num / common;
    let parts = den / common;
    if size > MAX_SIZE || parts > MAX_SIZE {
        return None;
    }
    Some(Frac {
        num: with_sign(negative, size),
        den: parts,
    })
}

// The pair of a sign, a numerator's size and a denominator that is reduced already.
pub(crate) fn paired(negative: bool, num: u128, den: u128) -> Frac
    requires { IsFrac (signed negative num) den }
    ensures numerator { result.num ≡ signed negative num }
    ensures denominator { result.den ≡ den }
{
    Frac {
        num: with_sign(negative, num),
        den,
    }
}

// a * b, by one multiplication of 64 bits.
#[inline]
pub(crate) fn small_product(a: u64, b: u64) -> u128
    ensures { result ≡ a * b }
{
    a as u128 * b as u128
}

// a * b, where it is within the greatest size.
pub(crate) fn bounded_product(a: u128, b: u128) -> Option<u128>
    ensures { SomeIff result (a * b < 2 ^ 127) (a * b) }
{
    if a <= WORD / 2 && b <= WORD {
        return Some(small_product(a as u64, b as u64));
    }
    match a.checked_mul(b) {
        Some(product) if product <= MAX_SIZE => Some(product),
        _ => None,
    }
}

// n * k, where its size is within the greatest.
fn scaled_up(n: i128, k: u128) -> Option<i128>
    ensures { SomeIff result (unsigned_abs (n *ℤ pos k) < 2 ^ 127) (n *ℤ pos k) }
{
    match bounded_product(n.unsigned_abs(), k) {
        Some(size) => Some(with_sign(n < 0, size)),
        None => None,
    }
}

// a + b, where its size is within the greatest.
fn bounded_sum(a: i128, b: i128) -> Option<i128>
    ensures { SomeIff result (unsigned_abs (a +ℤ b) < 2 ^ 127) (a +ℤ b) }
{
    match a.checked_add(b) {
        Some(sum) if sum != i128::MIN => Some(sum),
        _ => None,
    }
}

impl Frac {
    /// The fraction num / den; none where den is 0 or the pair in lowest terms does not fit.
    pub fn new(num: i128, den: i128) -> Option<Frac>
        ensures { IsQuotientOf (den ≡ pos 0) result (quotient num den) }
    {
        if den == 0 {
            return None;
        }
        reduced(
            (num < 0) != (den < 0),
            num.unsigned_abs(),
            den.unsigned_abs(),
        )
    }

    /// 0.
    pub fn zero() -> Frac
        ensures { frac_value result ≡ zero_ℚ }
    {
        paired(false, 0, 1)
    }

    /// 1.
    pub fn one() -> Frac
        ensures { frac_value result ≡ one_ℚ }
    {
        paired(false, 1, 1)
    }

    /// The numerator in lowest terms, with the sign.
    pub fn num(self) -> i128
        ensures { result ≡ (frac_value self).top }
    {
        self.num
    }

    /// The denominator in lowest terms, above 0.
    pub fn den(self) -> i128
        ensures { result ≡ pos (frac_value self).bottom }
    {
        self.den as i128
    }

    /// The same size with the other sign.
    pub fn neg(self) -> Frac
        ensures { frac_value result ≡ neg_ℚ (frac_value self) }
    {
        Frac {
            num: -self.num,
            den: self.den,
        }
    }

    /// Whether this is 0.
    pub fn is_zero(self) -> bool
        ensures { IsTrue result ↔ (frac_value self ≡ zero_ℚ) }
    {
        self.num == 0
    }

    /// Whether this is below 0.
    pub fn is_negative(self) -> bool
        ensures { IsTrue result ↔ (frac_value self <ℚ zero_ℚ) }
    {
        self.num < 0
    }

    // Whether this is 1.
    fn is_one(self) -> bool
        ensures { result ≡ true → frac_value self ≡ one_ℚ }
    {
        self.num == 1 && self.den == 1
    }

    // The sum of whole numbers, with no division.
    fn add_whole(self, other: Frac) -> Option<Frac>
        requires first { self.den ≡ 1 }
        requires second { other.den ≡ 1 }
        ensures { IsFracWhere (sum_fits (frac_value self) (frac_value other)) result
            (frac_value self +ℚ frac_value other) }
    {
        let Some(sum) = bounded_sum(self.num, other.num) else {
            return None;
        };
        Some(Frac { num: sum, den: 1 })
    }

    // The product of whole numbers, with no division.
    fn mul_whole(self, other: Frac) -> Option<Frac>
        requires first { self.den ≡ 1 }
        requires second { other.den ≡ 1 }
        ensures { IsFracOf result (frac_value self *ℚ frac_value other) }
    {
        let Some(size) = bounded_product(self.num.unsigned_abs(), other.num.unsigned_abs()) else {
            return None;
        };
        Some(paired((self.num < 0) != (other.num < 0), size, 1))
    }

    /// The product; none exactly where it does not fit. Sizes are cancelled crosswise first, so
    /// that no larger number is formed.
    pub fn mul(self, other: Frac) -> Option<Frac>
        ensures { IsFracOf result (frac_value self *ℚ frac_value other) }
    {
        if self.is_one() {
            return Some(other);
        }
        if let Some(product) = self.mul_short(other) {
            return Some(product);
        }
        if self.den == 1 && other.den == 1 {
            return self.mul_whole(other);
        }
        if other.is_one() {
            return Some(self);
        }
        self.mul_parts(other)
    }

    // The product of parts that are cancelled crosswise.
    fn mul_parts(self, other: Frac) -> Option<Frac>
        ensures { IsFracOf result (frac_value self *ℚ frac_value other) }
    {
        let size = self.num.unsigned_abs();
        let other_size = other.num.unsigned_abs();
        let first = gcd(size, other.den);
        let second = gcd(other_size, self.den);
        let Some(num) = bounded_product(size / first, other_size / second) else {
            return None;
        };
        let Some(den) = bounded_product(self.den / second, other.den / first) else {
            return None;
        };
        Some(paired((self.num < 0) != (other.num < 0), num, den))
    }

    /// The sum; none exactly where a part of it over the least common denominator is out of range.
    pub fn add(self, other: Frac) -> Option<Frac>
        ensures { IsFracWhere (sum_fits (frac_value self) (frac_value other)) result
            (frac_value self +ℚ frac_value other) }
    {
        if self.is_zero() {
            return Some(other);
        }
        if other.is_zero() {
            return Some(self);
        }
        if let Some(sum) = self.add_short(other) {
            return Some(sum);
        }
        if self.den == 1 && other.den == 1 {
            return self.add_whole(other);
        }
        self.add_parts(other)
    }

    // The sum over the least common denominator.
    fn add_parts(self, other: Frac) -> Option<Frac>
        ensures { IsFracWhere (sum_fits (frac_value self) (frac_value other)) result
            (frac_value self +ℚ frac_value other) }
    {
        let common = gcd(self.den, other.den);
        let scale = other.den / common;
        let other_scale = self.den / common;
        let Some(den) = bounded_product(self.den, scale) else {
            return None;
        };
        let Some(first) = scaled_up(self.num, scale) else {
            return None;
        };
        let Some(second) = scaled_up(other.num, other_scale) else {
            return None;
        };
        let Some(sum) = bounded_sum(first, second) else {
            return None;
        };
        reduced(sum < 0, sum.unsigned_abs(), den)
    }

    /// The difference; none exactly where a part of it over the least common denominator is out of
    /// range.
    pub fn sub(self, other: Frac) -> Option<Frac>
        ensures { IsFracWhere (sum_fits (frac_value self) (neg_ℚ (frac_value other))) result
            (frac_value self -ℚ frac_value other) }
    {
        self.add(other.neg())
    }

    /// One divided by a number that is not 0.
    pub fn reciprocal(self) -> Frac
        requires { frac_value self ≢ zero_ℚ }
        ensures { frac_value result ≡ inverse_of (frac_value self) }
    {
        paired(self.num < 0, self.den, self.num.unsigned_abs())
    }

    /// The quotient; none exactly where the divisor is 0 or it does not fit.
    pub fn div(self, other: Frac) -> Option<Frac>
        ensures { IsQuotientOf (frac_value other ≡ zero_ℚ) result
            (frac_value self *ℚ inverse_of (frac_value other)) }
    {
        if other.num == 0 {
            return None;
        }
        self.mul(other.reciprocal())
    }
}

/// The least common multiple of two numbers above 0; none where it is above 2 ^ 127 - 1.
pub fn lcm(a: i128, b: i128) -> Option<i128>
    requires first { pos 0 <ℤ a }
    requires second { pos 0 <ℤ b }
    ensures { MatchOption result ((m : ℕ) → IsLcm (unsigned_abs a) (unsigned_abs b) m → 2 ^ 127 ≤ m)
        (λ m. (pos 0 <ℤ m) × IsLcm (unsigned_abs a) (unsigned_abs b) (unsigned_abs m)) }
{
    let size = a.unsigned_abs();
    let other = b.unsigned_abs();
    let common = gcd(size, other);
    match bounded_product(size, other / common) {
        Some(multiple) => Some(multiple as i128),
        None => None,
    }
}
