ghost use Rattle.std.specs.Prelude.{◌≡◌, ◌≢◌, ℕ, ◌+◌, ◌*◌, ◌%◌, ◌<◌, ◌≤◌, ◌≤ℤ◌, ◌^◌, MatchOption, SomeIff, unsigned_abs, neg_ℤ, pos, IsTrue, ◌↔◌, ◌*ℤ◌};
ghost use Rattle.exact_numbers.specs.Rational.{whole, zero_ℚ, ◌*ℚ◌, ◌<ℚ◌, neg_ℚ, decimal_value, IsWhole};
ghost use Rattle.exact_numbers.specs.Decimal.{signed};
ghost use Rattle.exact_numbers.specs.Values.{dec_value, exponent_of, mantissa_of, IsDecOf, IsInReach};

use crate::dec::Dec;

/// The greatest size of a mantissa, a numerator and a denominator: 2^127 - 1.
pub const MAXN: i128 = i128::MAX;

// The same without a sign.
pub(crate) const MAX_SIZE: u128 = 0x7fff_ffff_ffff_ffff_ffff_ffff_ffff_ffff;

// The greatest number of 64 bits.
pub(crate) const WORD: u128 = 0xffff_ffff_ffff_ffff;

// A number without the zeros at its end, and how many there were.
#[derive(Clone, Copy)]
struct Stripped {
    rest: u128,
    zeros: u32,
}

// The same in 64 bits, where a division costs little.
fn strip_few(n: u64) -> Stripped
    requires above { 0 < n }
    ensures whole { n ≡ result.rest * 10 ^ result.zeros }
    ensures shortest { result.rest % 10 ≢ 0 }
    ensures few { result.zeros < 39 }
{
    let mut rest = n;
    let mut zeros = 0;
    while rest % 10 == 0 {
        rest /= 10;
        zeros += 1;
    }
    Stripped {
        rest: rest as u128,
        zeros,
    }
}

fn strip_zeros(n: u128) -> Stripped
    requires above { 0 < n }
    requires small { n ≤ 2 ^ 127 }
    ensures whole { n ≡ result.rest * 10 ^ result.zeros }
    ensures shortest { result.rest % 10 ≢ 0 }
    ensures few { result.zeros < 39 }
{
    if n <= WORD {
        return strip_few(n as u64);
    }
    let mut rest = n;
    let mut zeros = 0;
    while rest % 10 == 0 {
        rest /= 10;
        zeros += 1;
    }
    Stripped { rest, zeros }
}

pub(crate) fn with_sign(negative: bool, size: u128) -> i128
    requires { size < 2 ^ 127 }
    ensures { result ≡ signed negative size }
{
    if negative {
        -(size as i128)
    } else {
        size as i128
    }
}

// a * b, where its size is within the greatest.
fn bounded_product(a: i128, b: i128) -> Option<i128>
    ensures { SomeIff result (unsigned_abs (a *ℤ b) < 2 ^ 127) (a *ℤ b) }
{
    match a.checked_mul(b) {
        Some(product) if product != i128::MIN => Some(product),
        _ => None,
    }
}

impl Dec {
    /// 0.
    pub fn zero() -> Dec
        ensures { dec_value result ≡ zero_ℚ }
    {
        Dec::of_parts(0, 0)
    }

    /// The Dec of a whole number.
    pub fn of_whole(n: i64) -> Dec
        ensures { dec_value result ≡ whole n }
    {
        Dec::of_few(n < 0, n.unsigned_abs(), 0)
    }

    // The Dec of a sign and a size of 64 bits, times a power of ten.
    #[inline]
    pub(crate) fn of_few(negative: bool, size: u64, power: i16) -> Dec
        requires low { neg_ℤ (pos 300) ≤ℤ power }
        requires high { power ≤ℤ pos 300 }
        ensures { dec_value result ≡ decimal_value (signed negative size) power }
    {
        if size == 0 {
            return Dec::zero();
        }
        let stripped = strip_few(size);
        Dec::of_parts(
            with_sign(negative, stripped.rest),
            stripped.zeros as i16 + power,
        )
    }

    /// Whether this is 0.
    pub fn is_zero(self) -> bool
        ensures { IsTrue result ↔ (dec_value self ≡ zero_ℚ) }
    {
        self.m() == 0
    }

    /// Whether this is below 0.
    pub fn is_negative(self) -> bool
        ensures { IsTrue result ↔ (dec_value self <ℚ zero_ℚ) }
    {
        self.m() < 0
    }

    /// The Dec of the value m * 10 ^ e; none exactly where there is none.
    pub fn new(m: i128, e: i32) -> Option<Dec>
        ensures { IsDecOf result (decimal_value m e) }
    {
        if m == 0 {
            return Some(Dec::of_parts(0, 0));
        }
        let stripped = strip_zeros(m.unsigned_abs());
        let exponent = e as i64 + stripped.zeros as i64;
        if stripped.rest > MAX_SIZE || exponent < -400 || exponent > 400 {
            return None;
        }
        Some(Dec::of_parts(with_sign(m < 0, stripped.rest), exponent as i16))
    }

    /// The mantissa, whose last digit is not 0 unless this is 0.
    pub fn m(self) -> i128
        ensures { result ≡ mantissa_of self }
    {
        self.words.whole()
    }

    /// The exponent of ten, from -400 to 400.
    pub fn e(self) -> i16
        ensures { result ≡ exponent_of self }
    {
        self.e
    }

    /// The same size with the other sign.
    pub fn neg(self) -> Dec
        ensures { dec_value result ≡ neg_ℚ (dec_value self) }
    {
        Dec::of_parts(-self.m(), self.e())
    }

    /// Whether this is a whole number.
    pub fn is_whole(self) -> bool
        ensures { IsTrue result ↔ IsWhole (dec_value self) }
    {
        self.e() >= 0
    }

    /// The product with k; none exactly where the product of the mantissa and k is out of range, or
    /// no Dec has the value.
    pub fn times(self, k: i128) -> Option<Dec>
        ensures { MatchOption result (IsInReach self k → ⊥)
            (λ d. IsInReach self k × (dec_value d ≡ dec_value self *ℚ whole k)) }
    {
        let Some(product) = bounded_product(self.m(), k) else {
            return None;
        };
        Dec::new(product, self.e() as i32)
    }
}
