// Sums and products of fractions whose parts have 64 bits, where a division costs little and a product needs no test.
ghost use Rattle.std.specs.Prelude.{◌≡◌, pos, ◌+◌, ◌*◌, ◌/◌, ◌<◌, ◌≤◌, ◌^◌, true, IfSome, unsigned_abs, ◌*ℤ◌};
ghost use Rattle.exact_numbers.specs.Rational.{◌+ℚ◌, ◌*ℚ◌};
ghost use Rattle.exact_numbers.specs.Values.{frac_value, fits, sum_fits};

use crate::arithmetic::{paired, small_product};
use crate::frac::Frac;
use crate::gcd::small_gcd;
use crate::mantissa::WORD;

// The least and the greatest number of 64 bits with a sign.
const LEAST: i128 = -0x8000_0000_0000_0000;

const MOST: i128 = 0x7fff_ffff_ffff_ffff;

// A numerator and a denominator above 0.
#[derive(Clone, Copy)]
struct Short {
    num: i64,
    den: u64,
}

// a * b, by one multiplication of 64 bits.
#[inline]
fn signed_product(a: i64, b: u64) -> i128
    requires { b < 2 ^ 63 }
    ensures value { result ≡ a *ℤ pos b }
    ensures bounded { unsigned_abs result < 2 ^ 126 }
{
    a as i128 * b as i128
}

// a / b, with no division by 1.
#[inline]
fn divided(a: u64, b: u64) -> u64
    requires { 0 < b }
    ensures { result ≡ a / b }
{
    if b == 1 { a } else { a / b }
}

impl Frac {
    // The parts, where both are numbers of 64 bits with a sign.
    #[inline]
    fn short(self) -> Option<Short>
        ensures { IfSome result (λ s. (s.num ≡ self.num) × (s.den ≡ self.den) × (s.den < 2 ^ 63)) }
    {
        if self.num < LEAST || self.num > MOST || self.den > MOST as u128 {
            return None;
        }
        Some(Short {
            num: self.num as i64,
            den: self.den as u64,
        })
    }

    // The product; none of some other fractions.
    #[inline]
    pub(crate) fn mul_short(self, other: Frac) -> Option<Frac>
        ensures { IfSome result (λ f. (fits (frac_value self *ℚ frac_value other) ≡ true)
            × (frac_value f ≡ frac_value self *ℚ frac_value other)) }
    {
        let a = self.short()?;
        let b = other.short()?;
        let size = a.num.unsigned_abs();
        let other_size = b.num.unsigned_abs();
        let first = small_gcd(size, b.den);
        let second = small_gcd(other_size, a.den);
        let num = small_product(divided(size, first), divided(other_size, second));
        let den = small_product(divided(a.den, second), divided(b.den, first));
        Some(paired((a.num < 0) != (b.num < 0), num, den))
    }

    // The sum; none of some other fractions.
    #[inline]
    pub(crate) fn add_short(self, other: Frac) -> Option<Frac>
        ensures { IfSome result (λ f. (sum_fits (frac_value self) (frac_value other) ≡ true)
            × (frac_value f ≡ frac_value self +ℚ frac_value other)) }
    {
        let a = self.short()?;
        let b = other.short()?;
        let common = small_gcd(a.den, b.den);
        let scale = divided(b.den, common);
        let other_scale = divided(a.den, common);
        let sum = signed_product(a.num, scale) + signed_product(b.num, other_scale);
        let size = sum.unsigned_abs();
        if size > WORD {
            return None;
        }
        let part = small_gcd(size as u64, common);
        let num = divided(size as u64, part);
        let den = small_product(other_scale, divided(b.den, part));
        Some(paired(sum < 0, num as u128, den))
    }
}
