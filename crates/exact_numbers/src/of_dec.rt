ghost use Rattle.std.specs.Prelude.{◌≡◌, ◌≢◌, ℕ, ◌+◌, ◌-◌, ◌*◌, ◌%◌, ◌^◌, ◌<◌, ◌≤◌, MatchOption, SomeIff, IfSome, true, false, pos, ◌<ℤ◌, unsigned_abs};
ghost use Rattle.exact_numbers.specs.Fraction.{IsCofactor};
ghost use Rattle.exact_numbers.specs.Values.{dec_value, fits, frac_value, IsDecOf, IsFracOf};

use crate::arithmetic::{bounded_product, paired};
use crate::dec::Dec;
use crate::frac::Frac;
use crate::mantissa::{WORD, with_sign};

// The powers of 5 that are numbers of 64 bits.
const FIVES: [u64; 28] = [
    1,
    5,
    25,
    125,
    625,
    3125,
    15625,
    78125,
    390625,
    1953125,
    9765625,
    48828125,
    244140625,
    1220703125,
    6103515625,
    30517578125,
    152587890625,
    762939453125,
    3814697265625,
    19073486328125,
    95367431640625,
    476837158203125,
    2384185791015625,
    11920928955078125,
    59604644775390625,
    298023223876953125,
    1490116119384765625,
    7450580596923828125,
];

// A power of 2 or of 5 of 64 bits, with no multiplication.
#[inline]
fn small_power(factor: u128, times: u32) -> Option<u64>
    ensures { IfSome result (λ p. p ≡ factor ^ times) }
{
    if factor == 2 && times < 64 {
        return Some(1 << times);
    }
    if factor == 5 && times < 28 {
        return Some(FIVES[times as usize]);
    }
    None
}

// start * factor ^ times, where it is within the greatest size.
#[inline]
pub(crate) fn grown(start: u128, factor: u128, times: u32) -> Option<u128>
    requires small { start < 2 ^ 127 }
    requires above { 0 < factor }
    ensures { SomeIff result (start * factor ^ times < 2 ^ 127) (start * factor ^ times) }
{
    match small_power(factor, times) {
        Some(power) => bounded_product(start, power as u128),
        None => grown_by(start, factor, times),
    }
}

// The same, by one multiplication after the other.
fn grown_by(start: u128, factor: u128, times: u32) -> Option<u128>
    requires small { start < 2 ^ 127 }
    requires above { 0 < factor }
    ensures { SomeIff result (start * factor ^ times < 2 ^ 127) (start * factor ^ times) }
{
    let mut number = start;
    for _ in 0..times {
        match bounded_product(number, factor) {
            Some(next) => number = next,
            None => return None,
        }
    }
    Some(number)
}

// A number divided by a factor again and again, and how many of the divisions are left.
#[derive(Clone, Copy)]
struct Cancelled {
    rest: u128,
    left: u32,
}

// The same in 64 bits, where a division costs little.
#[inline]
fn cancel_few(n: u64, factor: u64, times: u32) -> Cancelled
    requires { 1 < factor }
    ensures within { result.left ≤ times }
    ensures whole { n ≡ result.rest * factor ^ (times - result.left) }
    ensures shortest { 0 < result.left → result.rest % factor ≢ 0 }
{
    let mut rest = n;
    let mut left = times;
    while left > 0 && rest % factor == 0 {
        rest /= factor;
        left -= 1;
    }
    Cancelled {
        rest: rest as u128,
        left,
    }
}

#[inline]
fn cancel(n: u128, factor: u64, times: u32) -> Cancelled
    requires { 1 < factor }
    ensures within { result.left ≤ times }
    ensures whole { n ≡ result.rest * factor ^ (times - result.left) }
    ensures shortest { 0 < result.left → result.rest % factor ≢ 0 }
{
    if n <= WORD {
        return cancel_few(n as u64, factor, times);
    }
    let wide = factor as u128;
    let mut rest = n;
    let mut left = times;
    while left > 0 && rest % wide == 0 {
        rest /= wide;
        left -= 1;
    }
    Cancelled { rest, left }
}

// Below this a mantissa times 10 ^ 19 is in range; so is 10 ^ 38.
const FEW: u128 = 0x8000_0000_0000_0000;

impl Dec {
    /// Whether a fraction has the same value.
    pub fn has_fraction(self) -> bool
        ensures { result ≡ fits (dec_value self) }
    {
        let e = self.e();
        if self.m().unsigned_abs() < FEW && e >= -38 && e <= 19 {
            return true;
        }
        Frac::of_dec(self).is_some()
    }
}

impl Frac {
    /// The fraction that a decimal number is; none exactly where it does not fit.
    pub fn of_dec(d: Dec) -> Option<Frac>
        ensures { IsFracOf result (dec_value d) }
    {
        let m = d.m();
        let e = d.e();
        if e == 0 {
            return Some(Frac { num: m, den: 1 });
        }
        let size = m.unsigned_abs();
        let negative = m < 0;
        if e >= 0 {
            let Some(num) = grown(size, 10, e as u32) else {
                return None;
            };
            return Some(paired(negative, num, 1));
        }
        let places = e.unsigned_abs() as u32;
        let twos = cancel(size, 2, places);
        let fives = cancel(twos.rest, 5, places);
        let Some(even) = grown(1, 2, twos.left) else {
            return None;
        };
        let Some(den) = grown(even, 5, fives.left) else {
            return None;
        };
        Some(paired(negative, fives.rest, den))
    }

    /// The greatest divisor of the denominator that is prime to 10.
    pub fn cofactor(self) -> i128
        ensures above { pos 0 <ℤ result }
        ensures cofactor { IsCofactor (frac_value self).bottom (unsigned_abs result) }
    {
        let odd = cancel(self.den, 2, 127);
        let rest = cancel(odd.rest, 5, 127);
        rest.rest as i128
    }

    /// The decimal number of the same value; none exactly where no Dec has it.
    pub fn to_dec(self) -> Option<Dec>
        ensures { IsDecOf result (frac_value self) }
    {
        if self.den == 1 {
            return Dec::new(self.num, 0);
        }
        let twos = cancel(self.den, 2, 127);
        let fives = cancel(twos.rest, 5, 127);
        if fives.rest != 1 {
            return None;
        }
        let even = 127 - twos.left;
        let odd = 127 - fives.left;
        let places = even.max(odd);
        let Some(first) = grown_by(self.num.unsigned_abs(), 2, places - even) else {
            return None;
        };
        let Some(size) = grown_by(first, 5, places - odd) else {
            return None;
        };
        Dec::new(with_sign(self.num < 0, size), -(places as i32))
    }
}
