ghost use Rattle.std.specs.Prelude.{◌≡◌, ℕ, pos, ◌*◌, ◌<◌, ◌≤◌, ◌^◌, unsigned_abs};
ghost use Rattle.std.specs.Ordering.{nat_cmp, int_cmp};
ghost use Rattle.exact_numbers.specs.Rational.{above_zero, below_zero};
ghost use Rattle.exact_numbers.specs.Values.{dec_value, frac_value, order_of};

use crate::dec::Dec;
use crate::frac::Frac;
use crate::of_dec::grown;
use std::cmp::Ordering;

// The order of a / b and c / d, by whole parts and then by the remainders in turn.
fn order_of_sizes(a: u128, b: u128, c: u128, d: u128) -> Ordering
    requires first { 0 < b }
    requires second { 0 < d }
    ensures { result ≡ nat_cmp (a * d) (c * b) }
{
    let mut top = a;
    let mut bottom = b;
    let mut other_top = c;
    let mut other_bottom = d;
    loop {
        let whole = top / bottom;
        let other_whole = other_top / other_bottom;
        if whole != other_whole {
            return whole.cmp(&other_whole);
        }
        let rest = top % bottom;
        let other_rest = other_top % other_bottom;
        if rest == 0 || other_rest == 0 {
            return rest.cmp(&other_rest);
        }
        top = other_bottom;
        other_top = bottom;
        bottom = other_rest;
        other_bottom = rest;
    }
}

impl Frac {
    /// The order of the values.
    pub fn order(self, other: Frac) -> Ordering
        ensures { result ≡ order_of (frac_value self) (frac_value other) }
    {
        if self.num < 0 && other.num < 0 {
            order_of_sizes(
                other.num.unsigned_abs(),
                other.den,
                self.num.unsigned_abs(),
                self.den,
            )
        } else if self.num < 0 {
            Ordering::Less
        } else if other.num < 0 {
            Ordering::Greater
        } else {
            order_of_sizes(
                self.num.unsigned_abs(),
                self.den,
                other.num.unsigned_abs(),
                other.den,
            )
        }
    }
}

// The order of a * 10 ^ e and b * 10 ^ f.
fn order_of_scaled(a: u128, e: i16, b: u128, f: i16) -> Ordering
    requires first { a < 2 ^ 127 }
    requires second { b < 2 ^ 127 }
    requires exponent { unsigned_abs e ≤ 400 }
    requires other_exponent { unsigned_abs f ≤ 400 }
    ensures { result ≡ nat_cmp (a * 10 ^ above_zero e * 10 ^ below_zero f)
        (b * 10 ^ above_zero f * 10 ^ below_zero e) }
{
    if e >= f {
        match grown(a, 10, (e - f) as u32) {
            Some(size) => size.cmp(&b),
            None => Ordering::Greater,
        }
    } else {
        match grown(b, 10, (f - e) as u32) {
            Some(size) => a.cmp(&size),
            None => Ordering::Less,
        }
    }
}

impl Dec {
    /// The order of the values.
    pub fn order(self, other: Dec) -> Ordering
        ensures { result ≡ order_of (dec_value self) (dec_value other) }
    {
        let m = self.m();
        let n = other.m();
        if m < 0 {
            if n < 0 {
                order_of_scaled(n.unsigned_abs(), other.e(), m.unsigned_abs(), self.e())
            } else {
                Ordering::Less
            }
        } else if n < 0 {
            Ordering::Greater
        } else {
            order_of_scaled(m.unsigned_abs(), self.e(), n.unsigned_abs(), other.e())
        }
    }
}
