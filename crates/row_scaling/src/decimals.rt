// The decimals of fractions.
ghost use Rattle.std.specs.Prelude.{◌≡◌, ◌*◌, ◌^◌, ◌*ℤ◌, ◌<◌, ◌≤◌, IfSome, Some, pos, true, unsigned_abs};
ghost use Rattle.exact_numbers.specs.Rational.{◌*ℚ◌, above_zero, below_zero, one_ℚ};
ghost use Rattle.exact_numbers.specs.Values.{dec_value, frac_value, IsDecOf};
ghost use Rattle.scaled_program.specs.Factor.{cofactor_of};
ghost use Rattle.row_scaling.specs.Fitting.{NumberFits};

use exact_numbers::{Dec, Frac};

// A denominator times this number is a power of ten, whose exponent has the other sign.
#[derive(Clone, Copy)]
struct Unit {
    scale: u64,
    exponent: i32,
}

fn made_unit(scale: u64, exponent: i32) -> Option<Unit>
    ensures { result ≡ Some (record { scale = scale; exponent = exponent }) }
{
    Some(Unit { scale, exponent })
}

// The least power of ten that a denominator divides, where it has at most six zeros.
fn unit_of(den: u64) -> Option<Unit>
    ensures unit { IfSome result (λ u. den * u.scale ≡ 10 ^ below_zero u.exponent) }
    ensures whole { IfSome result (λ u. above_zero u.exponent ≡ 0) }
    ensures few { IfSome result (λ u. u.scale ≤ 10 ^ 6) }
{
    match den {
        1 => made_unit(1, 0),
        2 => made_unit(5, -1),
        4 => made_unit(25, -2),
        5 => made_unit(2, -1),
        8 => made_unit(125, -3),
        10 => made_unit(1, -1),
        16 => made_unit(625, -4),
        20 => made_unit(5, -2),
        25 => made_unit(4, -2),
        32 => made_unit(3125, -5),
        40 => made_unit(25, -3),
        50 => made_unit(2, -2),
        64 => made_unit(15625, -6),
        80 => made_unit(125, -4),
        100 => made_unit(1, -2),
        125 => made_unit(8, -3),
        160 => made_unit(625, -5),
        200 => made_unit(5, -3),
        250 => made_unit(4, -3),
        320 => made_unit(3125, -6),
        400 => made_unit(25, -4),
        500 => made_unit(2, -3),
        625 => made_unit(16, -4),
        800 => made_unit(125, -5),
        1000 => made_unit(1, -3),
        1250 => made_unit(8, -4),
        1600 => made_unit(625, -6),
        2000 => made_unit(5, -4),
        2500 => made_unit(4, -4),
        3125 => made_unit(32, -5),
        4000 => made_unit(25, -5),
        5000 => made_unit(2, -4),
        6250 => made_unit(16, -5),
        8000 => made_unit(125, -6),
        10000 => made_unit(1, -4),
        12500 => made_unit(8, -5),
        15625 => made_unit(64, -6),
        20000 => made_unit(5, -5),
        25000 => made_unit(4, -5),
        31250 => made_unit(32, -6),
        40000 => made_unit(25, -6),
        50000 => made_unit(2, -5),
        62500 => made_unit(16, -6),
        100000 => made_unit(1, -5),
        125000 => made_unit(8, -6),
        200000 => made_unit(5, -6),
        250000 => made_unit(4, -6),
        500000 => made_unit(2, -6),
        1000000 => made_unit(1, -6),
        _ => None,
    }
}

// The size of a denominator that unit_of knows at most.
const MOST: i128 = 1_000_000;

// The size of a numerator that may be multiplied by a scale.
const LARGEST: i128 = 9_223_372_036_854_775_807;

// The unit of the number's denominator.
#[inline]
fn unit_over(number: Frac) -> Option<Unit>
    ensures unit { IfSome result
        (λ u. (frac_value number).bottom * u.scale ≡ 10 ^ below_zero u.exponent) }
    ensures whole { IfSome result (λ u. above_zero u.exponent ≡ 0) }
    ensures few { IfSome result (λ u. u.scale ≤ 10 ^ 6) }
{
    let den = number.den();
    if den > MOST {
        return None;
    }
    unit_of(den as u64)
}

/// Whether the number has few places behind the point: it is a finite decimal then.
#[inline]
pub(crate) fn has_few_places(number: Frac) -> bool
    ensures { result ≡ true → cofactor_of (frac_value number).bottom ≡ 1 }
{
    match unit_over(number) {
        Some(_) => true,
        None => false,
    }
}

/// Whether the number is 1.
#[inline]
pub(crate) fn is_one(number: Frac) -> bool
    ensures { result ≡ true → frac_value number ≡ one_ℚ }
{
    number.num() == 1 && number.den() == 1
}

// a * b, by one multiplication of 64 bits.
fn small_product(a: i64, b: i64) -> i128
    ensures value { result ≡ a *ℤ b }
    ensures small { unsigned_abs result < 2 ^ 127 }
{
    a as i128 * b as i128
}

// The decimal of a number that has few places behind the point; none for others.
fn short_decimal(number: Frac) -> Option<Dec>
    ensures { IfSome result (λ d. dec_value d ≡ frac_value number) }
{
    let Some(unit) = unit_over(number) else {
        return None;
    };
    let num = number.num();
    if num > LARGEST || num < -LARGEST {
        return None;
    }
    let mantissa = small_product(num as i64, unit.scale as i64);
    Dec::new(mantissa, unit.exponent)
}

// How many times a number's denominator goes into a whole factor; none where it does not, and for
// large ones.
#[inline]
fn times_in(number: Frac, factor: Frac) -> Option<u64>
    ensures whole { IfSome result (λ _. (frac_value factor).bottom ≡ 1) }
    ensures times { IfSome result
        (λ k. (frac_value factor).top ≡ pos ((frac_value number).bottom * k)) }
    ensures few { IfSome result (λ k. k < 2 ^ 63) }
{
    let times = factor.num();
    let den = number.den();
    if factor.den() != 1 || times < 0 || times > LARGEST || den > LARGEST {
        return None;
    }
    let size = times as u64;
    let part = den as u64;
    if size % part != 0 {
        return None;
    }
    Some(size / part)
}

/// A number times a whole factor that its denominator divides; none of some others.
#[inline]
pub(crate) fn whole_product(number: Frac, factor: Frac) -> Option<Dec>
    ensures { IfSome result
        (λ d. NumberFits (frac_value factor) (frac_value number)
        × (dec_value d ≡ frac_value factor *ℚ frac_value number)) }
{
    let Some(times) = times_in(number, factor) else {
        return None;
    };
    let num = number.num();
    if num > LARGEST || num < -LARGEST {
        return None;
    }
    let mantissa = small_product(num as i64, times as i64);
    Dec::new(mantissa, 0)
}

/// The decimal of the same value; none exactly where no Dec has it.
pub(crate) fn decimal_of(number: Frac) -> Option<Dec>
    ensures { IsDecOf result (frac_value number) }
{
    match short_decimal(number) {
        Some(decimal) => Some(decimal),
        None => number.to_dec(),
    }
}
