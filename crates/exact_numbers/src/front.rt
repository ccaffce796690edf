// Numbers of the common form at the front of a text.
ghost use Rattle.std.specs.Prelude.{◌≡◌, ◌<◌, ◌≤◌, ◌≤ℤ◌, ◌+◌, ◌-◌, ◌*◌, ◌^◌, neg_ℤ, pos, IfSome, Some, length, take};
ghost use Rattle.std.specs.Str.Parse.{AllDigits, digits_value_after};
ghost use Rattle.exact_numbers.specs.Decimal.{signed};
ghost use Rattle.exact_numbers.specs.InsideFront.{IsPlain, IsPower, IsFrontDec};
ghost use Rattle.exact_numbers.specs.Numbers.{dec_of, whole_of, IsUnmarked};
ghost use Rattle.exact_numbers.specs.Text.{begins_minus, after_sign, is_mark};
ghost use Rattle.exact_numbers.specs.Values.{dec_value};
ghost use Rattle.exact_numbers.specs.Rational.{decimal_value};

use crate::dec::Dec;

#[inline]
pub(crate) fn has_minus(text: &[u8]) -> bool
    ensures { result ≡ begins_minus text.now }
{
    match text {
        [b'-', ..] => true,
        _ => false,
    }
}

#[inline]
pub(crate) fn without_sign(text: &[u8]) -> &[u8]
    ensures { result.now ≡ after_sign text.now }
{
    match text {
        [b'+' | b'-', rest @ ..] => rest,
        _ => text,
    }
}

// So many digits fit in 64 bits.
pub(crate) const MOST_DIGITS: usize = 18;

// The digits that a text begins with, as many as there is room for.
#[derive(Clone, Copy)]
pub(crate) struct Front {
    pub(crate) number: u64,
    pub(crate) len: usize,
}

// Sums the digits that a text begins with onto a number, at most so many.
#[inline(always)]
pub(crate) fn sum_front(text: &[u8], start: u64, most: usize) -> Front
    requires { (start + 1) * 10 ^ most ≤ 10 ^ 18 }
    ensures within { result.len ≤ length text.now }
    ensures few { result.len ≤ most }
    ensures small { (result.number + 1) * 10 ^ (most - result.len) ≤ 10 ^ 18 }
    ensures digits { AllDigits 10 (take result.len text.now) }
    ensures number { result.number ≡ digits_value_after 10 start (take result.len text.now) }
{
    let end = text.len().min(most);
    let mut number = start;
    let mut len = 0;
    'digits: while len < end {
        let byte = text[len];
        if !byte.is_ascii_digit() {
            return Front { number, len };
        }
        number = number * 10 + (byte - b'0') as u64;
        len += 1;
    }
    Front { number, len }
}

// A size with this many places after the point, and how many bytes say so.
#[derive(Clone, Copy)]
struct Plain {
    negative: bool,
    size: u64,
    places: u32,
    len: usize,
}

// The number without an exponent that a text begins with: digits with one point among them or
// none. Each byte is read once.
#[inline(always)]
fn front_plain(text: &[u8]) -> Option<Plain>
    ensures { IfSome result (λ p. IsPlain text.now p.negative p.size p.places p.len) }
{
    let body = without_sign(text);
    let sign = text.len() - body.len();
    let negative = has_minus(text);
    let whole = sum_front(body, 0, MOST_DIGITS);
    if whole.len == 0 {
        return None;
    }
    if whole.len >= body.len() || body[whole.len] != b'.' {
        return Some(Plain {
            negative,
            size: whole.number,
            places: 0,
            len: sign + whole.len,
        });
    }
    let fraction = body.split_at(whole.len + 1).1;
    let front = sum_front(fraction, whole.number, MOST_DIGITS - whole.len);
    Some(Plain {
        negative,
        size: front.number,
        places: front.len as u32,
        len: sign + whole.len + 1 + front.len,
    })
}

/// The decimal of the digits that a text begins with, and how many bytes it has.
#[derive(Clone, Copy)]
pub struct FrontDec {
    pub value: Dec,
    pub len: usize,
}

// So many digits of an exponent are read.
const MOST_OF_POWER: usize = 3;

// Powers of ten of the common form are at most so large.
const MOST_POWER: i16 = 300;

// An exponent, and how many bytes say so.
#[derive(Clone, Copy)]
struct Power {
    value: i16,
    len: usize,
}

// A size of at most three digits with a sign.
fn signed_power(negative: bool, size: u64) -> i16
    requires { size < 1000 }
    ensures { result ≡ signed negative size }
{
    if negative {
        -(size as i16)
    } else {
        size as i16
    }
}

// The exponent of few digits that a text begins with, behind its mark.
#[cold]
#[inline(never)]
fn front_power(text: &[u8]) -> Option<Power>
    ensures { IfSome result (λ x. IsPower text.now x.value x.len) }
{
    let body = without_sign(text);
    let front = sum_front(body, 0, MOST_OF_POWER);
    if front.len == 0 {
        return None;
    }
    Some(Power {
        value: signed_power(has_minus(text), front.number),
        len: text.len() - body.len() + front.len,
    })
}

// Whether a byte is the mark of an exponent.
#[inline(always)]
fn is_mark(byte: u8) -> bool
    ensures { result ≡ is_mark byte }
{
    byte == b'e' || byte == b'E'
}

// The power of ten of the number that a text begins with, of which what stands before a mark is
// known, and how many bytes that number has.
#[inline(always)]
fn whole_power(text: &[u8], plain: Plain) -> Option<Power>
    requires { IsPlain text.now plain.negative plain.size plain.places plain.len }
    ensures low { IfSome result (λ x. neg_ℤ (pos 300) ≤ℤ x.value) }
    ensures high { IfSome result (λ x. x.value ≤ℤ pos 300) }
    ensures is { IfSome result (λ x. (d : Dec)
        → dec_value d ≡ decimal_value (signed plain.negative plain.size) x.value
        → IsFrontDec text.now d x.len) }
{
    if plain.len >= text.len() || !is_mark(text[plain.len]) {
        return Some(Power {
            value: -(plain.places as i16),
            len: plain.len,
        });
    }
    let Some(power) = front_power(text.split_at(plain.len + 1).1) else {
        return None;
    };
    let sum = power.value - plain.places as i16;
    if sum < -MOST_POWER || sum > MOST_POWER {
        return None;
    }
    Some(Power {
        value: sum,
        len: plain.len + 1 + power.len,
    })
}

// The number of the common form that a text begins with: few digits with one point among them or
// none, and an exponent or none.
#[inline(always)]
pub(crate) fn front_number(text: &[u8]) -> Option<FrontDec>
    ensures { IfSome result (λ d. IsFrontDec text.now d.value d.len) }
{
    let Some(plain) = front_plain(text) else {
        return None;
    };
    let Some(power) = whole_power(text, plain) else {
        return None;
    };
    Some(FrontDec {
        value: Dec::of_few(plain.negative, plain.size, power.value),
        len: power.len,
    })
}

/// The decimal number of the common form that a text begins with; none of some other texts.
#[inline(always)]
pub fn front_dec(text: &[u8]) -> Option<FrontDec>
    ensures { IfSome result (λ d. (d.len ≤ length text.now) × (0 < d.len) × (d.len ≤ 40)
        × (dec_of (take d.len text.now) ≡ Some d.value) × IsUnmarked (take d.len text.now)) }
{
    front_number(text)
}

// The largest whole number that is read.
const LARGEST: u64 = 0x7fff_ffff;

/// The whole number of the digits that a text begins with, and how many they are.
#[derive(Clone, Copy)]
pub struct PlainIndex {
    pub number: u32,
    pub len: usize,
}

/// The digits that a text begins with, where they are a whole number of the common form; none of
/// some other texts.
#[inline]
pub fn plain_index(text: &[u8]) -> Option<PlainIndex>
    ensures { IfSome result (λ i. (i.len ≤ length text.now) × (0 < i.len)
        × (whole_of (take i.len text.now) ≡ Some i.number) × IsUnmarked (take i.len text.now)
        × (i.len ≤ 18)) }
{
    let front = sum_front(text, 0, MOST_DIGITS);
    if front.len == 0 || front.number > LARGEST {
        return None;
    }
    Some(PlainIndex {
        number: front.number as u32,
        len: front.len,
    })
}
