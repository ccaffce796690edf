ghost use Rattle.std.specs.Prelude.{◌≡◌, ◌≢◌, ℕ, ℤ, pos, ◌+◌, ◌-◌, ◌*◌, ◌%◌, ◌<◌, ◌≤◌, ◌^◌, ◌++◌, ◌-ℤ◌, ◌≤ℤ◌, neg_ℤ, length, drop, take, min, MatchOption, MatchResult, SomeIff, IfSome, IsTrue, ◌↔◌, slice_index};
ghost use Rattle.std.specs.List.{before_first, after_first, position_or_len};
ghost use Rattle.std.specs.Str.Parse.{AllDigits, digits_value, digits_value_after};
ghost use Rattle.exact_numbers.specs.Rational.{decimal_value};
ghost use Rattle.exact_numbers.specs.Decimal.{signed};
ghost use Rattle.exact_numbers.specs.Values.{dec_value, IsDecOf};
ghost use Rattle.exact_numbers.specs.Text.{begins_minus, after_sign, is_mark, is_point, IsExponent, exponent_value, IsDecText, text_value, DecFault, IsCapped, cap, IsWholeText, WholeFault};
ghost use Rattle.exact_numbers.specs.Numbers.{IsUnmarked};

use crate::dec::Dec;
use crate::front::{MOST_DIGITS, front_number, has_minus, sum_front, without_sign};
use crate::mantissa::{MAX_SIZE, with_sign};
use std::fmt;

/// Why a text is no number that can be held.
#[derive(Clone, Copy, PartialEq, Eq, Debug)]
pub enum NumFault {
    /// The text is not of the form of a number.
    NotNumber,
    /// The text is a number that is out of range.
    TooWide,
}

impl NumFault {
    ghost use Rattle.exact_numbers.specs.Reasons.{number_fault_text};

    /// What is said of it.
    pub fn text(self) -> &'static str
        ensures text { result.now ≡ number_fault_text self }
        ensures brief { length result.now ≤ 24 }
    {
        match self {
            NumFault::NotNumber => "bad number",
            NumFault::TooWide => "too wide",
        }
    }
}

impl fmt::Display for NumFault {
    ghost use Rattle.std.specs.Prelude.{Some};
    ghost use Rattle.exact_numbers.specs.Reasons.{number_fault_text};

    ghost output = { λ fault. Some (number_fault_text fault) };

    fn fmt<W: fmt::Write>(&self, f: &mut fmt::Formatter<W>) -> fmt::Result {
        f.write_str(self.text())
    }
}

// Exponents are read up to this size, and larger ones as if they were it.
const CAP: u128 = 0x1_0000_0000_0000_0000_0000;

fn mark_place(text: &[u8]) -> usize
    ensures place { result ≡ position_or_len is_mark text.now }
    ensures within { result ≤ length text.now }
{
    for (place, b) in text.iter().enumerate() {
        if *b == b'e' || *b == b'E' {
            return place;
        }
    }
    text.len()
}

fn point_place(text: &[u8]) -> usize
    ensures place { result ≡ position_or_len is_point text.now }
    ensures within { result ≤ length text.now }
{
    for (place, b) in text.iter().enumerate() {
        if *b == b'.' {
            return place;
        }
    }
    text.len()
}

// What stands after a place, or nothing where that is the end.
fn after_place(text: &[u8], place: usize) -> &[u8]
    requires { place ≤ length text.now }
    ensures { result.now ≡ drop (place + 1) text.now }
{
    if place < text.len() {
        &text[place + 1..]
    } else {
        &text[place..]
    }
}

fn are_digits(text: &[u8]) -> bool
    ensures { IsTrue result ↔ AllDigits 10 text.now }
{
    for b in text {
        if !b.is_ascii_digit() {
            return false;
        }
    }
    true
}

// How many digits stand before the zeros at the end.
fn kept_length(digits: &[u8]) -> usize
    ensures within { result ≤ length digits.now }
    ensures zeros { (k : ℕ) → result ≤ k → k < length digits.now → slice_index digits.now k ≡ 48 }
    ensures shortest { 0 < result → slice_index digits.now (result - 1) ≢ 48 }
{
    let mut kept = digits.len();
    while kept > 0 && digits[kept - 1] == b'0' {
        kept -= 1;
    }
    kept
}

// How many digits before the point stand before zeros alone, where `after` digits after the point
// do.
fn kept_before(whole: &[u8], after: usize) -> usize
    ensures within { result ≤ length whole.now }
    ensures zeros { (k : ℕ) → result ≤ k → k < length whole.now → slice_index whole.now k ≡ 48 }
    ensures shortest { after ≡ 0 → 0 < result → slice_index whole.now (result - 1) ≢ 48 }
    ensures all { 0 < after → result ≡ length whole.now }
{
    if after == 0 {
        kept_length(whole)
    } else {
        whole.len()
    }
}

// The number with one more digit, where it is within the greatest size. Nothing is divided.
fn with_digit(number: u128, digit: u8) -> Option<u128>
    requires small { number < 2 ^ 127 }
    requires digit { digit < 10 }
    ensures { SomeIff result (number * 10 + digit < 2 ^ 127) (number * 10 + digit) }
{
    if number > MAX_SIZE / 10 {
        return None;
    }
    let next = number * 10 + digit as u128;
    if next > MAX_SIZE {
        return None;
    }
    Some(next)
}

// The number `start` with more digits, where it is within the greatest size.
fn with_digits(start: u128, digits: &[u8]) -> Option<u128>
    requires digits { AllDigits 10 digits.now }
    requires small { start < 2 ^ 127 }
    ensures { SomeIff result (digits_value_after 10 start digits.now < 2 ^ 127)
        (digits_value_after 10 start digits.now) }
{
    let mut number = start;
    for b in digits {
        let digit = *b - b'0';
        let Some(next) = with_digit(number, digit) else {
            return None;
        };
        number = next;
    }
    Some(number)
}

// The number of the digits, or the cap where it is larger.
fn capped_number(digits: &[u8]) -> u128
    requires { AllDigits 10 digits.now }
    ensures { result ≡ min (digits_value 10 digits.now) cap }
{
    let mut number: u128 = 0;
    for b in digits {
        number = (number * 10 + (*b - b'0') as u128).min(CAP);
    }
    number
}

// The exponent that stands after a mantissa, with its mark; 0 where nothing stands there.
fn read_exponent(text: &[u8]) -> Option<i128>
    ensures { MatchOption result (IsExponent text.now → ⊥)
        (λ x. IsExponent text.now × IsCapped x (exponent_value text.now)) }
{
    let [_, rest @ ..] = text else {
        return Some(0);
    };
    let digits = without_sign(rest);
    if digits.is_empty() || !are_digits(digits) {
        return None;
    }
    Some(with_sign(has_minus(rest), capped_number(digits)))
}

// The Dec of a sign, digits before and after the point, and an exponent.
fn dec_of_digits(negative: bool, whole: &[u8], fraction: &[u8], exponent: i128) -> Option<Dec>
    requires whole { AllDigits 10 whole.now }
    requires fraction { AllDigits 10 fraction.now }
    requires low { neg_ℤ (pos cap) ≤ℤ exponent }
    requires high { exponent ≤ℤ pos cap }
    ensures { IsDecOf result
        (decimal_value (signed negative (digits_value 10 (whole.now ++ fraction.now)))
        (exponent -ℤ pos (length fraction.now))) }
{
    let fraction_kept = kept_length(fraction);
    let whole_kept = kept_before(whole, fraction_kept);
    let Some(front) = with_digits(0, &whole[..whole_kept]) else {
        return None;
    };
    let Some(size) = with_digits(front, &fraction[..fraction_kept]) else {
        return None;
    };
    if size == 0 {
        return Dec::new(0, 0);
    }
    let place = exponent - fraction_kept as i128 + (whole.len() - whole_kept) as i128;
    if place < -1000 || place > 1000 {
        return None;
    }
    Dec::new(with_sign(negative, size), place as i32)
}

/// The number of a decimal text; too wide exactly where the text is one and no Dec has its value.
pub fn read_dec(text: &[u8]) -> Result<Dec, NumFault>
    ensures { MatchResult result (λ d. IsDecText text.now × (dec_value d ≡ text_value text.now))
        (λ f. DecFault f text.now) }
{
    match front_number(text) {
        Some(front) if front.len == text.len() => Ok(front.value),
        _ => read_any(text),
    }
}

// A number of any form.
fn read_any(text: &[u8]) -> Result<Dec, NumFault>
    ensures { MatchResult result (λ d. IsDecText text.now × (dec_value d ≡ text_value text.now))
        (λ f. DecFault f text.now) }
{
    let body = without_sign(text);
    let mark = mark_place(body);
    let mantissa = &body[..mark];
    let point = point_place(mantissa);
    let whole = &mantissa[..point];
    let fraction = after_place(mantissa, point);
    if whole.len() + fraction.len() == 0 {
        return Err(NumFault::NotNumber);
    }
    if !are_digits(whole) || !are_digits(fraction) {
        return Err(NumFault::NotNumber);
    }
    let Some(exponent) = read_exponent(&body[mark..]) else {
        return Err(NumFault::NotNumber);
    };
    match dec_of_digits(has_minus(text), whole, fraction, exponent) {
        Some(number) => Ok(number),
        None => Err(NumFault::TooWide),
    }
}

/// The whole number that digits alone are, up to 2 ^ 31 - 1.
pub fn read_whole(text: &[u8]) -> Result<u32, NumFault>
    ensures { MatchResult result
        (λ n. IsWholeText text.now × (n ≡ digits_value 10 text.now) × (n < 2 ^ 31))
        (λ f. WholeFault f text.now) }
{
    let front = sum_front(text, 0, MOST_DIGITS);
    if front.len == 0 || front.len < text.len() {
        return read_any_whole(text);
    }
    if front.number > 0x7fff_ffff {
        return Err(NumFault::TooWide);
    }
    Ok(front.number as u32)
}

// A whole number of any length.
fn read_any_whole(text: &[u8]) -> Result<u32, NumFault>
    ensures { MatchResult result
        (λ n. IsWholeText text.now × (n ≡ digits_value 10 text.now) × (n < 2 ^ 31))
        (λ f. WholeFault f text.now) }
{
    if text.is_empty() || !are_digits(text) {
        return Err(NumFault::NotNumber);
    }
    let number = capped_number(text);
    if number > 0x7fff_ffff {
        return Err(NumFault::TooWide);
    }
    Ok(number as u32)
}
