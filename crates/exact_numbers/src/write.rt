ghost use Rattle.std.specs.Prelude.{◌≡◌, ℕ, ℤ, ◌+◌, ◌-◌, ◌<◌, ◌≤◌, List, [], ◌∷◌, ◌++◌, length, take, unsigned_abs};
ghost use Rattle.exact_numbers.specs.Values.{frac_value, text_of};
ghost use Rattle.exact_numbers.specs.Written.{zeros, with_point, padded, scaled_text, frac_text};

use crate::dec::Dec;
use crate::frac::Frac;
use crate::num_text::NumText;
use itoa::Buffer;
use std::fmt;

// The digits with a point before the last `places` of them, and zeros in front so that one digit
// stands before it.
fn append_with_point(out: &mut NumText, digits: &[u8], places: usize)
    requires digits { length digits.now ≤ 40 }
    requires places { places ≤ 40 }
    requires room { length out.old ≤ 1 }
    ensures { out.new ≡ out.old ++ with_point places (padded places digits.now) }
{
    if digits.len() > places {
        let point = digits.len() - places;
        out.append(&digits[..point]);
        out.push(b'.');
        out.append(&digits[point..]);
    } else {
        out.push(b'0');
        out.push(b'.');
        out.append_zeros(places - digits.len());
        out.append(digits);
    }
}

// The digits times 10 ^ e.
fn append_scaled(out: &mut NumText, digits: &[u8], e: i16)
    requires digits { length digits.now ≤ 40 }
    requires exponent { unsigned_abs e ≤ 400 }
    requires room { length out.old ≤ 1 }
    ensures { out.new ≡ out.old ++ scaled_text digits.now e }
{
    if e >= 0 && e <= 20 {
        out.append(digits);
        out.append_zeros(e as usize);
    } else if e < 0 && e >= -38 {
        append_with_point(out, digits, -e as usize);
    } else {
        out.append(digits);
        out.push(b'e');
        let mut buffer = Buffer::new();
        out.append(buffer.format(e).as_bytes());
    }
}

impl Dec {
    /// Replaces the text by the one spelling of this number.
    pub fn write_to(self, out: &mut NumText)
        ensures { out.new ≡ text_of self }
    {
        out.clear();
        if self.m() < 0 {
            out.push(b'-');
        }
        let mut buffer = Buffer::new();
        append_scaled(
            out,
            buffer.format(self.m().unsigned_abs()).as_bytes(),
            self.e(),
        );
    }
}

impl Frac {
    /// Replaces the text by the numerator, and a denominator other than 1 after a slash.
    pub fn write_to(self, out: &mut NumText)
        ensures { out.new ≡ frac_text (frac_value self).top (frac_value self).bottom }
    {
        out.clear();
        let mut buffer = Buffer::new();
        out.append(buffer.format(self.num).as_bytes());
        if self.den != 1 {
            out.push(b'/');
            let mut den_buffer = Buffer::new();
            out.append(den_buffer.format(self.den).as_bytes());
        }
    }
}

impl fmt::Display for Frac {
    ghost use Rattle.std.specs.Prelude.{Some};

    ghost output = { λ x. Some (frac_text (frac_value x).top (frac_value x).bottom) };

    fn fmt<W: fmt::Write>(&self, f: &mut fmt::Formatter<W>) -> fmt::Result {
        let num = self.num;
        let den = self.den;
        if den == 1 {
            write!(f, "{num}")
        } else {
            write!(f, "{num}/{den}")
        }
    }
}
