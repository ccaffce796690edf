// Words, numbers and ends of lines, written at the end of a text.
ghost use Rattle.std.specs.Prelude.{◌≡◌, ◌++◌, ◌∷◌, [], OnOk};
ghost use Rattle.std.specs.List.{flat_map};
ghost use Rattle.std.specs.Fmt.{decimal, signed_decimal};
ghost use Rattle.exact_numbers.specs.Values.{text_of};
ghost use Rattle.text_base.specs.WordLines.{line_text};

use crate::line_text::LineText;
use exact_numbers::Dec;
use itoa::Buffer;
use std::alloc::AllocError;

/// Writes the bytes of a text.
pub fn put(out: &mut Vec<u8>, text: &[u8]) -> Result<(), AllocError>
    ensures { OnOk result (out.new.items ≡ out.old.items ++ text.now) }
{
    out.extend_from_slice(text)?;
    Ok(())
}

/// Writes a number in digits.
pub fn put_number(out: &mut Vec<u8>, number: u64) -> Result<(), AllocError>
    ensures { OnOk result (out.new.items ≡ out.old.items ++ decimal number) }
{
    let mut digits = Buffer::new();
    put(out, digits.format(number).as_bytes())
}

/// Writes a number in digits, with `-` before one below 0.
pub fn put_signed(out: &mut Vec<u8>, number: i32) -> Result<(), AllocError>
    ensures { OnOk result (out.new.items ≡ out.old.items ++ signed_decimal number) }
{
    let mut digits = Buffer::new();
    put(out, digits.format(number).as_bytes())
}

/// Writes the one spelling of a decimal.
pub fn put_dec(out: &mut Vec<u8>, value: Dec) -> Result<(), AllocError>
    ensures { OnOk result (out.new.items ≡ out.old.items ++ text_of value) }
{
    let mut text = LineText::<128>::new();
    text.put_dec(value);
    put(out, text.bytes())
}

/// Writes a space and a word.
pub fn put_next(out: &mut Vec<u8>, word: &[u8]) -> Result<(), AllocError>
    ensures { OnOk result (out.new.items ≡ out.old.items ++ 32 ∷ word.now) }
{
    out.push(b' ')?;
    put(out, word)
}

/// Writes a space and a number.
pub fn put_next_number(out: &mut Vec<u8>, number: u64) -> Result<(), AllocError>
    ensures { OnOk result (out.new.items ≡ out.old.items ++ 32 ∷ decimal number) }
{
    out.push(b' ')?;
    put_number(out, number)
}

/// Writes numbers, with a space before each.
pub fn put_next_numbers(out: &mut Vec<u8>, numbers: &[u32]) -> Result<(), AllocError>
    ensures { OnOk result (out.new.items
        ≡ out.old.items ++ flat_map (λ n. 32 ∷ decimal n) numbers.now) }
{
    for number in numbers {
        put_next_number(out, *number as u64)?;
    }
    Ok(())
}

/// Writes a space and a number with its sign.
pub fn put_next_signed(out: &mut Vec<u8>, number: i32) -> Result<(), AllocError>
    ensures { OnOk result (out.new.items ≡ out.old.items ++ 32 ∷ signed_decimal number) }
{
    out.push(b' ')?;
    put_signed(out, number)
}

/// Writes a space and a decimal.
pub fn put_next_dec(out: &mut Vec<u8>, value: Dec) -> Result<(), AllocError>
    ensures { OnOk result (out.new.items ≡ out.old.items ++ 32 ∷ text_of value) }
{
    let mut text = LineText::<128>::new();
    text.put_dec(value);
    text.put_byte(b' ');
    put(out, text.bytes())
}

/// Ends a line.
pub fn put_end(out: &mut Vec<u8>) -> Result<(), AllocError>
    ensures { OnOk result (out.new.items ≡ out.old.items ++ 10 ∷ []) }
{
    out.push(b'\n')?;
    Ok(())
}

/// Writes a line of one word.
pub fn put_line(out: &mut Vec<u8>, word: &[u8]) -> Result<(), AllocError>
    ensures { OnOk result (out.new.items ≡ out.old.items ++ line_text (word.now ∷ [])) }
{
    put(out, word)?;
    put_end(out)
}
