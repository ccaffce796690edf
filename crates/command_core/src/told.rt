// The parts of the lines that are written or told. The line of a refusal is made from its end to
// its front, and needs no memory.
ghost use Rattle.std.specs.Prelude.{◌≡◌, ◌+◌, ◌≤◌, ◌++◌, codes, length, OnOk};
ghost use Rattle.std.specs.Fmt.{decimal, signed_decimal};
ghost use Rattle.command_core.specs.Told.{file_text, refusal, refused_at};

use crate::refused::Refusal;
use itoa::Buffer;
use std::alloc::AllocError;
use written_texts::LineText;

/// Appends a text to a line.
pub fn put(line: &mut Vec<u8>, text: &[u8]) -> Result<(), AllocError>
    ensures { OnOk result (line.new.items ≡ line.old.items ++ text.now) }
{
    line.extend_from_slice(text)?;
    Ok(())
}

/// Puts a whole number in front.
pub fn put_number(line: &mut LineText<128>, number: u32)
    requires { length line.old ≤ 100 }
    ensures text { line.new ≡ decimal number ++ line.old }
    ensures short { length line.new ≤ length line.old + 10 }
{
    let mut digits = Buffer::new();
    line.put_word(digits.format(number).as_bytes());
}

/// Puts a whole number with its sign in front.
pub fn put_signed(line: &mut LineText<128>, number: i32)
    requires { length line.old ≤ 100 }
    ensures text { line.new ≡ signed_decimal number ++ line.old }
    ensures short { length line.new ≤ length line.old + 11 }
{
    let mut digits = Buffer::new();
    line.put_word(digits.format(number).as_bytes());
}

// Puts the file of a fault in front; the first file is not named.
fn put_file(line: &mut LineText<128>, file: u32)
    requires { length line.old ≤ 90 }
    ensures text { line.new ≡ file_text file ++ line.old }
    ensures short { length line.new ≤ length line.old + 16 }
{
    if file > 1 {
        line.put_word(b" ");
        put_number(line, file);
        line.put_word(b"file ");
    }
}

/// Puts how a refusal begins in front: the file, at what, and its number.
pub fn put_refused_at(line: &mut LineText<128>, file: u32, what: &[u8], number: u32)
    requires room { length line.old ≤ 60 }
    requires brief { length what.now ≤ 9 }
    ensures { line.new ≡ refused_at file what.now number ++ line.old }
{
    line.put_word(b": ");
    put_number(line, number);
    line.put_word(b" ");
    line.put_word(what);
    put_file(line, file);
    line.put_word(b"refused ");
}

/// The line of a refusal of this file.
pub fn refusal(file: u32, what: &[u8], number: u32, text: &str) -> Refusal
    requires what { length what.now ≤ 9 }
    requires text { length text.now ≤ 24 }
    ensures { result.line ≡ refusal file what.now number text.now }
{
    let mut line = LineText::new();
    line.put_word(b"\n");
    line.put_word(text.as_bytes());
    put_refused_at(&mut line, file, what, number);
    Refusal { line }
}

/// The refusal of what has no number.
pub fn refusal_of(what: &str, text: &str) -> Refusal
    requires what { length what.now ≤ 20 }
    requires text { length text.now ≤ 24 }
    ensures { result.line ≡ codes "refused " ++ what.now ++ codes ": " ++ text.now ++ codes "\n" }
{
    let mut line = fixed(b"\n");
    line.put_word(text.as_bytes());
    line.put_word(b": ");
    line.put_word(what.as_bytes());
    line.put_word(b"refused ");
    Refusal { line }
}

/// A line that is always the same.
pub fn fixed(text: &[u8]) -> LineText<128>
    requires { length text.now ≤ 128 }
    ensures { result ≡ text.now }
{
    let mut line = LineText::new();
    line.put_word(text);
    line
}
