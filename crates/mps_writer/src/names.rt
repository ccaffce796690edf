// The names of rows and columns in lines.
ghost use Rattle.std.specs.Prelude.{◌≡◌, ◌+◌, ◌≤◌, ◌++◌, length};
ghost use Rattle.mps_writer.specs.Names.{name_bytes};

use written_texts::LineText;

/// A name in a line: its bytes, or a letter and a number.
#[derive(Clone, Copy)]
pub enum MpsName<'a> {
    Word(&'a [u8]),
    Numbered(u8, u32),
}

/// Writes a name in front.
pub fn put_name<const ROOM: usize>(line: &mut LineText<ROOM>, name: &MpsName)
    requires { length line.old + length (name_bytes name.now) ≤ ROOM }
    ensures { line.new ≡ name_bytes name.now ++ line.old }
{
    match name {
        MpsName::Word(word) => line.put_word(word),
        MpsName::Numbered(letter, number) => {
            line.put_number(*number as u64);
            line.put_byte(*letter);
        }
    }
}
