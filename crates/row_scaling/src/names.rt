// The names of rows and columns.
ghost use Rattle.std.specs.Prelude.{◌≡◌, ◌≤◌, ◌∷◌, length, IfOk};
ghost use Rattle.std.specs.Fmt.{decimal};
ghost use Rattle.mps_writer.specs.Names.{name_bytes};
ghost use Rattle.text_base.specs.Names.{IsName};
ghost use Rattle.row_scaling.specs.InsideColumns.{column_in};
ghost use Rattle.row_scaling.specs.Parts.{name_in};

use mps_writer::{MpsName, put_name};
use std::alloc::{AllocError, Global};
use text_base::Name;
use written_texts::LineText;

// The name with the bytes of one in a line.
pub(crate) fn name_of(alloc: Global, name: &MpsName) -> Result<Name, AllocError>
    requires { IsName (name_bytes name.now) }
    ensures { IfOk result (λ made. made ≡ name_bytes name.now) }
{
    let mut text = LineText::<256>::new();
    put_name(&mut text, name);
    Name::tested(alloc, text.bytes())
}

// A letter and a number.
pub(crate) fn numbered(letter: u8, number: u32) -> MpsName<'static>
    ensures text { name_bytes result ≡ letter ∷ decimal number }
    ensures short { length (name_bytes result) ≤ 11 }
{
    MpsName::Numbered(letter, number)
}

// The name of row i, where the row after those of n constraints is that of a tie.
pub(crate) fn row_name(n: usize, i: u32) -> MpsName<'static>
    ensures text { name_bytes result ≡ name_in n i }
    ensures short { length (name_bytes result) ≤ 11 }
{
    if i as usize == n {
        MpsName::Word(b"zdef")
    } else {
        numbered(b'c', i)
    }
}

// The name of column j, where the column after n variables is that of a tie.
pub(crate) fn column_name(n: usize, j: u32) -> MpsName<'static>
    ensures text { name_bytes result ≡ column_in n j }
    ensures short { length (name_bytes result) ≤ 11 }
{
    if j as usize == n {
        MpsName::Word(b"z")
    } else {
        numbered(b'x', j)
    }
}
