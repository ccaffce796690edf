// The bounds of the columns.
ghost use Rattle.std.specs.Prelude.{◌≡◌, ◌<◌, ◌≤◌, ◌++◌, ◌∷◌, length, OnOk, map, codes, All};
ghost use Rattle.mps_model.specs.Built.{bound_of};
ghost use Rattle.mps_model.specs.Text.{bound_line, bound_text, value_words, section};
ghost use Rattle.exact_numbers.specs.Values.{text_of};
ghost use Rattle.text_base.specs.WordLines.{indented, line_text, lines_text, unless_empty};

use crate::lines::put_bound;
use crate::names::MpsName;
use exact_numbers::Dec;
use mps_model::{BoundKind, MpsColumn};
use std::alloc::AllocError;
use written_texts::{LineText, put, put_line};

// Appends the line of a bound, by way of the room of a line.
fn append_bound(
    out: &mut Vec<u8>,
    line: &mut LineText<1024>,
    column: &[u8],
    kind: BoundKind,
    value: Dec,
) -> Result<(), AllocError>
    requires { length column.now ≤ 255 }
    ensures { OnOk result (out.new.items ≡ out.old.items ++ line_text
        (indented (bound_text kind ∷ codes "BND" ∷ column.now
        ∷ value_words kind (text_of value)))) }
{
    line.clear();
    put_bound(line, &MpsName::Word(column), kind, value);
    put(out, line.bytes())
}

fn put_bound_lines(
    out: &mut Vec<u8>,
    line: &mut LineText<1024>,
    columns: &[MpsColumn],
    bounds: &[(BoundKind, u32, Dec)],
) -> Result<(), AllocError>
    requires { All (λ t. t.1 < length columns.now) bounds.now }
    ensures { OnOk result (out.new.items ≡ out.old.items ++ lines_text
        (map (bound_line text_of columns.now) (map bound_of bounds.now))) }
{
    for bound in bounds {
        let name = columns[bound.1 as usize].name();
        append_bound(out, line, name.bytes(), bound.0, bound.2)?;
    }
    Ok(())
}

// The bounds; nothing where there is none.
pub(crate) fn put_bounds(
    out: &mut Vec<u8>,
    line: &mut LineText<1024>,
    columns: &[MpsColumn],
    bounds: &[(BoundKind, u32, Dec)],
) -> Result<(), AllocError>
    requires { All (λ t. t.1 < length columns.now) bounds.now }
    ensures { OnOk result (out.new.items ≡ out.old.items ++ lines_text (unless_empty bounds.now
        (section (codes "BOUNDS")
        ∷ map (bound_line text_of columns.now) (map bound_of bounds.now)))) }
{
    if bounds.is_empty() {
        return Ok(());
    }
    put_line(out, b"BOUNDS")?;
    put_bound_lines(out, line, columns, bounds)
}
