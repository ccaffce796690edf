// Lines of entries.
ghost use Rattle.std.specs.Prelude.{◌≡◌, ◌<◌, ◌≤◌, ◌++◌, ◌∷◌, [], length, IfOk, OnOk, map, codes, All};
ghost use Rattle.mps_model.specs.Built.{entry_of};
ghost use Rattle.mps_model.specs.Text.{entry_lines, section};
ghost use Rattle.exact_numbers.specs.Values.{text_of};
ghost use Rattle.text_base.specs.Names.{IsName};
ghost use Rattle.text_base.specs.WordLines.{indented, line_text, lines_text, unless_empty};

use crate::lines::put_entry;
use crate::names::MpsName;
use exact_numbers::Dec;
use mps_model::MpsRow;
use std::alloc::{AllocError, Global};
use text_base::TextLines;
use written_texts::{LineText, put, put_line};

// Appends the line of an entry, by way of the room of a line.
fn append_entry(
    out: &mut Vec<u8>,
    line: &mut LineText<1024>,
    word: &[u8],
    row: &[u8],
    value: Dec,
) -> Result<(), AllocError>
    requires word { length word.now ≤ 255 }
    requires row { length row.now ≤ 255 }
    ensures { OnOk result (out.new.items
        ≡ out.old.items ++ line_text (indented (word.now ∷ row.now ∷ text_of value ∷ []))) }
{
    line.clear();
    put_entry(line, &MpsName::Word(word), &MpsName::Word(row), value);
    put(out, line.bytes())
}

// The names of rows in one list of bytes: entries of columns come to them in no order.
pub(crate) fn row_names(alloc: Global, rows: &[MpsRow]) -> Result<TextLines, AllocError>
    ensures { IfOk result (λ names. names ≡ map (λ r. r.name) rows.now) }
{
    let mut names = TextLines::new(alloc);
    for row in rows {
        names.push(row.name.bytes())?;
    }
    Ok(names)
}

// The lines of entries, in rows of these names.
pub(crate) fn put_entries(
    out: &mut Vec<u8>,
    line: &mut LineText<1024>,
    _rows: &[MpsRow],
    names: &TextLines,
    word: &[u8],
    entries: &[(u32, Dec)],
) -> Result<(), AllocError>
    requires word { length word.now ≤ 255 }
    requires rows { All (λ r. IsName r.name) _rows.now }
    requires named { names.now ≡ map (λ r. r.name) _rows.now }
    requires within { All (λ t. t.0 < length _rows.now) entries.now }
    ensures { OnOk result (out.new.items
        ≡ out.old.items ++ lines_text
        (entry_lines text_of _rows.now word.now (map entry_of entries.now))) }
{
    for entry in entries {
        let row = names.get(entry.0 as usize);
        append_entry(out, line, word, row, entry.1)?;
    }
    Ok(())
}

// The right sides.
pub(crate) fn put_rhs(
    out: &mut Vec<u8>,
    line: &mut LineText<1024>,
    rows: &[MpsRow],
    names: &TextLines,
    rhs: &[(u32, Dec)],
) -> Result<(), AllocError>
    requires rows { All (λ r. IsName r.name) rows.now }
    requires named { names.now ≡ map (λ r. r.name) rows.now }
    requires within { All (λ t. t.0 < length rows.now) rhs.now }
    ensures { OnOk result (out.new.items ≡ out.old.items ++ lines_text
        (section (codes "RHS")
        ∷ entry_lines text_of rows.now (codes "RHS") (map entry_of rhs.now))) }
{
    put_line(out, b"RHS")?;
    put_entries(out, line, rows, names, b"RHS", rhs)
}

// The ranges; nothing where there is none.
pub(crate) fn put_ranges(
    out: &mut Vec<u8>,
    line: &mut LineText<1024>,
    rows: &[MpsRow],
    names: &TextLines,
    ranges: &[(u32, Dec)],
) -> Result<(), AllocError>
    requires rows { All (λ r. IsName r.name) rows.now }
    requires named { names.now ≡ map (λ r. r.name) rows.now }
    requires within { All (λ t. t.0 < length rows.now) ranges.now }
    ensures { OnOk result (out.new.items ≡ out.old.items ++ lines_text (unless_empty ranges.now
        (section (codes "RANGES")
        ∷ entry_lines text_of rows.now (codes "RNG") (map entry_of ranges.now)))) }
{
    if ranges.is_empty() {
        return Ok(());
    }
    put_line(out, b"RANGES")?;
    put_entries(out, line, rows, names, b"RNG", ranges)
}
