// The lines of rows, entries and bounds, written in front of what a line text has.
ghost use Rattle.std.specs.Prelude.{◌≡◌, ◌+◌, ◌≤◌, ◌++◌, ◌∷◌, [], length, codes};
ghost use Rattle.mps_model.specs.Text.{bound_text, kind_text, row_line, value_words};
ghost use Rattle.exact_numbers.specs.Values.{text_of};
ghost use Rattle.text_base.specs.WordLines.{indented, line_text, spaced};
ghost use Rattle.mps_writer.specs.Names.{name_bytes};

use crate::names::{MpsName, put_name};
use exact_numbers::Dec;
use mps_model::{BoundKind, RowKind};
use written_texts::LineText;

// The letter of a kind of row, with a space before and after it.
fn row_front(kind: RowKind) -> &'static [u8]
    ensures text { result.now ≡ codes " " ++ kind_text kind ++ codes " " }
    ensures short { length result.now ≤ 3 }
{
    match kind {
        RowKind::N => b" N ",
        RowKind::L => b" L ",
        RowKind::G => b" G ",
        RowKind::E => b" E ",
    }
}

/// Writes the line of a row in front.
pub fn put_row<const ROOM: usize>(line: &mut LineText<ROOM>, name: &MpsName, kind: RowKind)
    requires { length line.old + length (name_bytes name.now) + 4 ≤ ROOM }
    ensures { line.new
        ≡ line_text (row_line (record { name = name_bytes name.now; kind = kind })) ++ line.old }
{
    line.put_byte(b'\n');
    put_name(line, name);
    line.put_word(row_front(kind));
}

/// Writes the line of a word, the name of a row, and a number in front.
pub fn put_entry<const ROOM: usize>(
    line: &mut LineText<ROOM>,
    word: &MpsName,
    row: &MpsName,
    value: Dec,
)
    requires { length line.old + length (name_bytes word.now) + length (name_bytes row.now) + 72
        ≤ ROOM }
    ensures text { line.new
        ≡ line_text (indented (name_bytes word.now ∷ name_bytes row.now ∷ text_of value ∷ []))
        ++ line.old }
    ensures short { length line.new
        ≤ length line.old + length (name_bytes word.now) + length (name_bytes row.now) + 64 }
{
    line.put_byte(b'\n');
    line.put_dec(value);
    line.put_byte(b' ');
    put_name(line, row);
    line.put_byte(b' ');
    put_name(line, word);
    line.put_byte(b' ');
}

// The words before the column's name, with a space before and after each.
fn bound_front(kind: BoundKind) -> &'static [u8]
    ensures text { result.now ≡ codes " " ++ bound_text kind ++ codes " BND " }
    ensures short { length result.now ≤ 8 }
{
    match kind {
        BoundKind::Lo => b" LO BND ",
        BoundKind::Up => b" UP BND ",
        BoundKind::Fx => b" FX BND ",
        BoundKind::Fr => b" FR BND ",
        BoundKind::Mi => b" MI BND ",
        BoundKind::Pl => b" PL BND ",
        BoundKind::Bv => b" BV BND ",
        BoundKind::Li => b" LI BND ",
        BoundKind::Ui => b" UI BND ",
    }
}

// Writes the column's name in front, and the value behind it where the kind has one.
fn put_bounded<const ROOM: usize>(
    line: &mut LineText<ROOM>,
    column: &MpsName,
    kind: BoundKind,
    value: Dec,
)
    requires { length line.old + length (name_bytes column.now) + 70 ≤ ROOM }
    ensures text { line.new
        ≡ spaced (name_bytes column.now ∷ value_words kind (text_of value)) ++ line.old }
    ensures short { length line.new ≤ length line.old + length (name_bytes column.now) + 61 }
{
    match kind {
        BoundKind::Fr | BoundKind::Mi | BoundKind::Pl | BoundKind::Bv => put_name(line, column),
        _ => {
            line.put_dec(value);
            line.put_byte(b' ');
            put_name(line, column);
        }
    }
}

/// Writes the line of a bound in front; FR, MI, PL and BV stand without their value.
pub fn put_bound<const ROOM: usize>(
    line: &mut LineText<ROOM>,
    column: &MpsName,
    kind: BoundKind,
    value: Dec,
)
    requires { length line.old + length (name_bytes column.now) + 72 ≤ ROOM }
    ensures text { line.new ≡ line_text (indented
        (bound_text kind ∷ codes "BND" ∷ name_bytes column.now ∷ value_words kind (text_of value)))
        ++ line.old }
    ensures short { length line.new ≤ length line.old + length (name_bytes column.now) + 70 }
{
    line.put_byte(b'\n');
    put_bounded(line, column, kind, value);
    line.put_word(bound_front(kind));
}
