// A text in pieces.
ghost use Rattle.std.specs.Prelude.{◌≡◌, ◌<◌, ◌≤◌, ◌^◌, ◌++◌, ◌∷◌, [], length, IfOk, OnOk};
ghost use Rattle.std.specs.List.{flat_map};
ghost use Rattle.exact_numbers.specs.Values.{text_of};
ghost use Rattle.mps_model.specs.Text.{change_lines, markers_after, row_line, sense_lines};
ghost use Rattle.mps_writer.specs.Names.{name_bytes};
ghost use Rattle.text_base.specs.WordLines.{indented, line_text, lines_text};

use exact_numbers::Dec;
use mps_model::RowKind;
use mps_writer::MpsName;
use std::alloc::{AllocError, Global};
use std::marker::Model;
use std::mem;
use written_texts::LineText;

// So many bytes have room in a piece.
const PIECE: usize = 65_536;

// A line of words of this crate has no more bytes: room alone, of which no clause speaks.
const LINE: usize = 256;

/// A text in pieces, of which the last is open.
#[derive(Drop)]
pub(crate) struct Pieces {
    alloc: Global,
    full: Vec<Vec<u8>>,
    last: Vec<u8>,
}

impl Model for Pieces {
    ghost use Rattle.std.specs.Prelude.{ℕ, List, ◌++◌};
    ghost use Rattle.std.specs.List.{flat_map};

    ghost Value = { List ℕ };

    ghost view = { λ p. flat_map (λ v. v.items) p.full.items ++ p.last.items };
}

// Closes the last piece, and begins the next.
#[inline(never)]
fn begin(out: &mut Pieces) -> Result<(), AllocError>
    ensures { OnOk result (out.new ≡ out.old) }
{
    let next = Vec::with_capacity(out.alloc, PIECE)?;
    let closed = mem::replace(&mut out.last, next);
    out.full.push(closed)?;
    Ok(())
}

// Begins a piece where so many bytes may not fit into the last.
fn make_room(out: &mut Pieces, size: usize) -> Result<(), AllocError>
    ensures { OnOk result (out.new ≡ out.old) }
{
    if out.last.len().saturating_add(size) > PIECE {
        begin(out)?;
    }
    Ok(())
}

/// Writes a text as it stands.
pub(crate) fn put(out: &mut Pieces, text: &[u8]) -> Result<(), AllocError>
    ensures { OnOk result (out.new ≡ out.old ++ text.now) }
{
    make_room(out, text.len())?;
    written_texts::put(&mut out.last, text)
}

/// Writes a line of one word.
pub(crate) fn put_line(out: &mut Pieces, word: &[u8]) -> Result<(), AllocError>
    ensures { OnOk result (out.new ≡ out.old ++ line_text (word.now ∷ [])) }
{
    make_room(out, LINE)?;
    written_texts::put_line(&mut out.last, word)
}

/// Writes the sense where the objective is maximised.
pub(crate) fn put_sense(out: &mut Pieces, maximise: bool) -> Result<(), AllocError>
    ensures { OnOk result (out.new ≡ out.old ++ lines_text (sense_lines maximise)) }
{
    make_room(out, LINE)?;
    mps_writer::put_sense(&mut out.last, maximise)
}

/// Writes the line of a row, by way of the room of a line.
pub(crate) fn put_row(
    out: &mut Pieces,
    line: &mut LineText<2048>,
    name: &MpsName,
    kind: RowKind,
) -> Result<(), AllocError>
    requires { length (name_bytes name.now) ≤ 11 }
    ensures { OnOk result (out.new ≡ out.old ++ line_text
        (row_line (record { name = name_bytes name.now; kind = kind }))) }
{
    line.clear();
    mps_writer::put_row(line, name, kind);
    put(out, line.bytes())
}

/// Writes the line of an entry, by way of the room of a line.
pub(crate) fn put_entry(
    out: &mut Pieces,
    line: &mut LineText<2048>,
    word: &MpsName,
    row: &MpsName,
    value: Dec,
) -> Result<(), AllocError>
    requires word { length (name_bytes word.now) ≤ 11 }
    requires row { length (name_bytes row.now) ≤ 11 }
    ensures { OnOk result (out.new ≡ out.old ++ line_text
        (indented (name_bytes word.now ∷ name_bytes row.now ∷ text_of value ∷ []))) }
{
    line.clear();
    mps_writer::put_entry(line, word, row, value);
    put(out, line.bytes())
}

/// Writes the marker line between two columns, where one is marked and the other is not. Answers
/// the number of marker lines so far.
pub(crate) fn put_change(
    out: &mut Pieces,
    before: bool,
    marked: bool,
    markers: u32,
) -> Result<u32, AllocError>
    requires { markers < 2 ^ 31 }
    ensures { IfOk result (λ n. (n ≡ markers_after before marked markers) × (out.new
        ≡ out.old ++ lines_text (change_lines before marked markers))) }
{
    make_room(out, LINE)?;
    mps_writer::put_change(&mut out.last, before, marked, markers)
}

impl Pieces {
    /// No text.
    pub(crate) fn new(alloc: Global) -> Result<Pieces, AllocError>
        ensures { IfOk result (λ p. p ≡ []) }
    {
        let last = Vec::with_capacity(alloc, PIECE)?;
        Ok(Pieces {
            alloc,
            full: Vec::new(alloc),
            last,
        })
    }

    /// The pieces of this text, and then those of another.
    pub(crate) fn followed_by(self, other: Pieces) -> Result<Vec<Vec<u8>>, AllocError>
        ensures { IfOk result (λ v. flat_map (λ p. p.items) v.items ≡ self ++ other) }
    {
        let mut pieces = self.full;
        let mut rest = other.full;
        pieces.push(self.last)?;
        pieces.append(&mut rest)?;
        pieces.push(other.last)?;
        Ok(pieces)
    }
}
