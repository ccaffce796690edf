// The written text of the MPS program of a scaled program.
ghost use Rattle.std.specs.Prelude.{◌≡◌, ◌++◌, length, IfOk};
ghost use Rattle.std.specs.List.{flat_map};
ghost use Rattle.exact_numbers.specs.Values.{value_text};
ghost use Rattle.mps_model.specs.Text.{mps_text_by};
ghost use Rattle.scaled_program.specs.ExportedProgram.{mps_of};
ghost use Rattle.row_scaling.specs.Exported.{scaled_as};
ghost use Rattle.row_scaling.specs.Parts.{column_count};
ghost use Rattle.row_scaling.specs.Scaled.{ScaledValue};
ghost use Rattle.text_base.specs.WordLines.{lines_text};
ghost use Rattle.row_scaling.specs.InsideColumns.{AreColumns, entries_in_column};
ghost use Rattle.row_scaling.specs.InsideHeads.{AreHeads};
ghost use Rattle.row_scaling.specs.InsideSections.{first_lines, last_lines};

use crate::Scaled;
use crate::bound_lines::put_bounds;
use crate::column_lines::put_columns;
use crate::columns::moved_buckets;
use crate::export::program;
use crate::heads::Heads;
use crate::heads_of::heads_of;
use crate::pieces::{Pieces, put, put_line, put_sense};
use crate::row_lines::put_rows;
use crate::side_lines::{put_ranges, put_sides};
use linear_program::Buckets;
use mps_writer::write_mps;
use std::alloc::{AllocError, Global};

// The sections before that of the columns.
fn first_sections(alloc: Global, scaled: &Scaled) -> Result<Pieces, AllocError>
    ensures { IfOk result (λ p. p ≡ lines_text (first_lines scaled.now)) }
{
    let mut out = Pieces::new(alloc)?;
    put(&mut out, b"NAME nl\n")?;
    put_sense(&mut out, scaled.maximise())?;
    put_rows(&mut out, scaled)?;
    Ok(out)
}

// The sections after that of the columns.
fn last_sections(alloc: Global, scaled: &Scaled) -> Result<Pieces, AllocError>
    ensures { IfOk result (λ p. p ≡ lines_text (last_lines scaled.now)) }
{
    let mut out = Pieces::new(alloc)?;
    put_sides(&mut out, scaled)?;
    put_ranges(&mut out, scaled)?;
    put_bounds(&mut out, scaled)?;
    put_line(&mut out, b"ENDATA")?;
    Ok(out)
}

// The text with the columns between the sections before and after them.
fn with_columns(
    alloc: Global,
    mut first: Pieces,
    heads: &Heads,
    buckets: Buckets,
    last: Pieces,
) -> Result<Vec<Vec<u8>>, AllocError>
    requires { length buckets ≡ length heads.now.kinds.items }
    ensures { (s : ScaledValue) → first ≡ lines_text (first_lines s)
        → last ≡ lines_text (last_lines s) → AreHeads s heads.now
        → AreColumns (λ c. c) (column_count s) (entries_in_column s) buckets
        → IfOk result (λ v. flat_map (λ p. p.items) v.items
        ≡ mps_text_by value_text (mps_of (scaled_as s))) }
{
    put_columns(&mut first, alloc, heads, buckets)?;
    first.followed_by(last)
}

/// The written text of the MPS program, made without it, in pieces. What is scaled is let go as it
/// is turned.
pub fn text_in_pieces(alloc: Global, scaled: Scaled) -> Result<Vec<Vec<u8>>, AllocError>
    ensures { IfOk result (λ v. flat_map (λ p. p.items) v.items
        ≡ mps_text_by value_text (mps_of (scaled_as scaled))) }
{
    let last = last_sections(alloc, &scaled)?;
    let first = first_sections(alloc, &scaled)?;
    let heads = heads_of(alloc, &scaled)?;
    let buckets = moved_buckets(alloc, scaled)?;
    with_columns(alloc, first, &heads, buckets, last)
}

/// The written text of the MPS program.
pub fn write_exported(alloc: Global, scaled: &Scaled) -> Result<Vec<u8>, AllocError>
    ensures { IfOk result (λ v. v.items ≡ mps_text_by value_text (mps_of (scaled_as scaled.now))) }
{
    let mps = program(alloc, scaled)?;
    let out = write_mps(alloc, &mps)?;
    Ok(out)
}
