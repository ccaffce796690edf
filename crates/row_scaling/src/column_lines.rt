// The lines of the columns.
ghost use Rattle.std.specs.Prelude.{◌≡◌, ℕ, ◌+◌, ◌<◌, ◌≤◌, ◌++◌, ◌∷◌, length, codes, IfOk, OnOk, get_or, false};
ghost use Rattle.exact_numbers.specs.Values.{value_text};
ghost use Rattle.scaled_program.specs.Program.{z_variable};
ghost use Rattle.mps_model.specs.Text.{column_lines, section};
ghost use Rattle.mps_writer.specs.Names.{name_bytes};
ghost use Rattle.row_scaling.specs.Exported.{program_variables};
ghost use Rattle.row_scaling.specs.Parts.{column_count};
ghost use Rattle.row_scaling.specs.Scaled.{ScaledValue};
ghost use Rattle.text_base.specs.WordLines.{lines_text};
ghost use Rattle.row_scaling.specs.InsideColumns.{AreColumns, entries_in_column};
ghost use Rattle.row_scaling.specs.InsideHeads.{AreHeads};
ghost use Rattle.row_scaling.specs.InsideSections.{all_columns, all_rows, lines_from};

use crate::entry_lines::put_column;
use crate::heads::Heads;
use crate::names::column_name;
use crate::pieces::{Pieces, put_change, put_line};
use crate::program_columns::is_whole;
use linear_program::{Buckets, PartLists, part_end};
use mps_writer::{MpsName, put_name};
use std::alloc::{AllocError, Global};
use written_texts::LineText;

// Where a column stands: whether the one before it is marked, and how many marker lines are before.
#[derive(Clone, Copy)]
struct Place {
    marked: bool,
    markers: u32,
}

// Whether column j is marked.
fn is_marked(heads: &Heads, j: u32) -> bool
    requires { j < length heads.now.kinds.items }
    ensures { (s : ScaledValue) → AreHeads s heads.now
        → result ≡ (get_or (program_variables s) j z_variable).whole }
{
    is_whole(heads.kinds[j as usize])
}

// Writes the name of column j, once for all its lines.
fn put_column_name(word: &mut LineText<16>, heads: &Heads, j: u32)
    requires { j < length heads.now.kinds.items }
    ensures text { (s : ScaledValue) → AreHeads s heads.now
        → word.new ≡ (get_or (program_variables s) j z_variable).name }
    ensures short { length word.new ≤ 11 }
{
    word.clear();
    put_name(word, &column_name(heads.variables, j));
}

// The columns from column `first` on.
fn put_part(
    out: &mut Pieces,
    heads: &Heads,
    first: u32,
    columns: &PartLists,
    from: Place,
) -> Result<Place, AllocError>
    requires within { first + length columns.now ≤ length heads.now.kinds.items }
    requires few { from.markers ≤ first }
    ensures few { IfOk result (λ to. to.markers ≤ first + length columns.now) }
    ensures text { (s : ScaledValue) → AreHeads s heads.now
        → AreColumns (λ c. c) (length columns.now) (λ k. entries_in_column s (first + k))
        columns.now → IfOk result (λ to.
        out.new ++ lines_text (lines_from s to.marked to.markers (first + length columns.now))
        ≡ out.old ++ lines_text (lines_from s from.marked from.markers first)) }
{
    let mut lines = LineText::<2048>::new();
    let mut word = LineText::<16>::new();
    let mut marked = from.marked;
    let mut markers = from.markers;
    for k in 0..columns.len() {
        let j = first + k as u32;
        let now = is_marked(heads, j);
        markers = put_change(out, marked, now, markers)?;
        marked = now;
        put_column_name(&mut word, heads, j);
        let name = MpsName::Word(word.bytes());
        put_column(out, &mut lines, &heads.numbers, &name, columns.list(k))?;
    }
    Ok(Place { marked, markers })
}

// All columns, bucket by bucket.
fn put_parts(
    out: &mut Pieces,
    alloc: Global,
    heads: &Heads,
    mut buckets: Buckets,
) -> Result<Place, AllocError>
    requires { length buckets ≡ length heads.now.kinds.items }
    ensures few { IfOk result (λ to. to.markers ≤ length heads.now.kinds.items) }
    ensures text { (s : ScaledValue) → AreHeads s heads.now
        → AreColumns (λ c. c) (column_count s) (entries_in_column s) buckets
        → IfOk result (λ to. out.new
        ++ lines_text (lines_from s to.marked to.markers (length heads.now.kinds.items))
        ≡ out.old ++ lines_text (lines_from s false 0 0)) }
{
    let mut place = Place {
        marked: false,
        markers: 0,
    };
    let mut columns = PartLists::new(alloc);
    let total = heads.kinds.len();
    let mut done = 0usize;
    'parts: while done < total {
        let end = part_end(done, total);
        columns = buckets.take_part(done as u32, end - done, columns)?;
        place = put_part(out, heads, done as u32, &columns, place)?;
        done = end;
    }
    Ok(place)
}

/// Writes the columns, each with its entries.
pub(crate) fn put_columns(
    out: &mut Pieces,
    alloc: Global,
    heads: &Heads,
    buckets: Buckets,
) -> Result<(), AllocError>
    requires { length buckets ≡ length heads.now.kinds.items }
    ensures { (s : ScaledValue) → AreHeads s heads.now
        → AreColumns (λ c. c) (column_count s) (entries_in_column s) buckets
        → OnOk result (out.new ≡ out.old ++ lines_text
        (section (codes "COLUMNS") ∷ column_lines value_text (all_rows s) false 0
        (all_columns s))) }
{
    put_line(out, b"COLUMNS")?;
    let end = put_parts(out, alloc, heads, buckets)?;
    put_change(out, end.marked, false, end.markers)?;
    Ok(())
}
