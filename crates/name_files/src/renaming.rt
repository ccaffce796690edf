// A program whose rows and columns get other names.
ghost use Rattle.std.specs.Prelude.{◌≡◌, ◌≤◌, ◌^◌, ◌++◌, ◌∷◌, [], length, map, IfOk, OnOk};
ghost use Rattle.exact_numbers.specs.Values.{dec_value};
ghost use Rattle.mps_model.specs.Built.{entry_of, bound_of, or_empty};
ghost use Rattle.mps_model.specs.Valid.{AreRows, AreColumns, AreEntries, AreRanges, AreBounds};
ghost use Rattle.name_files.specs.Renamed.{named, named_rows, named_columns, HasExportedNames};

use crate::new_names::new_name;
use exact_numbers::Dec;
use mps_model::{BoundKind, Mps, MpsBuilder, MpsColumn, MpsRow, NameList};
use std::alloc::{AllocError, Global};
use text_base::Name;

// The program's own name.
fn own_name(alloc: Global, mps: &Mps) -> Result<Option<Name>, AllocError>
    ensures { IfOk result (λ name. or_empty name ≡ mps.now.name) }
{
    match mps.name() {
        Some(name) => Ok(Some(name.copy(alloc)?)),
        None => Ok(None),
    }
}

// Adds all rows, with their new names.
fn add_rows(
    alloc: Global,
    builder: &mut MpsBuilder,
    rows: &[MpsRow],
    names: &NameList,
) -> Result<(), AllocError>
    requires few { length names.now ≤ 2 ^ 31 }
    requires empty { builder.old.rows ≡ [] }
    requires valid { AreRows (named_rows names.now rows.now) }
    ensures { OnOk result (builder.new
        ≡ record builder.old { rows = named_rows names.now rows.now }) }
{
    for row in rows {
        let name = new_name(alloc, b'c', names, row.name.bytes())?;
        builder.add_row(name, row.kind)?;
    }
    Ok(())
}

// Adds a column like this one, with another name.
fn add_column(
    alloc: Global,
    builder: &mut MpsBuilder,
    name: Name,
    column: &MpsColumn,
) -> Result<(), AllocError>
    requires { AreColumns (length builder.old.rows)
        (builder.old.columns ++ record column.now { name = name } ∷ []) }
    ensures { OnOk result (builder.new ≡ record builder.old {
      columns = builder.old.columns ++ record column.now { name = name } ∷ [];
    }) }
{
    let entries = Vec::from_slice(alloc, column.entries())?;
    builder.add_column(name, column.marked(), entries)?;
    Ok(())
}

// Adds all columns, with their new names.
fn add_columns(
    alloc: Global,
    builder: &mut MpsBuilder,
    columns: &[MpsColumn],
    names: &NameList,
) -> Result<(), AllocError>
    requires few { length names.now ≤ 2 ^ 31 }
    requires empty { builder.old.columns ≡ [] }
    requires valid { AreColumns (length builder.old.rows) (named_columns names.now columns.now) }
    ensures { OnOk result (builder.new
        ≡ record builder.old { columns = named_columns names.now columns.now }) }
{
    for column in columns {
        let name = new_name(alloc, b'x', names, column.name().bytes())?;
        add_column(alloc, builder, name, column)?;
    }
    Ok(())
}

// Adds all right sides.
fn add_rhs(builder: &mut MpsBuilder, rhs: &[(u32, Dec)]) -> Result<(), AllocError>
    requires empty { builder.old.rhs ≡ [] }
    requires valid { AreEntries (length builder.old.rows) (map entry_of rhs.now) }
    ensures { OnOk result (builder.new ≡ record builder.old { rhs = map entry_of rhs.now }) }
{
    for entry in rhs {
        builder.add_rhs(entry.0, entry.1)?;
    }
    Ok(())
}

// Adds all ranges.
fn add_ranges(builder: &mut MpsBuilder, ranges: &[(u32, Dec)]) -> Result<(), AllocError>
    requires empty { builder.old.ranges ≡ [] }
    requires valid { AreRanges builder.old.rows (map entry_of ranges.now) }
    ensures { OnOk result (builder.new
        ≡ record builder.old { ranges = map entry_of ranges.now }) }
{
    for entry in ranges {
        builder.add_range(entry.0, entry.1)?;
    }
    Ok(())
}

// Adds all bounds.
fn add_bounds(builder: &mut MpsBuilder, bounds: &[(BoundKind, u32, Dec)]) -> Result<(), AllocError>
    requires empty { builder.old.bounds ≡ [] }
    requires valid { AreBounds dec_value (length builder.old.columns) (map bound_of bounds.now) }
    ensures { OnOk result (builder.new
        ≡ record builder.old { bounds = map bound_of bounds.now }) }
{
    for bound in bounds {
        builder.add_bound(bound.0, bound.1, bound.2)?;
    }
    Ok(())
}

/// The program with these names: row `ci` gets name i of the rows, column `xj` name j of the
/// columns, and a name without a number, as `obj`, an `@` before it.
pub fn rename(
    alloc: Global,
    mps: &Mps,
    rows: &NameList,
    columns: &NameList,
) -> Result<Mps, AllocError>
    requires { HasExportedNames (length rows.now) (length columns.now) mps.now }
    ensures { IfOk result (λ m. m ≡ named mps.now rows.now columns.now) }
{
    let _row_names = rows.len();
    let _column_names = columns.len();
    let mut builder = MpsBuilder::new(alloc, own_name(alloc, mps)?, mps.maximise());
    add_rows(alloc, &mut builder, mps.rows(), rows)?;
    add_columns(alloc, &mut builder, mps.columns(), columns)?;
    add_rhs(&mut builder, mps.rhs())?;
    add_ranges(&mut builder, mps.ranges())?;
    add_bounds(&mut builder, mps.bounds())?;
    Ok(builder.finish())
}
