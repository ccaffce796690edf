// What make writes of an exported program.
ghost use Rattle.std.specs.Prelude.{◌≡◌, ◌++◌, ◌+◌, ◌≤◌, ◌^◌, IfOk, OnOk};
ghost use Rattle.std.specs.Fmt.{decimal};
ghost use Rattle.std.specs.List.{count_by, sum_by};
ghost use Rattle.linear_program.specs.Intervals.{is_sided};
ghost use Rattle.linear_program.specs.Programs.{linear_value};
ghost use Rattle.mps_model.specs.Built.{entry_of};
ghost use Rattle.mps_model.specs.Valid.{entry_count};
ghost use Rattle.bridge_tool.specs.Make.{coefficient_count, exported_count, is_coefficient, of_column, summary_line};

use command_core::put;
use exact_numbers::Dec;
use itoa::Buffer;
use linear_program::{Interval, Linear};
use mps_model::{Mps, MpsColumn};
use std::alloc::{AllocError, Global};

fn count_sides(sides: &[Interval]) -> usize
    ensures { result ≡ count_by is_sided sides.now }
{
    sides.iter().filter(|side| side.has_side()).count()
}

/// How many rows are exported.
pub(crate) fn exported_count(linear: &Linear) -> usize
    ensures { result ≡ exported_count (linear_value linear.now) }
{
    // for the prover alone: it brings what a `Linear` always keeps
    let _ = linear.bodies();
    count_sides(linear.sides())
}

// How many of the entries are in the first rows after the objective.
fn count_entries(entries: &[(u32, Dec)], rows: usize) -> usize
    ensures { result ≡ count_by (λ t. is_coefficient rows (entry_of t)) entries.now }
{
    entries
        .iter()
        .filter(|entry| entry.0 >= 1 && entry.0 as usize <= rows)
        .count()
}

// The same of all columns.
fn sum_columns(columns: &[MpsColumn], rows: usize) -> u64
    requires { entry_count columns.now ≤ 2 ^ 24 }
    ensures { result ≡ sum_by (of_column rows) columns.now }
{
    let mut total: u64 = 0;
    for column in columns {
        total += count_entries(column.entries(), rows) as u64;
    }
    total
}

/// How many coefficients the exported rows have.
pub(crate) fn coefficient_count(mps: &Mps, rows: usize) -> u64
    ensures { result ≡ coefficient_count rows mps.now }
{
    sum_columns(mps.columns(), rows)
}

fn put_number(line: &mut Vec<u8>, name: &[u8], number: u64) -> Result<(), AllocError>
    ensures { OnOk result (line.new.items ≡ line.old.items ++ name.now ++ decimal number) }
{
    let mut digits = Buffer::new();
    put(line, name)?;
    put(line, digits.format(number).as_bytes())
}

/// The summary line.
pub(crate) fn summary_line(
    alloc: Global,
    variables: u32,
    rows: usize,
    terms: u64,
    bytes: usize,
) -> Result<Vec<u8>, AllocError>
    ensures { IfOk result (λ line. line.items ≡ summary_line variables rows terms bytes) }
{
    let mut line = Vec::new(alloc);
    put_number(&mut line, b"variables ", variables as u64)?;
    put_number(&mut line, b" rows ", rows as u64)?;
    put_number(&mut line, b" terms ", terms)?;
    put_number(&mut line, b" bytes ", bytes as u64)?;
    put(&mut line, b"\n")?;
    Ok(line)
}
