// The written text of a .sol file.
ghost use Rattle.std.specs.Prelude.{◌≡◌, ◌++◌, ◌∷◌, ℤ, pos, [], length, OnOk, IfOk, map, codes};
ghost use Rattle.std.specs.List.{flat_map};
ghost use Rattle.std.specs.Fmt.{decimal, signed_decimal};
ghost use Rattle.sol_files.specs.Written.{head_line, objno_lines, size_lines, sol_text, suffix_lines, value_line};
ghost use Rattle.text_base.specs.Cut.{ended_lines};
ghost use Rattle.text_base.specs.WordLines.{spaced};
ghost use Rattle.exact_numbers.specs.Values.{text_of};

use crate::sol::Sol;
use crate::suffix::SolSuffix;
use exact_numbers::Dec;
use linear_program::Terms;
use nl_model::Options;
use std::alloc::{AllocError, Global};
use text_base::TextLines;
use written_texts::{
    put, put_dec, put_end, put_line, put_next_dec, put_next_number, put_next_signed, put_number,
    put_signed,
};

// A line of a number alone.
fn put_count(out: &mut Vec<u8>, count: usize) -> Result<(), AllocError>
    ensures { OnOk result (out.new.items ≡ out.old.items ++ ended_lines (decimal count ∷ [])) }
{
    put_number(out, count as u64)?;
    put_end(out)
}

// A line of a value alone.
fn put_value(out: &mut Vec<u8>, value: Dec) -> Result<(), AllocError>
    ensures { OnOk result (out.new.items ≡ out.old.items ++ ended_lines (text_of value ∷ [])) }
{
    put_dec(out, value)?;
    put_end(out)
}

// Lines as they are.
fn put_lines(out: &mut Vec<u8>, lines: &TextLines) -> Result<(), AllocError>
    ensures { OnOk result (out.new.items ≡ out.old.items ++ ended_lines lines.now) }
{
    for i in 0..lines.len() {
        put_line(out, lines.get(i))?;
    }
    Ok(())
}

// A line of an option alone.
fn put_option(out: &mut Vec<u8>, option: i32) -> Result<(), AllocError>
    ensures { OnOk result (out.new.items
        ≡ out.old.items ++ ended_lines (signed_decimal option ∷ [])) }
{
    put_signed(out, option)?;
    put_end(out)
}

fn put_options(out: &mut Vec<u8>, options: &[i32]) -> Result<(), AllocError>
    ensures { OnOk result (out.new.items
        ≡ out.old.items ++ ended_lines (map signed_decimal options.now)) }
{
    for option in options {
        put_option(out, *option)?;
    }
    Ok(())
}

fn put_decs(out: &mut Vec<u8>, values: &[Dec]) -> Result<(), AllocError>
    ensures { OnOk result (out.new.items ≡ out.old.items ++ ended_lines (map text_of values.now)) }
{
    for value in values {
        put_value(out, *value)?;
    }
    Ok(())
}

fn put_objno(out: &mut Vec<u8>, objno: Option<(i32, i32)>) -> Result<(), AllocError>
    ensures { OnOk result (out.new.items ≡ out.old.items ++ ended_lines (objno_lines objno)) }
{
    if let Some((number, code)) = objno {
        put(out, b"objno")?;
        put_next_signed(out, number)?;
        put_next_signed(out, code)?;
        put_end(out)?;
    }
    Ok(())
}

// The first line of a suffix.
fn put_head(out: &mut Vec<u8>, suffix: &SolSuffix) -> Result<(), AllocError>
    ensures { OnOk result (out.new.items
        ≡ out.old.items ++ ended_lines (head_line suffix.now ∷ [])) }
{
    put(out, b"suffix")?;
    put_next_number(out, suffix.kind as u64)?;
    put_next_number(out, suffix.values.len() as u64)?;
    put_next_number(out, suffix.name_len as u64)?;
    put_next_number(out, suffix.table_len as u64)?;
    put_next_number(out, suffix.table.len() as u64)?;
    put_end(out)
}

// A line of an index and a value.
fn put_pair(out: &mut Vec<u8>, pair: (u32, Dec)) -> Result<(), AllocError>
    ensures { OnOk result (out.new.items ≡ out.old.items ++ ended_lines (value_line pair ∷ [])) }
{
    put_number(out, pair.0 as u64)?;
    put_next_dec(out, pair.1)?;
    put_end(out)
}

fn put_pairs(out: &mut Vec<u8>, values: &[(u32, Dec)]) -> Result<(), AllocError>
    ensures { OnOk result (out.new.items
        ≡ out.old.items ++ ended_lines (map value_line values.now)) }
{
    for pair in values {
        put_pair(out, *pair)?;
    }
    Ok(())
}

fn put_suffix(out: &mut Vec<u8>, suffix: &SolSuffix) -> Result<(), AllocError>
    ensures { OnOk result (out.new.items ≡ out.old.items ++ ended_lines (suffix_lines suffix.now)) }
{
    put_head(out, suffix)?;
    put_line(out, suffix.name.bytes())?;
    put_lines(out, &suffix.table)?;
    put_pairs(out, suffix.values.items())?;
    Ok(())
}

fn put_suffixes(out: &mut Vec<u8>, suffixes: &[SolSuffix]) -> Result<(), AllocError>
    ensures { OnOk result (out.new.items
        ≡ out.old.items ++ ended_lines (flat_map suffix_lines suffixes.now)) }
{
    for suffix in suffixes {
        put_suffix(out, suffix)?;
    }
    Ok(())
}

// The numbers of constraints, duals, variables and primals.
fn put_sizes(out: &mut Vec<u8>, sol: &Sol) -> Result<(), AllocError>
    ensures { OnOk result (out.new.items ≡ out.old.items ++ ended_lines (size_lines sol.now)) }
{
    put_count(out, sol.n_con() as usize)?;
    put_count(out, sol.duals().len())?;
    put_count(out, sol.n_var() as usize)?;
    put_count(out, sol.primals().len())?;
    Ok(())
}

// An empty line, `Options`, and the options with their number.
fn put_all_options(out: &mut Vec<u8>, options: &Options) -> Result<(), AllocError>
    ensures { OnOk result (out.new.items
        ≡ out.old.items ++ ended_lines (([] ∷ codes "Options" ∷ decimal (length options.now)
        ∷ []) ++ map signed_decimal options.now)) }
{
    put(out, b"\nOptions\n")?;
    put_count(out, options.len())?;
    put_options(out, options.items())?;
    Ok(())
}

/// The one written text of a value.
pub fn write_sol(alloc: Global, sol: &Sol) -> Result<Vec<u8>, AllocError>
    ensures { IfOk result (λ v. v.items ≡ sol_text sol.now) }
{
    let mut out = Vec::new(alloc);
    put_lines(&mut out, sol.message())?;
    put_all_options(&mut out, sol.options())?;
    put_sizes(&mut out, sol)?;
    put_decs(&mut out, sol.duals().items())?;
    put_decs(&mut out, sol.primals().items())?;
    put_objno(&mut out, sol.objno())?;
    put_suffixes(&mut out, sol.suffixes())?;
    Ok(out)
}
