// The ten lines of the header.
ghost use Rattle.std.specs.Prelude.{◌≡◌, ◌++◌, ◌∷◌, OnOk};
ghost use Rattle.std.specs.List.{flat_map};
ghost use Rattle.std.specs.Fmt.{signed_decimal};
ghost use Rattle.text_base.specs.WordLines.{line_text, lines_text};
ghost use Rattle.nl_writer.specs.Written.{numbers, options_line, size_lines, part_lines, header_lines};

use crate::words::put_lettered;
use nl_model::{Counts, NlFile};
use std::alloc::AllocError;
use written_texts::{put_end, put_next_numbers, put_next_signed, put_number};

// A line of a number and further ones.
fn put_numbers(out: &mut Vec<u8>, first: u32, others: &[u32]) -> Result<(), AllocError>
    ensures { OnOk result (out.new.items
        ≡ out.old.items ++ line_text (numbers (first ∷ others.now))) }
{
    put_number(out, first as u64)?;
    put_next_numbers(out, others)?;
    put_end(out)?;
    Ok(())
}

// Options, a space before each.
fn put_next_options(out: &mut Vec<u8>, options: &[i32]) -> Result<(), AllocError>
    ensures { OnOk result (out.new.items
        ≡ out.old.items ++ flat_map (λ z. 32 ∷ signed_decimal z) options.now) }
{
    for option in options {
        put_next_signed(out, *option)?;
    }
    Ok(())
}

// `g` and the number of options, and the options.
fn put_options(out: &mut Vec<u8>, options: &[i32]) -> Result<(), AllocError>
    ensures { OnOk result (out.new.items ≡ out.old.items ++ line_text (options_line options.now)) }
{
    put_lettered(out, b"g", options.len() as u64)?;
    put_next_options(out, options)?;
    put_end(out)?;
    Ok(())
}

// The sizes of the file, and its nonlinear and network parts.
fn put_sizes(out: &mut Vec<u8>, c: &Counts) -> Result<(), AllocError>
    ensures { OnOk result (out.new.items ≡ out.old.items ++ lines_text (size_lines c.now)) }
{
    put_numbers(out, c.n_var, &[c.n_con, c.n_obj, c.n_ranges, c.n_eqns])?;
    put_numbers(out, c.nlc, &[c.nlo])?;
    put_numbers(out, c.nlnc, &[c.lnc])?;
    put_numbers(out, c.nlvc, &[c.nlvo, c.nlvb])?;
    put_numbers(out, c.nwv, &[c.nfunc, c.arith, c.flags])
}

// The whole variables, the terms, the lengths of names and the defined variables.
fn put_parts(out: &mut Vec<u8>, c: &Counts) -> Result<(), AllocError>
    ensures { OnOk result (out.new.items ≡ out.old.items ++ lines_text (part_lines c.now)) }
{
    put_numbers(out, c.nbv, &[c.niv, c.nlvbi, c.nlvci, c.nlvoi])?;
    put_numbers(out, c.nzc, &[c.nzo])?;
    put_numbers(out, c.row_name_len, &[c.col_name_len])?;
    put_numbers(out, c.comb, &[c.comc, c.como, c.comc1, c.como1])
}

pub(crate) fn put_header(out: &mut Vec<u8>, file: &NlFile) -> Result<(), AllocError>
    ensures { OnOk result (out.new.items
        ≡ out.old.items ++ lines_text (header_lines file.now.options file.now.counts)) }
{
    let header = file.header();
    put_options(out, header.options().items())?;
    put_sizes(out, header.counts())?;
    put_parts(out, header.counts())?;
    Ok(())
}
