// Numbers after a letter, and lines of numbers.
ghost use Rattle.std.specs.Prelude.{◌≡◌, ◌++◌, OnOk};
ghost use Rattle.text_base.specs.WordLines.{line_text, lines_text};
ghost use Rattle.nl_writer.specs.Written.{lettered, term_line, term_lines};

use exact_numbers::Dec;
use std::alloc::AllocError;
use written_texts::{put, put_end, put_next_dec, put_number};

// A letter, directly followed by a number.
pub(crate) fn put_lettered(out: &mut Vec<u8>, letter: &[u8], number: u64) -> Result<(), AllocError>
    ensures { OnOk result (out.new.items ≡ out.old.items ++ lettered letter.now number) }
{
    put(out, letter)?;
    put_number(out, number)
}

// A line of an index and a value.
fn put_term(out: &mut Vec<u8>, term: (u32, Dec)) -> Result<(), AllocError>
    ensures { OnOk result (out.new.items ≡ out.old.items ++ line_text (term_line term)) }
{
    put_number(out, term.0 as u64)?;
    put_next_dec(out, term.1)?;
    put_end(out)
}

pub(crate) fn put_term_lines(out: &mut Vec<u8>, terms: &[(u32, Dec)]) -> Result<(), AllocError>
    ensures { OnOk result (out.new.items ≡ out.old.items ++ lines_text (term_lines terms.now)) }
{
    for term in terms {
        put_term(out, *term)?;
    }
    Ok(())
}
