// The intervals of constraints and variables.
ghost use Rattle.std.specs.Prelude.{◌≡◌, ◌++◌, ◌∷◌, [], OnOk, codes};
ghost use Rattle.exact_numbers.specs.Values.{text_of};
ghost use Rattle.text_base.specs.WordLines.{line_text, lines_text};
ghost use Rattle.nl_writer.specs.Written.{is_same, interval_line, interval_piece};

use exact_numbers::Dec;
use nl_model::{Interval, NlFile};
use std::alloc::AllocError;
use written_texts::{put, put_end, put_line, put_next_dec};

fn is_same(a: Dec, b: Dec) -> bool
    ensures { result ≡ is_same a b }
{
    a.m() == b.m() && a.e() == b.e()
}

// A line of one side, or of two that are equal.
fn put_side(out: &mut Vec<u8>, kind: &[u8], side: Dec) -> Result<(), AllocError>
    ensures { OnOk result (out.new.items
        ≡ out.old.items ++ line_text (kind.now ∷ text_of side ∷ [])) }
{
    put(out, kind)?;
    put_next_dec(out, side)?;
    put_end(out)
}

// A line of two sides.
fn put_both(out: &mut Vec<u8>, lo: Dec, hi: Dec) -> Result<(), AllocError>
    ensures { OnOk result (out.new.items
        ≡ out.old.items ++ line_text (codes "0" ∷ text_of lo ∷ text_of hi ∷ [])) }
{
    put(out, b"0")?;
    put_next_dec(out, lo)?;
    put_next_dec(out, hi)?;
    put_end(out)
}

fn put_interval(out: &mut Vec<u8>, interval: Interval) -> Result<(), AllocError>
    ensures { OnOk result (out.new.items ≡ out.old.items ++ line_text (interval_line interval)) }
{
    match (interval.lo, interval.hi) {
        (None, None) => put_line(out, b"3"),
        (None, Some(hi)) => put_side(out, b"1", hi),
        (Some(lo), None) => put_side(out, b"2", lo),
        (Some(lo), Some(hi)) if is_same(lo, hi) => put_side(out, b"4", lo),
        (Some(lo), Some(hi)) => put_both(out, lo, hi),
    }
}

// The intervals of the constraints; nothing where there is none.
pub(crate) fn put_sides(out: &mut Vec<u8>, file: &NlFile) -> Result<(), AllocError>
    ensures { OnOk result (out.new.items
        ≡ out.old.items ++ lines_text (interval_piece (codes "r") file.now.sides)) }
{
    let count = file.header().counts().n_con;
    if count == 0 {
        return Ok(());
    }
    put_line(out, b"r")?;
    for con in 0..count {
        put_interval(out, file.side(con))?;
    }
    Ok(())
}

// The intervals of the variables; nothing where there is none.
pub(crate) fn put_bounds(out: &mut Vec<u8>, file: &NlFile) -> Result<(), AllocError>
    ensures { OnOk result (out.new.items
        ≡ out.old.items ++ lines_text (interval_piece (codes "b") file.now.bounds)) }
{
    let count = file.header().counts().n_var;
    if count == 0 {
        return Ok(());
    }
    put_line(out, b"b")?;
    for var in 0..count {
        put_interval(out, file.bound(var))?;
    }
    Ok(())
}
