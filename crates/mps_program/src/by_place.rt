// Numbers by the rows that they are given for.
ghost use Rattle.std.specs.Prelude.{◌≡◌, None, Some, get_or, length, map, replicate, IfOk, ℕ, ◌<◌, List, All, ◌∷◌};
ghost use Rattle.std.specs.Option.{option_or};
ghost use Rattle.exact_numbers.specs.declared.dec.Dec.{Dec as DecValue};
ghost use Rattle.mps_model.specs.Built.{entry_of};
ghost use Rattle.mps_model.specs.Mps.{Entry, at_row};

use exact_numbers::Dec;
use std::alloc::{AllocError, Global};

// So many empty places.
fn nothing(alloc: Global, count: usize) -> Result<Vec<Option<Dec>>, AllocError>
    ensures { IfOk result (λ v. v.items ≡ replicate count None) }
{
    let mut all = Vec::with_capacity(alloc, count)?;
    'filled: for _ in 0..count {
        all.push(None)?;
    }
    Ok(all)
}

// The number that was given before, or else this one.
fn first_given(before: Option<Dec>, number: Dec) -> Option<Dec>
    ensures { result ≡ option_or before (Some number) }
{
    match before {
        Some(first) => Some(first),
        None => Some(number),
    }
}

// Keeps the number of a row, where none was given before.
fn give(all: &mut Vec<Option<Dec>>, entry: (u32, Dec))
    requires { entry.0 < length all.old.items }
    ensures count { length all.new.items ≡ length all.old.items }
    ensures value { (i : ℕ) (rest : List (Entry DecValue)) → i < length all.old.items
        → option_or (get_or all.new.items i None) (at_row i rest)
        ≡ option_or (get_or all.old.items i None) (at_row i (entry_of entry ∷ rest)) }
{
    let row = entry.0 as usize;
    let number = first_given(all[row], entry.1);
    all[row] = number;
}

// The number of each of so many rows, where one is given.
pub(crate) fn by_row(
    alloc: Global,
    count: usize,
    given: &[(u32, Dec)],
) -> Result<Vec<Option<Dec>>, AllocError>
    requires { All (λ e. e.row < count) (map entry_of given.now) }
    ensures count { IfOk result (λ v. length v.items ≡ count) }
    ensures value { IfOk result
        (λ v. (i : ℕ) → i < count → get_or v.items i None ≡ at_row i (map entry_of given.now)) }
{
    let mut all = nothing(alloc, count)?;
    'given: for entry in given {
        give(&mut all, *entry);
    }
    Ok(all)
}

// The number that is given for a row.
pub(crate) fn at_row(given: &[(u32, Dec)], row: usize) -> Option<Dec>
    ensures { result ≡ at_row row (map entry_of given.now) }
{
    'given: for entry in given {
        if entry.0 as usize == row {
            return Some(entry.1);
        }
    }
    None
}
