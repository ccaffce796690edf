// The terms of columns, sent to their rows.
ghost use Rattle.std.specs.Prelude.{◌≡◌, ◌<◌, ◌++◌, ◌∷◌, [], ℕ, All, IfOk, List, OnOk, false, get_or, length, map};
ghost use Rattle.std.specs.List.{filter_map};
ghost use Rattle.exact_numbers.specs.declared.dec.Dec.{Dec as DecValue};
ghost use Rattle.linear_program.specs.Decimals.{DecimalTerm};
ghost use Rattle.mps_model.specs.Built.{entry_of};
ghost use Rattle.mps_model.specs.Mps.{Entry};
ghost use Rattle.mps_program.specs.Places.{listed};
ghost use Rattle.mps_program.specs.Terms.{has_wide_term, is_zero_dec, row_terms, term_of};

use exact_numbers::Dec;
use linear_program::Buckets;
use mps_model::Mps;
use std::alloc::{AllocError, Global};

/// Whether a number is 0.
pub fn is_zero(value: Dec) -> bool
    ensures { result ≡ is_zero_dec value }
{
    value.is_zero()
}

// Sends the term of an entry of column j to its row.
#[inline]
fn send_term(terms: &mut Buckets, column: u32, entry: (u32, Dec)) -> Result<(), AllocError>
    requires row { entry.0 < length terms.old }
    requires some { is_zero_dec entry.1 ≡ false }
    ensures count { OnOk result (length terms.new ≡ length terms.old) }
    ensures terms { OnOk result ((i : ℕ) (rest : List (Entry DecValue)) (after : List DecimalTerm)
        → i < length terms.old
        → get_or terms.new i [] ++ (filter_map (term_of i column) rest ++ after)
        ≡ get_or terms.old i []
        ++ (filter_map (term_of i column) (entry_of entry ∷ rest) ++ after)) }
{
    terms.push(entry.0, column, entry.1)?;
    Ok(())
}

// Sends the term of an entry of column j to its row, where it is not 0.
#[inline]
fn send_entry(terms: &mut Buckets, column: u32, entry: (u32, Dec)) -> Result<(), AllocError>
    requires { entry.0 < length terms.old }
    ensures count { OnOk result (length terms.new ≡ length terms.old) }
    ensures terms { OnOk result ((i : ℕ) (rest : List (Entry DecValue)) (after : List DecimalTerm)
        → i < length terms.old
        → get_or terms.new i [] ++ (filter_map (term_of i column) rest ++ after)
        ≡ get_or terms.old i []
        ++ (filter_map (term_of i column) (entry_of entry ∷ rest) ++ after)) }
{
    if is_zero(entry.1) {
        return Ok(());
    }
    send_term(terms, column, entry)
}

// Sends the terms of the entries of column j to their rows.
fn send_entries(terms: &mut Buckets, column: u32, entries: &[(u32, Dec)]) -> Result<(), AllocError>
    requires { All (λ e. e.row < length terms.old) (map entry_of entries.now) }
    ensures count { OnOk result (length terms.new ≡ length terms.old) }
    ensures terms { OnOk result ((i : ℕ) (after : List DecimalTerm) → i < length terms.old
        → get_or terms.new i [] ++ after
        ≡ get_or terms.old i []
        ++ (filter_map (term_of i column) (map entry_of entries.now) ++ after)) }
{
    'entries: for entry in entries {
        send_entry(terms, column, *entry)?;
    }
    Ok(())
}

// The terms of all rows, in buckets of rows.
pub(crate) fn terms_by_row(alloc: Global, mps: &Mps) -> Result<Buckets, AllocError>
    ensures { IfOk result (λ b. b ≡ listed (row_terms mps.now) (length mps.now.rows)) }
{
    let columns = mps.columns();
    let mut terms = Buckets::new(alloc, mps.rows().len())?;
    'columns: for j in 0..columns.len() {
        let column = &columns[j];
        send_entries(&mut terms, j as u32, column.entries())?;
    }
    Ok(terms)
}

// Whether a coefficient has no fraction.
pub(crate) fn has_wide_term(terms: &[(u32, Dec)]) -> bool
    ensures { result ≡ has_wide_term terms.now }
{
    'terms: for term in terms {
        let number = term.1;
        if !number.has_fraction() {
            return true;
        }
    }
    false
}
