// The numbers of terms up to each variable.
ghost use Rattle.std.specs.Prelude.{◌≡◌, ℕ, ◌+◌, ◌*◌, ◌<◌, ◌≤◌, ◌^◌, ◌++◌, ◌∷◌, [], OnOk, IfOk, codes, length, All, get_or};
ghost use Rattle.std.specs.Fmt.{decimal};
ghost use Rattle.nl_model.specs.Rules.{AreTermsBelow};
ghost use Rattle.text_base.specs.WordLines.{line_text, lines_text};
ghost use Rattle.nl_writer.specs.Written.{column_piece};
ghost use Rattle.nl_model.specs.UseCounts.{uses_in};
ghost use Rattle.nl_writer.specs.InsideUses.{sum_lines, HasUses};

use crate::words::put_lettered;
use exact_numbers::Dec;
use nl_model::NlFile;
use std::alloc::{AllocError, Global};
use written_texts::{put_end, put_number};

// Counts each term at its variable.
fn count_terms(uses: &mut [u32], terms: &[(u32, Dec)])
    requires below { AreTermsBelow (length uses.old) terms.now }
    requires room { (j : ℕ) → j < length uses.old
        → get_or uses.old j 0 + length terms.now < 2 ^ 32 }
    ensures { (j : ℕ) → j < length uses.old
        → get_or uses.new j 0 ≡ get_or uses.old j 0 + uses_in terms.now j }
{
    for term in terms {
        uses[term.0 as usize] += 1;
    }
}

// How many terms of constraints each variable has.
fn uses_of(alloc: Global, file: &NlFile) -> Result<Vec<u32>, AllocError>
    ensures uses { IfOk result (λ v. HasUses file.now.counts.n_var file.now.terms v.items) }
    ensures few { IfOk result (λ v. length v.items ≤ 2 ^ 20) }
{
    let counts = file.header().counts();
    let mut uses = vec![in alloc; 0; counts.n_var as usize]?;
    for con in 0..counts.n_con {
        count_terms(&mut uses, file.terms(con).items());
    }
    Ok(uses)
}

// A line for each number, with the sum up to it.
fn put_sums(out: &mut Vec<u8>, uses: &[u32]) -> Result<(), AllocError>
    requires { length uses.now ≤ 2 ^ 20 }
    ensures { OnOk result (out.new.items ≡ out.old.items ++ lines_text (sum_lines 0 uses.now)) }
{
    let mut total: u64 = 0;
    for count in uses {
        total += *count as u64;
        put_number(out, total)?;
        put_end(out)?;
    }
    Ok(())
}

// A line for each variable but the last; nothing where there is no variable.
pub(crate) fn put_columns(alloc: Global, out: &mut Vec<u8>, file: &NlFile) -> Result<(), AllocError>
    ensures { OnOk result (out.new.items
        ≡ out.old.items ++ lines_text (column_piece file.now.counts.n_var file.now.terms)) }
{
    let uses = uses_of(alloc, file)?;
    let count = uses.len();
    if count == 0 {
        return Ok(());
    }
    let counted = &uses[..count - 1];
    put_lettered(out, b"k", counted.len() as u64)?;
    put_end(out)?;
    put_sums(out, counted)?;
    Ok(())
}
