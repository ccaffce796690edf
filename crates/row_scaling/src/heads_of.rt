// The heads of the columns of a program.
ghost use Rattle.std.specs.Prelude.{◌≡◌, ℕ, ◌≤◌, ◌^◌, List, length, map, IfOk};
ghost use Rattle.row_scaling.specs.Parts.{rows_in};
ghost use Rattle.row_scaling.specs.InsideHeads.{AreHeads};

use crate::heads::Heads;
use crate::{FactoredRow, Scaled};
use std::alloc::{AllocError, Global};

// The constraints of the exported rows.
fn exported_numbers(alloc: Global, rows: &[Option<FactoredRow>]) -> Result<Vec<u32>, AllocError>
    requires { length rows.now ≤ 2 ^ 20 }
    ensures { (name : ℕ → List ℕ) → IfOk result
        (λ v. map name v.items ≡ map (λ r. r.name) (rows_in name 0 rows.now)) }
{
    let mut numbers = Vec::with_capacity(alloc, rows.len())?;
    for (i, row) in rows.iter().enumerate() {
        let Some(_factored) = row else {
            continue;
        };
        numbers.push(i as u32)?;
    }
    Ok(numbers)
}

/// What the lines of the columns of a program name.
pub(crate) fn heads_of(alloc: Global, scaled: &Scaled) -> Result<Heads, AllocError>
    ensures { IfOk result (AreHeads scaled.now) }
{
    let numbers = exported_numbers(alloc, scaled.rows())?;
    let kinds = Vec::from_slice(alloc, scaled.program_kinds())?;
    Ok(Heads {
        numbers,
        kinds,
        variables: scaled.variables(),
    })
}
