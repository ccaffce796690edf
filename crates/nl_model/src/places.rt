// Empty places.
ghost use Rattle.std.specs.Prelude.{◌≡◌, [], None, false, IfOk, replicate};

use linear_program::Terms;
use std::alloc::{AllocError, Global};

/// So many empty places.
pub(crate) fn places<T: Drop>(alloc: Global, count: usize) -> Result<Vec<Option<T>>, AllocError>
    ensures { IfOk result (λ v. v.items ≡ replicate count None) }
{
    let mut all = Vec::with_capacity(alloc, count)?;
    'filled: for _ in 0..count {
        all.push(None)?;
    }
    Ok(all)
}

/// So many empty lists.
pub(crate) fn lists(alloc: Global, count: usize) -> Result<Vec<Terms>, AllocError>
    ensures { IfOk result (λ v. v.items ≡ replicate count []) }
{
    let mut all = Vec::with_capacity(alloc, count)?;
    'filled: for _ in 0..count {
        all.push(Terms::new(alloc))?;
    }
    Ok(all)
}

/// So many false marks.
pub(crate) fn marks(alloc: Global, count: usize) -> Result<Vec<bool>, AllocError>
    ensures { IfOk result (λ v. v.items ≡ replicate count false) }
{
    let mut all = Vec::with_capacity(alloc, count)?;
    'filled: for _ in 0..count {
        all.push(false)?;
    }
    Ok(all)
}
