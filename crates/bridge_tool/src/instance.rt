// Files of any size to try the commands with.
ghost use Rattle.std.specs.Prelude.{◌≡◌, ◌≤◌, IfOk};
ghost use Rattle.bridge_tool.specs.Instance.{instance};

use crate::draws::Draws;
use crate::parts::{header_of, put_row, zero};
use nl_model::{NlBuilder, NlFile};
use std::alloc::{AllocError, Global};

/// The instance of a seed and a size: the same file at each call.
pub fn make_instance(alloc: Global, seed: u32, size: u32) -> Result<NlFile, AllocError>
    requires { size ≤ 20000 }
    ensures { IfOk result (λ file. file ≡ instance seed size) }
{
    let mut builder = NlBuilder::new(alloc, header_of(size))?;
    builder.objective(0, true, zero(alloc)?);
    let mut draws = Draws { state: seed };
    for k in 0..size {
        let row = draws.row();
        put_row(alloc, &mut builder, size, k, &row)?;
    }
    Ok(builder.finish())
}
