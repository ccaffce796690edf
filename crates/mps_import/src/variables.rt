// The order of the variables.
ghost use Rattle.std.specs.Prelude.{◌≡◌, ◌≤◌, ◌^◌, ◌++◌, length, IfOk};
ghost use Rattle.linear_program.specs.declared.kind.Kind.TheVariants.{Binary, Continuous, Integer};
ghost use Rattle.mps_import.specs.InsideKinds.{of_kind};

use crate::places::places_of;
use nl_model::Kind;
use std::alloc::{AllocError, Global};

// The columns in the order of the variables, and how many are binary and integer.
#[derive(Drop)]
pub(crate) struct Variables {
    pub(crate) columns: Vec<u32>,
    pub(crate) binary: u32,
    pub(crate) integer: u32,
}

// The continuous columns, then the binary, then the integer ones.
pub(crate) fn in_kinds(alloc: Global, kinds: &[Kind]) -> Result<Variables, AllocError>
    requires { length kinds.now ≤ 2 ^ 21 }
    ensures columns { IfOk result
        (λ v. v.columns.items
        ≡ of_kind Continuous kinds.now ++ (of_kind Binary kinds.now ++ of_kind Integer kinds.now)) }
    ensures binary { IfOk result (λ v. v.binary ≡ length (of_kind Binary kinds.now)) }
    ensures integer { IfOk result (λ v. v.integer ≡ length (of_kind Integer kinds.now)) }
{
    let mut columns = places_of(alloc, kinds, Kind::Continuous)?;
    let binary = places_of(alloc, kinds, Kind::Binary)?;
    let integer = places_of(alloc, kinds, Kind::Integer)?;
    columns.extend_from_slice(&binary)?;
    columns.extend_from_slice(&integer)?;
    Ok(Variables {
        columns,
        binary: binary.len() as u32,
        integer: integer.len() as u32,
    })
}
