// Places of a kind.
ghost use Rattle.std.specs.Prelude.{◌≡◌, ◌≤◌, ◌^◌, ◌++◌, ◌∷◌, [], if◌then◌else◌, length, IfOk, OnOk};
ghost use Rattle.mps_import.specs.InsideKinds.{is_kind, of_kind};

use nl_model::Kind;
use std::alloc::{AllocError, Global};

fn is_kind(kind: Kind, other: Kind) -> bool
    ensures { result ≡ is_kind kind other }
{
    match (kind, other) {
        (Kind::Continuous, Kind::Continuous) => true,
        (Kind::Binary, Kind::Binary) => true,
        (Kind::Integer, Kind::Integer) => true,
        _ => false,
    }
}

// Adds a place where it is marked.
fn add_where(found: &mut Vec<u32>, is_marked: bool, place: u32) -> Result<(), AllocError>
    ensures { OnOk result (found.new.items
        ≡ found.old.items ++ (if is_marked then place ∷ [] else [])) }
{
    if is_marked {
        found.push(place)?;
    }
    Ok(())
}

// The places of a kind, ascending.
#[tactic(auto, unfolding(mps_program::specs::Places::places))]
pub(crate) fn places_of(alloc: Global, kinds: &[Kind], kind: Kind) -> Result<Vec<u32>, AllocError>
    requires few { length kinds.now ≤ 2 ^ 21 }
    ensures { IfOk result (λ v. v.items ≡ of_kind kind kinds.now) }
{
    let mut found = Vec::new(alloc);
    'kinds: for j in 0..kinds.len() {
        add_where(&mut found, is_kind(kind, kinds[j]), j as u32)?;
    }
    Ok(found)
}
