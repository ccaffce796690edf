// What a name becomes.
ghost use Rattle.std.specs.Prelude.{◌≡◌, ◌≤◌, ◌^◌, ◌∷◌, length, IfOk};
ghost use Rattle.std.specs.Fmt.{decimal};
ghost use Rattle.text_base.specs.Names.{IsName};
ghost use Rattle.name_files.specs.Renamed.{marked, new_name};

use mps_model::{NameList, numbered};
use std::alloc::{AllocError, Global};
use text_base::Name;

// The name with an `@` before it.
fn marked(alloc: Global, old: &[u8]) -> Result<Name, AllocError>
    requires { IsName (marked old.now) }
    ensures { IfOk result (λ name. name ≡ marked old.now) }
{
    let mut bytes = Vec::new(alloc);
    bytes.push(b'@')?;
    bytes.extend_from_slice(old)?;
    Name::tested(alloc, &bytes)
}

/// The name of the number after this letter, or else the old name marked.
#[tactic(auto, using(mps_model::proofs::NumeralLemmas::named_so))]
pub(crate) fn new_name(
    alloc: Global,
    letter: u8,
    names: &NameList,
    old: &[u8],
) -> Result<Name, AllocError>
    requires few { length names.now ≤ 2 ^ 31 }
    requires named { IsName (new_name (λ j. letter ∷ decimal j) names.now old.now) }
    ensures { IfOk result (λ name. name
        ≡ new_name (λ j. letter ∷ decimal j) names.now old.now) }
{
    match numbered(letter, old, names.len()) {
        Some(i) => Name::tested(alloc, names.name(i)),
        None => marked(alloc, old),
    }
}
