// Names: texts of 1 to 255 bytes, none of them below 33.
ghost use Rattle.std.specs.Prelude.{◌≡◌, ◌↔◌, ◌≤◌, IfOk, Err, OnOk};
ghost use Rattle.text_base.specs.Names.{IsName, has_name_bytes, is_name};
ghost use Rattle.text_base.specs.declared.stop.Stop.TheVariants.{Fault};

use crate::stop::Stop;
use std::alloc::{AllocError, Global};
use std::marker::Model;

/// A name has at most so many bytes.
pub const LONGEST_NAME: usize = 255;

/// No byte of a name is below this one.
pub const LEAST_NAME_BYTE: u8 = 33;

/// The text is no name.
#[derive(Clone, Copy, Debug, PartialEq, Eq)]
pub struct BadName;

/// A name: 1 to 255 bytes, none of them below 33.
#[derive(Drop)]
pub struct Name {
    bytes: Vec<u8>,
}

impl Model for Name {
    ghost use Rattle.std.specs.Prelude.{List, ℕ};
    ghost use Rattle.text_base.specs.Names.{IsName};

    ghost Value = { List ℕ };

    ghost view = { λ n. n.bytes.items };

    ghost invariant = { λ n. IsName n.bytes.items };
}

// Whether no byte is below 33.
fn has_name_bytes(text: &[u8]) -> bool
    ensures { result ≡ has_name_bytes text.now }
{
    text.iter().all(|b| *b >= LEAST_NAME_BYTE)
}

/// Whether the text is a name.
pub fn is_name(text: &[u8]) -> bool
    ensures { result ≡ is_name text.now }
{
    !text.is_empty() && text.len() <= LONGEST_NAME && has_name_bytes(text)
}

impl Name {
    /// The name with these bytes. `BadName` where they are none of a name.
    pub fn of(alloc: Global, text: &[u8]) -> Result<Name, Stop<BadName>>
        ensures bytes { IfOk result (λ name. name ≡ text.now) }
        ensures fine { OnOk result (IsName text.now) }
        ensures bad { (result ≡ Err (Fault (record {}))) ↔ (IsName text.now → ⊥) }
    {
        if !is_name(text) {
            return Err(Stop::Fault(BadName));
        }
        let bytes = Vec::from_slice(alloc, text)?;
        Ok(Name { bytes })
    }

    /// The name with these bytes, which are those of a name.
    pub fn tested(alloc: Global, text: &[u8]) -> Result<Name, AllocError>
        requires { IsName text.now }
        ensures { IfOk result (λ name. name ≡ text.now) }
    {
        let bytes = Vec::from_slice(alloc, text)?;
        Ok(Name { bytes })
    }

    /// The bytes of the name.
    pub fn bytes(&self) -> &[u8]
        ensures value { result.now ≡ self.now }
        ensures name { IsName self.now }
    {
        &self.bytes
    }

    /// An equal name.
    pub fn copy(&self, alloc: Global) -> Result<Name, AllocError>
        ensures { IfOk result (λ name. name ≡ self.now) }
    {
        let bytes = Vec::from_slice(alloc, &self.bytes)?;
        Ok(Name { bytes })
    }
}
