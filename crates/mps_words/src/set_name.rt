// The set name of a section.
ghost use Rattle.std.specs.Prelude.{◌≡◌, false, IfOk};
ghost use Rattle.mps_words.specs.DataLines.{is_bad_set};

use std::alloc::{AllocError, Global};
use std::marker::Model;

/// The set name of a section's first data line: a name, or no bytes where none was given.
#[derive(Drop)]
pub struct SetName {
    bytes: Vec<u8>,
}

impl Model for SetName {
    ghost use Rattle.std.specs.Prelude.{List, ℕ, ◌≡◌, false};
    ghost use Rattle.mps_words.specs.DataLines.{is_bad_set};

    ghost Value = { List ℕ };

    ghost view = { λ n. n.bytes.items };

    ghost invariant = { λ n. is_bad_set n.bytes.items ≡ false };
}

impl SetName {
    /// The set name with these bytes.
    pub fn tested(alloc: Global, text: &[u8]) -> Result<SetName, AllocError>
        requires { is_bad_set text.now ≡ false }
        ensures { IfOk result (λ set. set ≡ text.now) }
    {
        let bytes = Vec::from_slice(alloc, text)?;
        Ok(SetName { bytes })
    }

    /// Its bytes.
    pub fn bytes(&self) -> &[u8]
        ensures value { result.now ≡ self.now }
        ensures fine { is_bad_set self.now ≡ false }
    {
        &self.bytes
    }
}
