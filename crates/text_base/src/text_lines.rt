// Lists of lines of bytes.
ghost use Rattle.std.specs.Prelude.{◌≡◌, ◌<◌, ◌++◌, ◌∷◌, [], length, OnOk, OnErr, Some, slice_get};
ghost use Rattle.text_base.specs.InsideTextLines.{cut_at, start_at, AreEnds};

use std::alloc::{AllocError, Global};
use std::marker::Model;

/// A list of lines of bytes. The bytes of all lines stand in one row, with the place where each
/// line ends.
#[derive(Drop)]
pub struct TextLines {
    bytes: Vec<u8>,
    ends: Vec<usize>,
}

impl Model for TextLines {
    ghost use Rattle.std.specs.Prelude.{List, ℕ, length};

    ghost Value = { List (List ℕ) };

    ghost use Rattle.text_base.specs.InsideTextLines.{cut_at, AreEnds};

    ghost view = { λ t. cut_at 0 t.bytes.items t.ends.items };

    ghost invariant = { λ t. AreEnds 0 t.ends.items (length t.bytes.items) };
}

// Where a line starts: where the one before it ends.
fn start_of(ends: &[usize], i: usize) -> usize
    requires { i < length ends.now }
    ensures { result ≡ start_at 0 ends.now i }
{
    if i == 0 { 0 } else { ends[i - 1] }
}

// A line of the bytes that these places cut.
fn line_at<'a>(bytes: &'a [u8], ends: &[usize], i: usize) -> &'a [u8]
    requires within { i < length ends.now }
    requires cut { AreEnds 0 ends.now (length bytes.now) }
    ensures { Some result.now ≡ slice_get (cut_at 0 bytes.now ends.now) i }
{
    let start = start_of(ends, i);
    let end = ends[i];
    &bytes[start..end]
}

impl TextLines {
    /// An empty list.
    pub fn new(alloc: Global) -> TextLines
        ensures { result ≡ [] }
    {
        TextLines {
            bytes: Vec::new(alloc),
            ends: Vec::new(alloc),
        }
    }

    /// Adds a line. Want of memory changes nothing.
    pub fn push(&mut self, line: &[u8]) -> Result<(), AllocError>
        ensures ok { OnOk result (self.new ≡ self.old ++ line.now ∷ []) }
        ensures err { OnErr result (self.new ≡ self.old) }
    {
        self.ends.reserve(1)?;
        self.bytes.extend_from_slice(line)?;
        match self.ends.push(self.bytes.len()) {
            Ok(()) => Ok(()),
            Err(_) => unreachable!(),
        }
    }

    /// How many lines there are.
    pub fn len(&self) -> usize
        ensures { result ≡ length self.now }
    {
        self.ends.len()
    }

    /// The bytes of a line, counted from 0.
    pub fn get(&self, i: usize) -> &[u8]
        requires { i < length self.now }
        ensures { Some result.now ≡ slice_get self.now i }
    {
        line_at(&self.bytes, &self.ends, i)
    }
}
