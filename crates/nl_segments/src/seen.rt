// Which segments have come.
ghost use Rattle.std.specs.Prelude.{◌≡◌, IfOk};
ghost use Rattle.nl_lines.specs.SeenSegments.{no_segments, has_segment, with_segment, IsSeenIn};

use nl_lines::{Head, mark_count, mark_of};
use nl_model::Counts;
use std::alloc::{AllocError, Global};
use std::marker::Model;

/// Which segments have come: a mark for each letter and index. Suffixes are told apart by name, too.
#[derive(Drop)]
pub struct Seen {
    marks: Vec<bool>,
}

impl Model for Seen {
    ghost use Rattle.nl_lines.specs.SeenSegments.{Segments};

    ghost Value = { Segments };

    ghost view = { λ s. s.marks.items };
}

impl Seen {
    /// No segment of a file with these counts.
    pub(crate) fn new(alloc: Global, counts: &Counts) -> Result<Seen, AllocError>
        ensures { IfOk result (λ s. s ≡ no_segments counts.now) }
    {
        let marks = Vec::from_elem(alloc, false, mark_count(counts) as usize)?;
        Ok(Seen { marks })
    }

    /// Whether a segment of this letter and index has come.
    pub(crate) fn has(&self, head: Head) -> bool
        requires { IsSeenIn self.now head }
        ensures { result ≡ has_segment self.now head }
    {
        self.marks[mark_of(head) as usize]
    }

    /// Takes a segment.
    pub(crate) fn add(&mut self, head: Head)
        requires { IsSeenIn self.old head }
        ensures { self.new ≡ with_segment self.old head }
    {
        self.marks[mark_of(head) as usize] = true;
    }
}
