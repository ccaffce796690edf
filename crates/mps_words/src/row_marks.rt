// Marks of rows.
ghost use Rattle.std.specs.Prelude.{◌≡◌, ◌<◌, false, true, length, replicate, get_or, slice_set, IfOk};

use std::alloc::{AllocError, Global};
use std::marker::Model;
use text_base::Marks;

/// A mark for each row below a length. Whether a row behind all that are marked has one is known
/// without a look at the marks.
#[derive(Drop)]
pub struct RowMarks {
    marks: Marks,
    // no row from this one on is marked
    end: usize,
}

impl Model for RowMarks {
    ghost use Rattle.std.specs.Prelude.{List, Bool};
    ghost use Rattle.mps_words.specs.InsideMarks.{NoneFrom};

    ghost Value = { List Bool };

    ghost view = { λ m. m.marks };

    ghost invariant = { λ m. NoneFrom m.end m.marks };
}

impl RowMarks {
    /// No mark, for each row below this length.
    pub fn new(alloc: Global, len: usize) -> Result<RowMarks, AllocError>
        ensures { IfOk result (λ m. m ≡ replicate len false) }
    {
        let marks = Marks::new(alloc, len)?;
        Ok(RowMarks { marks, end: 0 })
    }

    /// Whether a row is marked.
    #[inline(always)]
    pub fn is_marked(&self, row: u32) -> bool
        requires { row < length self.now }
        ensures { result ≡ get_or self.now row false }
    {
        (row as usize) < self.end && self.marks.is_marked(row)
    }

    /// Marks a row.
    #[inline(always)]
    pub fn mark(&mut self, row: u32)
        requires { row < length self.old }
        ensures { self.new ≡ slice_set self.old row true }
    {
        self.marks.mark(row);
        self.end = self.end.max(row as usize + 1);
    }

    /// Takes all marks away.
    pub fn clear(&mut self)
        ensures { self.new ≡ replicate (length self.old) false }
    {
        self.marks.clear();
        self.end = 0;
    }
}
