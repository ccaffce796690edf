// Marks of indices, all of which are taken away at once.
ghost use Rattle.std.specs.Prelude.{◌≡◌, ◌<◌, ◌≤◌, ℕ, max, length, replicate, false, true, get_or, slice_set, IfOk, OnOk, OnErr};

use std::alloc::{AllocError, Global};
use std::marker::Model;

/// A mark for each index below a length. An index is marked where its stamp is the current one,
/// so that all marks are taken away in one step.
#[derive(Drop)]
pub struct Marks {
    stamps: Vec<u32>,
    stamp: u32,
}

impl Model for Marks {
    ghost use Rattle.std.specs.Prelude.{List, Bool, map, ◌==◌};
    ghost use Rattle.text_base.specs.InsideStamps.{marked, AreStamps};

    ghost Value = { List Bool };

    ghost view = { λ m. marked m.stamp m.stamps.items };

    ghost invariant = { λ m. AreStamps m.stamp m.stamps.items };
}

// So many zeros.
fn zeros(alloc: Global, len: usize) -> Result<Vec<u32>, AllocError>
    ensures { IfOk result (λ v. v.items ≡ replicate len 0) }
{
    Vec::from_elem(alloc, 0u32, len)
}

impl Marks {
    /// No mark, for each index below this length.
    pub fn new(alloc: Global, len: usize) -> Result<Marks, AllocError>
        ensures { IfOk result (λ m. m ≡ replicate len false) }
    {
        let stamps = zeros(alloc, len)?;
        Ok(Marks { stamps, stamp: 1 })
    }

    /// Whether an index is marked.
    pub fn is_marked(&self, index: u32) -> bool
        requires { index < length self.now }
        ensures { result ≡ get_or self.now index false }
    {
        self.stamps[index as usize] == self.stamp
    }

    /// Marks an index.
    pub fn mark(&mut self, index: u32)
        requires { index < length self.old }
        ensures { self.new ≡ slice_set self.old index true }
    {
        self.stamps[index as usize] = self.stamp;
    }

    // Wipes all stamps.
    fn wipe(&mut self)
        ensures { self.new ≡ replicate (length self.old) false }
    {
        self.stamps.fill(0);
        self.stamp = 1;
    }

    /// Takes all marks away.
    pub fn clear(&mut self)
        ensures { self.new ≡ replicate (length self.old) false }
    {
        if self.stamp == u32::MAX {
            self.wipe();
            return;
        }
        self.stamp += 1;
    }

    /// Takes all marks away, and makes room for each index below a limit.
    /// Want of memory changes nothing.
    pub fn begin(&mut self, alloc: Global, limit: u32) -> Result<(), AllocError>
        ensures marks { OnOk result (self.new ≡ replicate (max (length self.old) limit) false) }
        ensures room { OnOk result (limit ≤ length self.new) }
        ensures none { OnOk result ((i : ℕ) → get_or self.new i false ≡ false) }
        ensures same { OnErr result (self.new ≡ self.old) }
    {
        let room = limit as usize;
        if self.stamps.len() < room {
            *self = Marks::new(alloc, room)?;
            return Ok(());
        }
        self.clear();
        Ok(())
    }
}
