// A desk in memory whose calls move few bytes.
ghost use Rattle.std.specs.Prelude.{◌≡◌, length, min, take};

use std::alloc::{AllocError, Global};
use std::process::Abort;
use text_base::{Desk, Failed, MemoryDesk};

/// A desk in memory, each call of which moves at most so many bytes.
#[derive(Drop)]
pub(crate) struct ShortDesk {
    inner: MemoryDesk,
    most: usize,
}

impl ShortDesk {
    /// A desk with room for 4,000 bytes, of which the calls of these numbers fail.
    pub(crate) fn new(rt: &impl Abort, alloc: Global, most: usize, failing: &[u64]) -> ShortDesk {
        let mut inner = MemoryDesk::new(alloc, 4000).expect(rt, "memory");
        for call in failing {
            inner.fail(*call).expect(rt, "memory");
        }
        ShortDesk { inner, most }
    }

    /// Stores a text.
    pub(crate) fn put(&mut self, name: &str, text: &[u8]) -> Result<(), AllocError> {
        for _ in 0..text.len() {
            self.inner.cut(self.most.max(1))?;
        }
        self.inner.put(name, text)
    }

    /// The bytes written.
    pub(crate) fn written(&self) -> &[u8] {
        self.inner.written()
    }

    /// The bytes told.
    pub(crate) fn told(&self) -> &[u8] {
        self.inner.told()
    }
}

/// The first bytes, so many where there are.
pub(crate) fn front(bytes: &[u8], count: usize) -> &[u8]
    ensures { result.now ≡ take (min count (length bytes.now)) bytes.now }
{
    &bytes[..count.min(bytes.len())]
}

impl Desk for ShortDesk {
    ghost use Rattle.text_base.specs.Memory.{meaning_of};

    ghost meaning = { λ d. meaning_of d.inner };

    ghost tells_left = { λ _ told. told };

    fn start(&mut self, name: &str) -> Result<(), Failed> {
        self.inner.start(name)
    }

    fn read(&mut self, buf: &mut [u8]) -> Result<usize, Failed> {
        self.inner.read(buf)
    }

    fn write(&mut self, piece: &[u8]) -> Result<usize, Failed> {
        self.inner.write(front(piece, self.most.max(1)))
    }

    fn tell(&mut self, piece: &[u8]) -> Result<usize, Failed> {
        self.inner.tell(front(piece, self.most.max(1)))
    }
}
