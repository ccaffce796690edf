// The desk: named texts to read, bytes written and bytes told, each of which a desk may leave
// untold.
ghost use Rattle.std.specs.Prelude.{◌<◌, length, IfOk, IsSome};
ghost use Rattle.std.specs.Io.{ReadsAtMost, WritesAtMost};
ghost use Rattle.std.specs.Io.KnownBytes.{ReadConsumes, WriteAppends};
ghost use Rattle.text_base.specs.Desk.{Meaning, OnlyInput, OnlyOutput, OnlyMessages, HasCause, HasStartCause, Starts};

/// A call of a desk failed.
#[derive(Clone, Copy, Debug, PartialEq, Eq)]
pub struct Failed;

/// What a program reads, writes and tells.
pub trait Desk {
    ghost meaning: { Self → Meaning };

    /// Makes the named text the current one, whole.
    fn start(&mut self, name: &str) -> Result<(), Failed>
        ensures text { Starts (meaning self.old).texts name.now (meaning self.new).left result }
        ensures cause { HasStartCause (meaning self.old).texts name.now
            (meaning self.old).input_faults (meaning self.new).input_faults result }
        ensures rest { OnlyInput (meaning self.old) (meaning self.new) };

    /// Puts a first part of what is left into the front of the buffer, and answers its length.
    fn read(&mut self, buf: &mut [u8]) -> Result<usize, Failed>
        ensures bound { ReadsAtMost result buf.new }
        ensures bytes { ReadConsumes (meaning self.old).left
            (meaning self.new).left result buf.new }
        ensures cause { HasCause (meaning self.old).input_faults
            (meaning self.new).input_faults result }
        ensures rest { OnlyInput (meaning self.old) (meaning self.new) };

    /// Appends a first part of the piece to the bytes written, and answers its length.
    fn write(&mut self, piece: &[u8]) -> Result<usize, Failed>
        ensures bound { WritesAtMost result piece.now }
        ensures some { IfOk result (λ n. 0 < length piece.now → 0 < n) }
        ensures bytes { WriteAppends (meaning self.old).written
            (meaning self.new).written result piece.now }
        ensures cause { HasCause (meaning self.old).output_faults
            (meaning self.new).output_faults result }
        ensures rest { OnlyOutput (meaning self.old) (meaning self.new) };

    /// Does the same for the bytes told.
    fn tell(&mut self, piece: &[u8]) -> Result<usize, Failed>
        ensures bound { WritesAtMost result piece.now }
        ensures some { IfOk result (λ n. 0 < length piece.now → 0 < n) }
        ensures bytes { WriteAppends (meaning self.old).told
            (meaning self.new).told result piece.now }
        ensures cause { HasCause (meaning self.old).message_faults
            (meaning self.new).message_faults result }
        ensures rest { OnlyMessages (meaning self.old) (meaning self.new) };

    /// A desk that tells its texts tells what is left of the current one.
    ghost tells_left: { (d : Self) → IsSome (meaning d).texts → IsSome (meaning d).left };
}
