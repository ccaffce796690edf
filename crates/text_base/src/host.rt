// The desk of a process: files, standard output and standard error. It tells no bytes.
ghost use Rattle.std.specs.Prelude.{◌≡◌, ◌<◌, false, is_ok, length, IfOk};
ghost use Rattle.std.specs.Io.{ReadsAtMost, WritesAtMost};
ghost use Rattle.text_base.specs.Desk.{HasStartCause, OnlyInput, Starts};
ghost use Rattle.text_base.specs.Host.{has_text};

use crate::{Desk, Failed};
use std::fs::File;
use std::io::{ErrorKind, Read, Write};

// A system call that a signal interrupts is made again; it fails where so many calls in a row were
// interrupted.
const MOST_CALLS: usize = 65_536;

/// The desk of a process. It rests on what files and streams do, of which nothing is proved.
#[derive(Drop)]
pub struct HostDesk {
    rt: HostRuntime,
    file: Option<File>,
    input_faults: u64,
    output_faults: u64,
    message_faults: u64,
}

impl HostDesk {
    /// A desk with no current text.
    pub fn new(rt: HostRuntime) -> Self
        ensures current { has_text result ≡ false }
        ensures input { (⟦<HostDesk as Desk>⟧.meaning result).input_faults ≡ 0 }
        ensures output { (⟦<HostDesk as Desk>⟧.meaning result).output_faults ≡ 0 }
        ensures message { (⟦<HostDesk as Desk>⟧.meaning result).message_faults ≡ 0 }
    {
        HostDesk {
            rt,
            file: None,
            input_faults: 0,
            output_faults: 0,
            message_faults: 0,
        }
    }
}

impl Desk for HostDesk {
    ghost use Rattle.text_base.specs.Host.{host_meaning};

    ghost meaning = { host_meaning };

    ghost tells_left = { λ _ told. told };

    // A text is current exactly after an `Ok`.
    fn start(&mut self, name: &str) -> Result<(), Failed>
        ensures current { has_text self.new ≡ is_ok result }
        ensures text { Starts (host_meaning self.old).texts name.now
            (host_meaning self.new).left result }
        ensures cause { HasStartCause (host_meaning self.old).texts name.now
            (host_meaning self.old).input_faults (host_meaning self.new).input_faults result }
        ensures rest { OnlyInput (host_meaning self.old) (host_meaning self.new) }
    {
        match File::open(&self.rt, name) {
            Ok(file) => {
                self.file = Some(file);
                Ok(())
            }
            Err(_) => {
                self.file = None;
                self.input_faults = self.input_faults.saturating_add(1);
                Err(Failed)
            }
        }
    }

    fn read(&mut self, buf: &mut [u8]) -> Result<usize, Failed> {
        let Some(file) = &mut self.file else {
            return Ok(0);
        };
        match read_some(file, buf) {
            Ok(count) => Ok(count),
            Err(_) => {
                self.input_faults = self.input_faults.saturating_add(1);
                Err(Failed)
            }
        }
    }

    fn write(&mut self, piece: &[u8]) -> Result<usize, Failed> {
        match write_some(self.rt.stdout(), piece) {
            Ok(count) => Ok(count),
            Err(_) => {
                self.output_faults = self.output_faults.saturating_add(1);
                Err(Failed)
            }
        }
    }

    fn tell(&mut self, piece: &[u8]) -> Result<usize, Failed> {
        match write_some(self.rt.stderr(), piece) {
            Ok(count) => Ok(count),
            Err(_) => {
                self.message_faults = self.message_faults.saturating_add(1);
                Err(Failed)
            }
        }
    }
}

// Reads what one call reads.
fn read_some<R: Read>(from: &mut R, buf: &mut [u8]) -> Result<usize, Failed>
    ensures { ReadsAtMost result buf.new }
{
    for _ in 0..MOST_CALLS {
        match from.read(buf) {
            Ok(count) => return Ok(count),
            Err(error) if error.kind() == ErrorKind::Interrupted => {}
            Err(_) => return Err(Failed),
        }
    }
    Err(Failed)
}

// Writes what one call writes. That nothing of a piece was written is a failure.
fn write_some<W: Write + Drop>(mut into: W, piece: &[u8]) -> Result<usize, Failed>
    ensures bound { WritesAtMost result piece.now }
    ensures some { IfOk result (λ n. 0 < length piece.now → 0 < n) }
{
    for _ in 0..MOST_CALLS {
        match into.write(piece) {
            Ok(count) if count > 0 || piece.is_empty() => return Ok(count),
            Err(error) if error.kind() == ErrorKind::Interrupted => {}
            _ => return Err(Failed),
        }
    }
    Err(Failed)
}
