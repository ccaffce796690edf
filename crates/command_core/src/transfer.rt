// The loops that feed a text to a reader, write bytes and tell a line.
ghost use Rattle.std.specs.Prelude.{◌≡◌, ◌<◌, ◌≤◌, IfOk, OnOk, length, take};
ghost use Rattle.std.specs.List.{flat_map};
ghost use Rattle.std.specs.Io.KnownBytes.{ReadConsumes};
ghost use Rattle.text_base.specs.Desk.{HasCause, IsUnknown, OnlyInput, OnlyOutput, OnlyMessages};
ghost use Rattle.text_base.specs.Readers.{HasTaken, grammar_of};
ghost use Rattle.command_core.specs.Transfer.{AppendsAll, TellsFront, FeedsText, FeedsToLimit, HasReadCause};

use std::alloc::{AllocError, Global};
use text_base::{Desk, Failed, Grammar, Reader};

/// A text is read up to this many bytes.
pub const LIMIT: usize = 0x8000_0001;

/// Why a text was not read.
#[derive(Clone, Copy)]
pub enum Unread {
    Fault,
    Memory,
}

impl From<AllocError> for Unread {
    ghost use Rattle.std.specs.Prelude.{◌≡◌};
    ghost use Rattle.command_core.specs.declared.transfer.Unread.TheVariants.{Memory};

    ghost from_gives = { λ _ e. e ≡ Memory };

    fn from(_: AllocError) -> Self {
        Unread::Memory
    }
}

impl From<Failed> for Unread {
    ghost use Rattle.std.specs.Prelude.{◌≡◌};
    ghost use Rattle.command_core.specs.declared.transfer.Unread.TheVariants.{Fault};

    ghost from_gives = { λ _ e. e ≡ Fault };

    fn from(_: Failed) -> Self {
        Unread::Fault
    }
}

/// Writes all the bytes.
pub fn write_all<D: Desk>(desk: &mut D, bytes: &[u8]) -> Result<(), Failed>
    ensures bytes { AppendsAll (D.meaning desk.old).written (D.meaning desk.new).written result
        bytes.now }
    ensures cause { HasCause (D.meaning desk.old).output_faults (D.meaning desk.new).output_faults
        result }
    ensures rest { OnlyOutput (D.meaning desk.old) (D.meaning desk.new) }
{
    let mut done = 0;
    while done < bytes.len() {
        done += desk.write(&bytes[done..])?;
    }
    Ok(())
}

/// Writes all the bytes of the pieces, in order.
pub fn write_pieces<D: Desk>(desk: &mut D, pieces: &[Vec<u8>]) -> Result<(), Failed>
    ensures bytes { AppendsAll (D.meaning desk.old).written (D.meaning desk.new).written result
        (flat_map (λ p. p.items) pieces.now) }
    ensures cause { HasCause (D.meaning desk.old).output_faults (D.meaning desk.new).output_faults
        result }
    ensures rest { OnlyOutput (D.meaning desk.old) (D.meaning desk.new) }
{
    for piece in pieces {
        write_all(desk, piece)?;
    }
    Ok(())
}

/// Tells all of the line, or a front of it where a call fails.
pub fn tell_line<D: Desk>(desk: &mut D, line: &[u8])
    ensures line { TellsFront (D.meaning desk.old).told (D.meaning desk.new).told
        (D.meaning desk.old).message_faults (D.meaning desk.new).message_faults line.now }
    ensures later { (D.meaning desk.old).message_faults ≤ (D.meaning desk.new).message_faults }
    ensures rest { OnlyMessages (D.meaning desk.old) (D.meaning desk.new) }
{
    let mut done = 0;
    while done < line.len() {
        match desk.tell(&line[done..]) {
            Ok(count) => done += count,
            Err(Failed) => return,
        }
    }
}

// Reads at most so many bytes into the front of the room.
fn read_piece<D: Desk>(desk: &mut D, room: &mut [u8], most: usize) -> Result<usize, Failed>
    requires { most ≤ length room.old }
    ensures bound { IfOk result (λ n. n ≤ most) }
    ensures bytes { ReadConsumes (D.meaning desk.old).left (D.meaning desk.new).left result
        (take most room.new) }
    ensures cause { HasCause (D.meaning desk.old).input_faults (D.meaning desk.new).input_faults
        result }
    ensures rest { OnlyInput (D.meaning desk.old) (D.meaning desk.new) }
{
    desk.read(&mut room[..most])
}

// Feeds the reader what is left of the current text, to its end or to the limit.
fn feed_rest<D: Desk, G: Grammar>(
    desk: &mut D,
    reader: &mut Reader<G>,
    room: &mut [u8],
) -> Result<(), Failed>
    requires { 0 < length room.old }
    ensures text { OnOk result (FeedsToLimit (D.meaning desk.old).left (D.meaning desk.new).left
        LIMIT (HasTaken (G.rules (G.setting (grammar_of reader.old))) G.took reader.old)
        (HasTaken (G.rules (G.setting (grammar_of reader.new))) G.took reader.new)) }
    ensures setting { G.setting (grammar_of reader.new) ≡ G.setting (grammar_of reader.old) }
    ensures cause { HasCause (D.meaning desk.old).input_faults (D.meaning desk.new).input_faults
        result }
    ensures rest { OnlyInput (D.meaning desk.old) (D.meaning desk.new) }
{
    let mut taken = 0;
    'reading: while taken < LIMIT {
        let most = room.len().min(LIMIT - taken);
        let count = read_piece(desk, room, most)?;
        if count == 0 {
            return Ok(());
        }
        // The reader keeps an error, and answers it at the end.
        let _ = reader.feed(&room[..count]);
        taken += count;
    }
    Ok(())
}

/// Feeds a reader the named text to its end, or to the limit.
pub fn feed_text<D: Desk, G: Grammar>(
    alloc: Global,
    desk: &mut D,
    name: &str,
    reader: &mut Reader<G>,
) -> Result<(), Unread>
    ensures text { OnOk result (FeedsText (D.meaning desk.old).texts name.now LIMIT
        (D.meaning desk.new).left
        (HasTaken (G.rules (G.setting (grammar_of reader.old))) G.took reader.old)
        (HasTaken (G.rules (G.setting (grammar_of reader.new))) G.took reader.new)) }
    ensures setting { G.setting (grammar_of reader.new) ≡ G.setting (grammar_of reader.old) }
    ensures cause { HasReadCause (IsUnknown (D.meaning desk.old).texts name.now)
        (D.meaning desk.old).input_faults (D.meaning desk.new).input_faults result }
    ensures rest { OnlyInput (D.meaning desk.old) (D.meaning desk.new) }
{
    let mut room = vec![in alloc; 0; 65_536]?;
    desk.start(name)?;
    feed_rest(desk, reader, &mut room)?;
    Ok(())
}
