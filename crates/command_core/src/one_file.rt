// What all commands share that read files: feeding a reader, and ending with what was judged.
ghost use Rattle.std.specs.Prelude.{◌≡◌, [], IfOk};
ghost use Rattle.std.specs.List.{flat_map};
ghost use Rattle.text_base.specs.Desk.{IsUnknown, OnlyInput};
ghost use Rattle.text_base.specs.Readers.{HasTaken, grammar_of};
ghost use Rattle.command_core.specs.InsideAnswer.{Ends, EndsInPieces, EndsWriting, Missed};
ghost use Rattle.command_core.specs.SeveralFiles.{Answered};
ghost use Rattle.command_core.specs.Transfer.{HasRead, HasReadCause};

use crate::answer::Answer;
use crate::refused::Refusal;
use crate::transfer::{LIMIT, Unread, feed_text, write_all, write_pieces};
use std::alloc::Global;
use text_base::{Desk, Grammar, Reader, Stop};

/// A reader by a grammar that has taken no lines, which was fed the named text.
pub fn read<D: Desk, G: Grammar>(
    alloc: Global,
    desk: &mut D,
    file: &str,
    grammar: G,
) -> Result<Reader<G>, Unread>
    requires { G.took grammar [] }
    ensures text { IfOk result (λ reader. HasRead (D.meaning desk.old).texts file.now LIMIT
        (D.meaning desk.new).left
        (HasTaken (G.rules (G.setting (grammar_of reader))) G.took reader)) }
    ensures setting { IfOk result (λ reader. G.setting (grammar_of reader) ≡ G.setting grammar) }
    ensures cause { HasReadCause (IsUnknown (D.meaning desk.old).texts file.now)
        (D.meaning desk.old).input_faults (D.meaning desk.new).input_faults result }
    ensures rest { OnlyInput (D.meaning desk.old) (D.meaning desk.new) }
{
    let mut reader = Reader::new(alloc, grammar)?;
    feed_text(alloc, desk, file, &mut reader)?;
    Ok(reader)
}

/// The answer where a text was not read.
pub fn missed(unread: Unread) -> Answer
    ensures { Missed unread result }
{
    match unread {
        Unread::Fault => Answer::InputFault,
        Unread::Memory => Answer::NoMemory,
    }
}

/// Writes the bytes, for this verdict.
pub fn write_out<D: Desk>(desk: &mut D, holds: bool, bytes: &[u8]) -> Answer
    ensures { EndsWriting holds bytes.now (D.meaning desk.old) (D.meaning desk.new) result }
{
    match write_all(desk, bytes) {
        Ok(()) => Answer::Done(holds),
        Err(_) => Answer::OutputFault,
    }
}

/// Ends with a verdict and the bytes to write, or with the refusal.
pub fn end<D: Desk>(desk: &mut D, judged: Result<(bool, Vec<u8>), Stop<Refusal>>) -> Answer
    ensures { Ends judged (D.meaning desk.old) (D.meaning desk.new) result }
{
    match judged {
        Ok((holds, out)) => write_out(desk, holds, &out),
        Err(Stop::Fault(refusal)) => Answer::Refused(refusal),
        Err(Stop::Memory) => Answer::NoMemory,
    }
}

/// Writes the bytes of the pieces, for this verdict.
pub fn write_out_pieces<D: Desk>(desk: &mut D, holds: bool, pieces: &[Vec<u8>]) -> Answer
    ensures { EndsWriting holds (flat_map (λ p. p.items) pieces.now) (D.meaning desk.old)
        (D.meaning desk.new) result }
{
    match write_pieces(desk, pieces) {
        Ok(()) => Answer::Done(holds),
        Err(_) => Answer::OutputFault,
    }
}

/// Ends with a verdict and the bytes to write, which are in pieces, or with the refusal.
pub fn end_in_pieces<D: Desk>(
    desk: &mut D,
    judged: Result<(bool, Vec<Vec<u8>>), Stop<Refusal>>,
) -> Answer
    ensures { EndsInPieces judged (D.meaning desk.old) (D.meaning desk.new) result }
{
    match judged {
        Ok((holds, out)) => write_out_pieces(desk, holds, &out),
        Err(Stop::Fault(refusal)) => Answer::Refused(refusal),
        Err(Stop::Memory) => Answer::NoMemory,
    }
}

/// What a text says, or the answer that ends the command.
pub fn answered<T>(judged: Result<T, Stop<Refusal>>) -> Result<T, Answer>
    ensures { Answered judged result }
{
    match judged {
        Ok(value) => Ok(value),
        Err(Stop::Fault(refusal)) => Err(Answer::Refused(refusal)),
        Err(Stop::Memory) => Err(Answer::NoMemory),
    }
}
