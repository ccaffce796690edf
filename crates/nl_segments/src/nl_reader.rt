// A reader of .nl texts.
ghost use Rattle.std.specs.Prelude.{◌≡◌, ◌++◌, List, ℕ, [], IfOk, IfErr, IfSome, OnOk, Err, None};
ghost use Rattle.std.specs.Result.{result_err};
ghost use Rattle.text_base.specs.Stopped.{IfFault};
ghost use Rattle.text_base.specs.Reading.{IsFreeSoFar};
ghost use Rattle.nl_segments.specs.Grammar.{nl_rules};
ghost use Rattle.nl_segments.specs.Reader.{IsFed, ReadsNl, HasNlFaultSoFar, HasLines, stop_of, stop_in, fault_of, opcode_of};

use crate::grammar::NlGrammar;
use crate::nl_read::NlRead;
use nl_lines::{NlFault, NlReason};
use std::alloc::{AllocError, Global};
use std::marker::Model;
use text_base::{Reader, Stop, TextFault};

// The opcode that is refused; 0 for any other reason.
fn opcode_of(reason: NlReason) -> u32
    ensures { result ≡ opcode_of reason }
{
    match reason {
        NlReason::RefusedOpcode(opcode) => opcode,
        _ => 0,
    }
}

/// The fault of a text at a line.
pub fn fault_of(found: TextFault<NlReason>) -> NlFault
    ensures { result ≡ fault_of found }
{
    NlFault {
        reason: found.reason,
        line: found.line,
        opcode: opcode_of(found.reason),
    }
}

fn stop_of(stop: Stop<TextFault<NlReason>>) -> Stop<NlFault>
    ensures { result ≡ stop_of stop }
{
    stop.map_fault(|found| fault_of(found))
}

/// Reads an .nl text that comes in pieces.
#[derive(Drop)]
pub struct NlReader {
    reader: Reader<NlGrammar>,
}

impl Model for NlReader {
    ghost use Rattle.nl_segments.specs.Reader.{Reading};

    ghost Value = { Reading };

    ghost use Rattle.nl_segments.specs.Reader.{reading_code};

    ghost coded = { reading_code };

    ghost view = { λ r. record {
      lines = r.reader.lines;
      progress = r.reader.grammar;
      stopped = r.reader.stopped;
    } };

    ghost use Rattle.nl_segments.specs.Reader.{WasFed};

    ghost invariant = { λ r. WasFed
        (record {
          lines = r.reader.lines;
          progress = r.reader.grammar;
          stopped = r.reader.stopped;
        }) };
}

impl NlReader {
    /// A reader of a new text.
    pub fn new(alloc: Global) -> Result<NlReader, AllocError>
        ensures fed { IfOk result (λ reader. IsFed reader []) }
        // Nothing has stopped it.
        ensures going { IfOk result (λ reader. stop_in reader ≡ None) }
    {
        Ok(NlReader {
            reader: Reader::new(alloc, NlGrammar::new(alloc))?,
        })
    }

    /// Takes the next piece of the text. An `Err` is answered again by each later call.
    pub fn feed(&mut self, piece: &[u8]) -> Result<(), Stop<NlFault>>
        // It stands for the text before, followed by the piece.
        ensures stands { (text : List ℕ) → IsFed self.old text
            → IsFed self.new (text ++ piece.now) }
        // No line that has ended has a fault, and no line fault is reached; or it is the first
        // fault.
        ensures fine { OnOk result
            ((text : List ℕ) → IsFed self.old text → IsFreeSoFar nl_rules (text ++ piece.now)) }
        ensures fault { IfErr result
            (λ stop. IfFault stop
            (λ fault. (text : List ℕ) → IsFed self.old text
            → HasNlFaultSoFar (text ++ piece.now) fault)) }
        // It keeps the stop that it answers, and no other.
        ensures kept { stop_in self.new ≡ result_err result }
        ensures sticky { IfSome (stop_in self.old) (λ stop. result ≡ Err stop) }
    {
        if let Err(stop) = self.reader.feed(piece) {
            return Err(stop_of(stop));
        }
        Ok(())
    }

    /// The file and its places, at the end of the text.
    pub fn finish(self) -> Result<NlRead, Stop<NlFault>>
        ensures reads { (text : List ℕ) → IsFed self text → ReadsNl text result }
        ensures lines { IfOk result HasLines }
        ensures sticky { IfSome (stop_in self) (λ stop. result ≡ Err stop) }
    {
        match self.reader.finish() {
            Ok(read) => Ok(read),
            Err(stop) => Err(stop_of(stop)),
        }
    }
}

/// Reads a whole text.
#[tactic(auto, using(crate::proofs::CleanTexts::has_lines))]
pub fn read_nl(alloc: Global, text: &[u8]) -> Result<NlRead, Stop<NlFault>>
    ensures reads { ReadsNl text.now result }
    ensures lines { IfOk result HasLines }
{
    match text_base::read(alloc, NlGrammar::new(alloc), text) {
        Ok(read) => Ok(read),
        Err(stop) => Err(stop_of(stop)),
    }
}
