// A reader of MPS texts of fixed columns.
ghost use Rattle.std.specs.Prelude.{◌≡◌, ◌++◌, List, ℕ, [], IfOk, IfErr, IfSome, OnOk, Err, None};
ghost use Rattle.std.specs.Result.{result_err};
ghost use Rattle.text_base.specs.Stopped.{IfFault};
ghost use Rattle.text_base.specs.Reading.{IsFreeSoFar};
ghost use Rattle.fixed_mps.specs.Grammar.{fixed_rules};
ghost use Rattle.fixed_mps.specs.Reader.{IsFed, ReadsFixed, HasFixedFaultSoFar};

use crate::grammar::FixedGrammar;
use mps_model::Mps;
use mps_reader::MpsFault;
use std::alloc::{AllocError, Global};
use std::marker::Model;
use text_base::{Reader, Stop};

/// Reads an MPS text of fixed columns that comes in pieces.
#[derive(Drop)]
pub struct FixedReader {
    reader: Reader<FixedGrammar>,
}

impl Model for FixedReader {
    ghost use Rattle.mps_reader.specs.Reader.{Reading};

    ghost Value = { Reading };

    ghost view = { λ r. record {
      lines = r.reader.lines;
      standing = r.reader.grammar;
      stopped = r.reader.stopped;
    } };
}

impl FixedReader {
    /// A reader of a new text.
    pub fn new(alloc: Global) -> Result<FixedReader, AllocError>
        ensures fed { IfOk result (λ reader. IsFed reader []) }
        // Nothing has stopped it.
        ensures going { IfOk result (λ reader. reader.stopped ≡ None) }
    {
        let grammar = FixedGrammar::new(alloc)?;
        Ok(FixedReader {
            reader: Reader::new(alloc, grammar)?,
        })
    }

    /// Takes the next piece of the text. An `Err` is answered again by each later call.
    pub fn feed(&mut self, piece: &[u8]) -> Result<(), Stop<MpsFault>>
        // It stands for the text before, followed by the piece.
        ensures stands { (text : List ℕ) → IsFed self.old text
            → IsFed self.new (text ++ piece.now) }
        // No line that has ended has a fault, and no line fault is reached; or it is the first.
        ensures fine { OnOk result ((text : List ℕ) → IsFed self.old text
            → IsFreeSoFar fixed_rules (text ++ piece.now)) }
        ensures fault { IfErr result (λ stop. IfFault stop
            (λ fault. (text : List ℕ) → IsFed self.old text
            → HasFixedFaultSoFar (text ++ piece.now) fault)) }
        ensures kept { self.new.stopped ≡ result_err result }
        ensures sticky { IfSome self.old.stopped (λ stop. result ≡ Err stop) }
    {
        self.reader.feed(piece)
    }

    /// The program, at the end of the text.
    pub fn finish(self) -> Result<Mps, Stop<MpsFault>>
        ensures reads { (text : List ℕ) → IsFed self text → ReadsFixed text result }
        ensures sticky { IfSome self.stopped (λ stop. result ≡ Err stop) }
    {
        self.reader.finish()
    }
}
