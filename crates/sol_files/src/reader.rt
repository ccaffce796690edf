// A reader of .sol texts.
ghost use Rattle.std.specs.Prelude.{◌≡◌, ◌++◌, List, ℕ, [], IfOk, IfErr, IfSome, OnOk, MatchResult, Err, option_map, None};
ghost use Rattle.std.specs.Result.{result_err};
ghost use Rattle.text_base.specs.declared.stop.Stop.TheVariants.{Memory};
ghost use Rattle.sol_files.specs.Sol.{Sol as SolValue};
ghost use Rattle.sol_files.specs.Written.{IsWritable, sol_text};
ghost use Rattle.text_base.specs.Stopped.{IfFault};
ghost use Rattle.text_base.specs.Reading.{IsFreeSoFar};
ghost use Rattle.sol_files.specs.Grammar.{sol_rules};
ghost use Rattle.sol_files.specs.Reader.{IsFed, ReadsSol, HasSolFaultSoFar};
ghost use Rattle.sol_files.specs.Told.{told_stop};

use crate::fault::{SolFault, told_stop};
use crate::grammar::SolGrammar;
use crate::sol::Sol;
use std::alloc::{AllocError, Global};
use std::marker::Model;
use text_base::{Reader, Stop};

/// Reads a .sol text that comes in pieces.
#[derive(Drop)]
pub struct SolReader {
    reader: Reader<SolGrammar>,
}

impl Model for SolReader {
    ghost use Rattle.sol_files.specs.Reader.{Reading};

    ghost Value = { Reading };

    ghost view = { λ r. record {
      lines = r.reader.lines;
      progress = r.reader.grammar;
      stopped = r.reader.stopped;
    } };
}

impl SolReader {
    /// A reader of a new text.
    pub fn new(alloc: Global) -> Result<SolReader, AllocError>
        ensures fed { IfOk result (λ reader. IsFed reader []) }
        // Nothing has stopped it.
        ensures going { IfOk result (λ reader. reader.stopped ≡ None) }
    {
        let grammar = SolGrammar::new(alloc)?;
        Ok(SolReader {
            reader: Reader::new(alloc, grammar)?,
        })
    }

    /// Takes the next piece of the text. An `Err` is answered again by each later call.
    pub fn feed(&mut self, piece: &[u8]) -> Result<(), Stop<SolFault>>
        // It stands for the text before, followed by the piece.
        ensures stands { (text : List ℕ) → IsFed self.old text
            → IsFed self.new (text ++ piece.now) }
        // No line that has ended has a fault, and no line fault is reached; or it is the first.
        ensures fine { OnOk result ((text : List ℕ) → IsFed self.old text
            → IsFreeSoFar sol_rules (text ++ piece.now)) }
        ensures fault { IfErr result (λ stop. IfFault stop
            (λ fault. (text : List ℕ) → IsFed self.old text
            → HasSolFaultSoFar (text ++ piece.now) fault)) }
        ensures kept { result_err result ≡ option_map told_stop self.new.stopped }
        ensures sticky { IfSome self.old.stopped (λ found. result ≡ Err (told_stop found)) }
    {
        match self.reader.feed(piece) {
            Ok(()) => Ok(()),
            Err(stop) => Err(told_stop(stop)),
        }
    }

    /// What the text says, at its end.
    pub fn finish(self) -> Result<Sol, Stop<SolFault>>
        ensures reads { (text : List ℕ) → IsFed self text → ReadsSol text result }
        // The written text of a value, in any pieces, is read as the value.
        ensures again { (sol : SolValue) → IsWritable sol → IsFed self (sol_text sol)
            → MatchResult result (λ read. read ≡ sol) (λ stop. stop ≡ Memory) }
        ensures sticky { IfSome self.stopped (λ found. result ≡ Err (told_stop found)) }
    {
        match self.reader.finish() {
            Ok(sol) => Ok(sol),
            Err(stop) => Err(told_stop(stop)),
        }
    }
}
