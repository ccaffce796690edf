// A reader of files of names.
ghost use Rattle.std.specs.Prelude.{◌≡◌, ◌++◌, List, ℕ, [], IfOk, IfErr, IfSome, OnOk, Err, None};
ghost use Rattle.std.specs.Result.{result_err};
ghost use Rattle.text_base.specs.Stopped.{IfFault};
ghost use Rattle.text_base.specs.Reading.{IsFreeSoFar, HasFaultSoFar};
ghost use Rattle.name_files.specs.Names.{name_rules};
ghost use Rattle.name_files.specs.Reader.{IsFed, ReadsNames};

use crate::fault::NameFault;
use crate::grammar::NameGrammar;
use mps_model::NameList;
use std::alloc::{AllocError, Global};
use std::marker::Model;
use text_base::{Reader, Stop};

/// Reads a file of names that comes in pieces.
#[derive(Drop)]
pub struct NameReader {
    reader: Reader<NameGrammar>,
}

impl Model for NameReader {
    ghost use Rattle.name_files.specs.Reader.{Reading};

    ghost Value = { Reading };

    ghost view = { λ r. record {
      lines = r.reader.lines;
      held = r.reader.grammar;
      stopped = r.reader.stopped;
    } };
}

impl NameReader {
    /// A reader of a new file: so many names are used, and none or so many further ones follow,
    /// which are not kept.
    pub fn new(alloc: Global, used: u32, further: u32) -> Result<NameReader, AllocError>
        ensures counts { IfOk result
            (λ reader. reader.held.counts ≡ record { used = used; further = further }) }
        ensures fed { IfOk result (λ reader. IsFed reader []) }
        // Nothing has stopped it.
        ensures going { IfOk result (λ reader. reader.stopped ≡ None) }
    {
        let grammar = NameGrammar::new(alloc, used, further);
        Ok(NameReader {
            reader: Reader::new(alloc, grammar)?,
        })
    }

    /// Takes the next piece of the text. An `Err` is answered again by each later call.
    pub fn feed(&mut self, piece: &[u8]) -> Result<(), Stop<NameFault>>
        // It stands for the text before, followed by the piece.
        ensures stands { (text : List ℕ) → IsFed self.old text
            → IsFed self.new (text ++ piece.now) }
        // No line that has ended has a fault, and no line fault is reached; or it is the first.
        ensures fine { OnOk result ((text : List ℕ) → IsFed self.old text
            → IsFreeSoFar (name_rules self.old.held.counts) (text ++ piece.now)) }
        ensures fault { IfErr result (λ stop. IfFault stop
            (λ fault. (text : List ℕ) → IsFed self.old text
            → HasFaultSoFar (name_rules self.old.held.counts) (text ++ piece.now) fault)) }
        ensures counts { self.new.held.counts ≡ self.old.held.counts }
        ensures kept { self.new.stopped ≡ result_err result }
        ensures sticky { IfSome self.old.stopped (λ stop. result ≡ Err stop) }
    {
        self.reader.feed(piece)
    }

    /// The used names, at the end of the text.
    pub fn finish(self) -> Result<NameList, Stop<NameFault>>
        ensures reads { (text : List ℕ) → IsFed self text
            → ReadsNames self.held.counts text result }
        ensures sticky { IfSome self.stopped (λ stop. result ≡ Err stop) }
    {
        self.reader.finish()
    }
}
