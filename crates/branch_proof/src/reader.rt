// A reader of proof texts.
ghost use Rattle.std.specs.Prelude.{◌≡◌, ◌++◌, List, ℕ, [], IfOk, IfErr, IfSome, OnOk, Err, None};
ghost use Rattle.std.specs.Result.{result_err};
ghost use Rattle.text_base.specs.Stopped.{IfFault};
ghost use Rattle.text_base.specs.Reading.{HasFaultSoFar, IsFreeSoFar};
ghost use Rattle.branch_proof.specs.Files.{IsProofIn};
ghost use Rattle.branch_proof.specs.Grammar.{proof_rules};
ghost use Rattle.certificates.specs.Setting.{IsProofFor, Setting};
ghost use Rattle.branch_proof.specs.Setting.{setting_of};
ghost use Rattle.branch_proof.specs.Reader.{IsFed, ReadsProof};
ghost use Rattle.certificate_text.specs.TextRows.{rows_in};
ghost use Rattle.branch_proof.specs.Standing.{proof_standing};

use crate::fault::ProofFault;
use crate::grammar::ProofGrammar;
use certificates::proof::Proof;
use nl_model::{NlFile, all_kinds};
use std::alloc::{AllocError, Global};
use std::marker::Model;
use text_base::{Reader, Stop, read};

/// Reads a proof that comes in pieces.
#[derive(Drop)]
pub struct ProofReader {
    reader: Reader<ProofGrammar>,
}

impl Model for ProofReader {
    ghost use Rattle.branch_proof.specs.Reader.{Reading};

    ghost Value = { Reading };

    ghost view = { λ r. record {
      read = r.reader.grammar;
      lines = r.reader.lines;
      stopped = r.reader.stopped;
    } };
}

// No lines of a proof of this file.
fn grammar_of(alloc: Global, file: &NlFile) -> Result<ProofGrammar, AllocError>
    ensures setting { IfOk result (λ g. g.setting ≡ setting_of file.now) }
    ensures standing { IfOk result (λ g. g.standing ≡ proof_standing (rows_in [])) }
{
    let kinds = all_kinds(alloc, file)?;
    ProofGrammar::new(alloc, file.header().counts().n_con, kinds)
}

impl ProofReader {
    /// A reader of a new proof of this file.
    pub fn new(alloc: Global, file: &NlFile) -> Result<ProofReader, AllocError>
        ensures fed { IfOk result (λ reader. IsFed (setting_of file.now) reader []) }
        // Nothing has stopped it.
        ensures going { IfOk result (λ reader. reader.stopped ≡ None) }
    {
        let grammar = grammar_of(alloc, file)?;
        Ok(ProofReader {
            reader: Reader::new(alloc, grammar)?,
        })
    }

    /// Takes the next piece of the text. An `Err` is answered again by each later call.
    pub fn feed(&mut self, piece: &[u8]) -> Result<(), Stop<ProofFault>>
        // It stands for the text before, followed by the piece.
        ensures stands { (s : Setting) (text : List ℕ) → IsFed s self.old text
            → IsFed s self.new (text ++ piece.now) }
        // No line that has ended has a fault, and no line fault is reached; or it is the first.
        ensures fine { OnOk result ((s : Setting) (text : List ℕ) → IsFed s self.old text
            → IsFreeSoFar (proof_rules s) (text ++ piece.now)) }
        ensures fault { IfErr result (λ stop. IfFault stop
            (λ fault. (s : Setting) (text : List ℕ) → IsFed s self.old text
            → HasFaultSoFar (proof_rules s) (text ++ piece.now) fault)) }
        // What it was made for stays.
        ensures setting { self.new.read.setting ≡ self.old.read.setting }
        ensures kept { self.new.stopped ≡ result_err result }
        ensures sticky { IfSome self.old.stopped (λ stop. result ≡ Err stop) }
    {
        self.reader.feed(piece)
    }

    /// The proof, at the end of the text.
    pub fn finish(self) -> Result<Proof, Stop<ProofFault>>
        ensures reads { (s : Setting) (text : List ℕ) → IsFed s self text
            → ReadsProof s text result }
        // It is a proof for what the reader was made for.
        ensures proof { IfOk result (λ p. (s : Setting) (text : List ℕ)
            → IsFed s self text → IsProofFor s p) }
        ensures sticky { IfSome self.stopped (λ stop. result ≡ Err stop) }
    {
        self.reader.finish()
    }
}

/// Reads a whole text as a proof of a file.
pub fn read_proof(alloc: Global, file: &NlFile, text: &[u8]) -> Result<Proof, Stop<ProofFault>>
    ensures reads { ReadsProof (setting_of file.now) text.now result }
    ensures proof { IfOk result (λ p. IsProofIn file.now p) }
{
    let grammar = grammar_of(alloc, file)?;
    read(alloc, grammar, text)
}
