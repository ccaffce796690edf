// A reader of answers.
ghost use Rattle.std.specs.Prelude.{◌≡◌, ◌++◌, List, ℕ, [], length, IfOk, IfErr, IfSome, OnOk, Err, None};
ghost use Rattle.std.specs.Result.{result_err};
ghost use Rattle.text_base.specs.Stopped.{IfFault};
ghost use Rattle.text_base.specs.Reading.{HasFaultSoFar, IsFreeSoFar};
ghost use Rattle.answer_file.specs.Names.{Setting, setting_of, named_setting};
ghost use Rattle.answer_file.specs.Grammar.{answer_rules};
ghost use Rattle.answer_file.specs.Reading.{IsFed, ReadsAnswer};

use crate::answer::Answer;
use crate::fault::AnswerFault;
use crate::grammar::AnswerGrammar;
use crate::scope::Scope;
use mps_model::NameList;
use nl_model::NlFile;
use std::alloc::{AllocError, Global};
use std::marker::Model;
use text_base::{Reader, Stop, read};

/// Reads an answer for a file, which comes in pieces.
#[derive(Drop)]
pub struct AnswerReader {
    reader: Reader<AnswerGrammar>,
}

impl Model for AnswerReader {
    ghost use Rattle.answer_file.specs.Reading.{Reading};

    ghost Value = { Reading };

    ghost view = { λ r. record {
      progress = r.reader.grammar;
      lines = r.reader.lines;
      stopped = r.reader.stopped;
    } };
}

impl AnswerReader {
    /// A reader of a new answer for this file.
    pub fn new(alloc: Global, file: &NlFile) -> Result<AnswerReader, AllocError>
        ensures fed { IfOk result (λ reader. IsFed (setting_of file.now) reader []) }
        // Nothing has stopped it.
        ensures going { IfOk result (λ reader. reader.stopped ≡ None) }
    {
        AnswerReader::of(alloc, Scope::of(alloc, file)?)
    }

    /// A reader of a new answer for this file, with the names of lists: those of its rows and of
    /// its columns, byte for byte; `@z` and `@zdef` name what ties the objective.
    pub fn with_names(
        alloc: Global,
        file: &NlFile,
        rows: NameList,
        columns: NameList,
    ) -> Result<AnswerReader, AllocError>
        requires rows { length rows ≡ file.now.counts.n_con }
        requires columns { length columns ≡ file.now.counts.n_var }
        ensures fed { IfOk result
            (λ reader. IsFed (named_setting file.now rows columns) reader []) }
        // Nothing has stopped it.
        ensures going { IfOk result (λ reader. reader.stopped ≡ None) }
    {
        AnswerReader::of(alloc, Scope::named(alloc, file, rows, columns)?)
    }

    // A reader of a new answer that is judged so.
    fn of(alloc: Global, scope: Scope) -> Result<AnswerReader, AllocError>
        ensures fed { IfOk result (λ reader. IsFed scope reader []) }
        ensures going { IfOk result (λ reader. reader.stopped ≡ None) }
    {
        let grammar = AnswerGrammar::new(alloc, scope)?;
        Ok(AnswerReader {
            reader: Reader::new(alloc, grammar)?,
        })
    }

    /// Takes the next piece of the text. An `Err` is answered again by each later call.
    pub fn feed(&mut self, piece: &[u8]) -> Result<(), Stop<AnswerFault>>
        // It stands for the text before, followed by the piece.
        ensures stands { (s : Setting) (text : List ℕ) → IsFed s self.old text
            → IsFed s self.new (text ++ piece.now) }
        // No line that has ended has a fault, and no line fault is reached; or it is the first
        // fault.
        ensures fine { OnOk result ((s : Setting) (text : List ℕ) → IsFed s self.old text
            → IsFreeSoFar (answer_rules s) (text ++ piece.now)) }
        ensures fault { IfErr result (λ stop. IfFault stop (λ fault. (s : Setting) (text : List ℕ)
            → IsFed s self.old text → HasFaultSoFar (answer_rules s) (text ++ piece.now) fault)) }
        ensures setting { self.new.progress.setting ≡ self.old.progress.setting }
        ensures kept { self.new.stopped ≡ result_err result }
        ensures sticky { IfSome self.old.stopped (λ stop. result ≡ Err stop) }
    {
        self.reader.feed(piece)
    }

    /// The answer, at the end of the text.
    pub fn finish(self) -> Result<Answer, Stop<AnswerFault>>
        ensures reads { (s : Setting) (text : List ℕ) → IsFed s self text
            → ReadsAnswer s text result }
        ensures sticky { IfSome self.stopped (λ stop. result ≡ Err stop) }
    {
        self.reader.finish()
    }
}

/// Reads a whole text as an answer for a file.
pub fn read_answer(alloc: Global, file: &NlFile, text: &[u8]) -> Result<Answer, Stop<AnswerFault>>
    ensures { ReadsAnswer (setting_of file.now) text.now result }
{
    let grammar = AnswerGrammar::new(alloc, Scope::of(alloc, file)?)?;
    read(alloc, grammar, text)
}
