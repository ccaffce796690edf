// The grammar of files of names, a line at a time.
ghost use Rattle.std.specs.Prelude.{◌≡◌, ◌<◌, ◌+◌, ◌^◌, ◌==◌, ◌&&◌, [], length, None, true, false, OnOk, MatchOption};
ghost use Rattle.text_base.specs.Judged.{Takes, first_reason};
ghost use Rattle.text_base.specs.Names.{IsName, is_name};
ghost use Rattle.text_base.specs.Words.{texts, word_at};
ghost use Rattle.mps_model.specs.Names.{is_reserved};
ghost use Rattle.name_files.specs.Names.{standing, name_tests, used_tests, with_name, is_used, is_full, is_sole_name, tests_if};

use crate::fault::NameReason;
use mps_model::NameList;
use std::alloc::{AllocError, Global};
use std::marker::Model;
use text_base::{Grammar, LineFault, Row, Stop, is_name};

/// The names so far.
#[derive(Drop)]
pub struct NameGrammar {
    alloc: Global,
    used: u32,
    further: u32,
    count: u64,
    names: NameList,
}

impl Model for NameGrammar {
    ghost use Rattle.name_files.specs.Reader.{Held};

    ghost Value = { Held };

    ghost view = { λ g. record {
      counts = record { used = g.used; further = g.further };
      standing = record { count = g.count; names = g.names };
    } };
}

impl Grammar for NameGrammar {
    ghost use Rattle.name_files.specs.Names.{Counts, name_rules, SaysNames};

    type Reason = NameReason;

    type Value = NameList;

    ghost Setting = { Counts };

    ghost setting = { λ g. g.counts };

    ghost rules = { λ s. name_rules s };

    ghost took = { λ g lines. g.standing ≡ standing g.counts lines };

    ghost says = { λ s lines names. SaysNames s lines names };

    fn take(&mut self, line: &[u8], _number: u32) -> Result<(), Stop<NameReason>> {
        let row = Row::of(line);
        let words = row.words();
        if words.is_empty() {
            return Ok(());
        }
        self.take_words(words)
    }

    fn line_fault(&self, fault: LineFault) -> NameReason {
        match fault {
            LineFault::LineTooLong => NameReason::LineTooLong,
            LineFault::InputTooLong => NameReason::InputTooLong,
        }
    }

    #[tactic(auto, unfolding(crate::specs::Names::end_reason))]
    fn finish(self) -> Result<NameList, Stop<NameReason>> {
        if !self.is_full() {
            return Err(Stop::Fault(NameReason::OtherCount));
        }
        Ok(self.names)
    }
}

// Whether a name begins with `@`, or is the word of marker lines.
fn is_reserved(name: &[u8]) -> bool
    ensures { result ≡ is_reserved name.now }
{
    let is_marked = match name {
        [first, ..] => *first == b'@',
        [] => false,
    };
    is_marked || name == b"'MARKER'".as_slice()
}

// The only word, where it is a name.
fn sole_name<'a>(words: &[&'a [u8]]) -> Option<&'a [u8]>
    ensures { MatchOption result (is_sole_name (texts words.now) ≡ false)
        (λ name. (is_sole_name (texts words.now) ≡ true) × IsName name.now
        × (name.now ≡ word_at (texts words.now) 0)) }
{
    match words {
        [word] if is_name(word) => Some(word),
        _ => None,
    }
}

impl NameGrammar {
    /// No lines of a file of so many names.
    #[tactic(auto, unfolding(crate::specs::Names::names_of))]
    pub fn new(alloc: Global, used: u32, further: u32) -> NameGrammar
        ensures counts { result.counts ≡ record { used = used; further = further } }
        ensures standing { result.standing ≡ standing result.counts [] }
    {
        NameGrammar {
            alloc,
            used,
            further,
            count: 0,
            names: NameList::new(alloc),
        }
    }

    // How many names there may be.
    fn most(&self) -> u64
        ensures value { result ≡ self.now.counts.used + self.now.counts.further }
        ensures few { result < 2 ^ 33 }
    {
        self.used as u64 + self.further as u64
    }

    // Whether there are as many names as there may be.
    fn is_full(&self) -> bool
        ensures { result ≡ is_full self.now.counts self.now.standing.count }
    {
        self.count == self.used as u64 || self.count == self.most()
    }

    // Whether the next name is used.
    fn is_used(&self) -> bool
        ensures value { result ≡ is_used self.now.counts self.now.standing }
        ensures room { result ≡ true → length self.now.standing.names + 1 < 2 ^ 32 }
    {
        self.names.len() < self.used
    }

    // Judges a name that is used.
    fn judge_used(&self, name: &[u8]) -> Option<NameReason>
        ensures { result ≡ first_reason (used_tests self.now.standing name.now) }
    {
        if is_reserved(name) {
            return Some(NameReason::Reserved);
        }
        match self.names.find(name) {
            Some(_) => Some(NameReason::Repeated),
            None => None,
        }
    }

    // Counts a name, which is new where it is used.
    fn add(&mut self, name: &[u8]) -> Result<(), AllocError>
        requires room { self.old.standing.count < 2 ^ 33 }
        requires named { IsName name.now }
        requires fine { is_used self.old.counts self.old.standing ≡ true
            → first_reason (used_tests self.old.standing name.now) ≡ None }
        ensures counts { self.new.counts ≡ self.old.counts }
        ensures taken { OnOk result
            (self.new.standing ≡ with_name self.old.counts self.old.standing name.now) }
    {
        if self.is_used() {
            self.names.add(self.alloc, name)?;
        }
        self.count += 1;
        Ok(())
    }

    // Takes the words of a line that has some.
    #[tactic(auto, unfolding(crate::specs::Names::name_tests))]
    fn take_words(&mut self, words: &[&[u8]]) -> Result<(), Stop<NameReason>>
        ensures counts { self.new.counts ≡ self.old.counts }
        ensures takes { Takes (name_tests self.old.counts self.old.standing (texts words.now))
            (with_name self.old.counts self.old.standing (word_at (texts words.now) 0))
            result self.new.standing }
    {
        if self.count >= self.most() {
            return Err(Stop::Fault(NameReason::OtherCount));
        }
        let Some(name) = sole_name(words) else {
            return Err(Stop::Fault(NameReason::BadName));
        };
        if let Some(reason) = self.fault_of(name) {
            return Err(Stop::Fault(reason));
        }
        self.add(name)?;
        Ok(())
    }

    // What is wrong with the next name.
    fn fault_of(&self, name: &[u8]) -> Option<NameReason>
        ensures { result ≡ first_reason (tests_if (is_used self.now.counts self.now.standing)
            (used_tests self.now.standing name.now)) }
    {
        if self.is_used() {
            return self.judge_used(name);
        }
        None
    }
}
