// The grammar of .sol texts, a line at a time.
ghost use Rattle.std.specs.Prelude.{◌≡◌, ◌&&◌, ◌==◌, ◌<◌, ◌≤◌, not, [], List, ℕ, length, true, false, None, Some, IfOk, IfErr, OnOk};
ghost use Rattle.text_base.specs.Judged.{Takes, first_reason};
ghost use Rattle.text_base.specs.Cut.{IsTextLine};
ghost use Rattle.text_base.specs.Words.{row_of, texts, begins};
ghost use Rattle.sol_files.specs.Sol.{Sol};
ghost use Rattle.sol_files.specs.Parts.{is_options};
ghost use Rattle.sol_files.specs.Standing.{is_message, message_count};
ghost use Rattle.sol_files.specs.Tests.{end_tests, fault_refusal, is_over, line_tests, line_tests_at, message_tests, row_tests, row_line_tests};
ghost use Rattle.sol_files.specs.Progress.{kind_of, seen};
ghost use Rattle.sol_files.specs.Steps.{after, after_at, after_message, after_row, after_row_line, read};
ghost use Rattle.sol_files.specs.Grammar.{sol_rules, SaysSol};

use crate::awaited::Awaited;
use crate::builder::SolBuilder;
use crate::fault::{Refusal, SolReason};
use crate::sol::Sol;
use nl_model::Options;
use std::alloc::{AllocError, Global};
use std::marker::Model;
use text_base::{Grammar, LineFault, Marks, Row, Stop};

/// The message has at most so many lines.
const MOST_LINES: usize = 65_536;

/// What was read of a .sol text: what it says so far, the line that comes next, and what judging
/// further lines needs.
#[derive(Drop)]
pub struct SolGrammar {
    pub(crate) alloc: Global,
    pub(crate) draft: SolBuilder,
    pub(crate) awaited: Awaited,
    // an empty line, which is a message line unless `Options` comes next
    pub(crate) is_held_back: bool,
    pub(crate) dual_count: u32,
    pub(crate) primal_count: u32,
    pub(crate) suffix_count: u32,
    pub(crate) table_count: u32,
    pub(crate) value_count: u32,
    pub(crate) marks: Marks,
}

impl Model for SolGrammar {
    ghost use Rattle.sol_files.specs.Progress.{Progress};

    ghost Value = { Progress };

    ghost use Rattle.sol_files.specs.InsideFields.{progress_in};

    ghost view = { progress_in };

    ghost use Rattle.sol_files.specs.InsideHeld.{IsReady};

    ghost invariant = { λ g. IsReady (progress_in g) g.marks };
}

impl Grammar for SolGrammar {
    type Reason = Refusal;

    type Value = Sol;

    ghost Setting = { Unit {0} };

    ghost setting = { λ g. tt };

    ghost rules = { λ s. sol_rules };

    ghost took = { λ g lines. g ≡ read lines };

    ghost says = { λ s lines sol. SaysSol lines sol };

    fn take(&mut self, line: &[u8], number: u32) -> Result<(), Stop<Refusal>> {
        let _ = number;
        self.take_line(line)
    }

    fn line_fault(&self, fault: LineFault) -> Refusal {
        self.refuse(fault)
    }

    fn finish(self) -> Result<Sol, Stop<Refusal>> {
        match self.end() {
            Ok(sol) => Ok(sol),
            Err(refusal) => Err(Stop::Fault(refusal)),
        }
    }
}

/// A fault of the line that is judged.
pub(crate) fn here(reason: SolReason) -> Stop<Refusal>
    ensures { result ≡ Stop.Fault (Refusal.Here reason) }
{
    Stop::Fault(Refusal::Here(reason))
}

// Whether a line is exactly `Options`.
fn is_options(line: &[u8]) -> bool
    ensures { result ≡ is_options line.now }
{
    line == b"Options".as_slice()
}

fn is_message(awaited: Awaited) -> bool
    ensures { result ≡ is_message (kind_of awaited) }
{
    match awaited {
        Awaited::Message => true,
        _ => false,
    }
}

impl SolGrammar {
    /// No lines.
    pub fn new(alloc: Global) -> Result<SolGrammar, AllocError>
        ensures { IfOk result (λ g. g ≡ read []) }
    {
        let marks = Marks::new(alloc, 1)?;
        Ok(SolGrammar {
            alloc,
            draft: SolBuilder::new(alloc, Options::new(), 0, 0),
            awaited: Awaited::Message,
            is_held_back: false,
            dual_count: 0,
            primal_count: 0,
            suffix_count: 0,
            table_count: 0,
            value_count: 0,
            marks,
        })
    }

    // Whether so many message lines have come.
    fn has_lines(&self, count: usize) -> bool
        requires { 0 < count }
        ensures { result ≡ (message_count (seen self.now) == count) }
    {
        if self.is_held_back {
            return self.draft.line_count() == count - 1;
        }
        self.draft.line_count() == count
    }

    // Whether a message line too many waits for the next line.
    fn is_over(&self) -> bool
        ensures { result ≡ is_over (seen self.now) }
    {
        is_message(self.awaited) && self.has_lines(MOST_LINES + 1)
    }

    // What a line fault of the next line is.
    fn refuse(&self, fault: LineFault) -> Refusal
        ensures { result ≡ fault_refusal (seen self.now) fault }
    {
        if self.is_over() {
            return Refusal::Late;
        }
        match fault {
            LineFault::LineTooLong => Refusal::Here(SolReason::LineTooLong),
            LineFault::InputTooLong => Refusal::Here(SolReason::InputTooLong),
        }
    }

    // What is said, at the end of the text.
    fn end(self) -> Result<Sol, Refusal>
        ensures sol { IfOk result (λ sol. (sol ≡ self.sol)
            × (first_reason (end_tests (seen self)) ≡ None)) }
        ensures fault { IfErr result (λ refusal. first_reason (end_tests (seen self))
            ≡ Some refusal) }
    {
        if self.is_over() {
            return Err(Refusal::Late);
        }
        match self.awaited {
            Awaited::Tail => Ok(self.draft.finish()),
            Awaited::Message => Err(Refusal::Here(SolReason::NoOptions)),
            _ => Err(Refusal::Here(SolReason::Short)),
        }
    }

    // Takes a line.
    #[tactic(auto, unfolding(crate::specs::Tests::line_tests_at, crate::specs::Steps::after_at))]
    fn take_line(&mut self, line: &[u8]) -> Result<(), Stop<Refusal>>
        requires { IsTextLine line.now }
        ensures { Takes (line_tests (seen self.old) line.now)
            (after self.old line.now) result self.new }
    {
        match self.awaited {
            Awaited::Message => self.take_message(line),
            Awaited::Table(tables, values) => self.take_table(line, tables, values),
            Awaited::Name(head) => self.take_name(Row::of(line).words(), head),
            _ => self.take_words(Row::of(line).words()),
        }
    }

    // Takes a line of the message, or `Options`.
    fn take_message(&mut self, line: &[u8]) -> Result<(), Stop<Refusal>>
        requires awaited { self.old.awaited ≡ Awaited.Message }
        requires line { IsTextLine line.now }
        ensures { Takes (message_tests (seen self.old) line.now)
            (after_message self.old line.now) result self.new }
    {
        if is_options(line) {
            self.begin_body();
            return Ok(());
        }
        if let Err(refusal) = self.judge_message(line) {
            return Err(Stop::Fault(refusal));
        }
        self.draft.add_lines(self.is_held_back, line)?;
        self.is_held_back = line.is_empty();
        Ok(())
    }

    // The line `Options`.
    fn begin_body(&mut self)
        requires { self.old.awaited ≡ Awaited.Message }
        ensures { self.new
            ≡ record self.old { awaited = Awaited.OptionCount; is_held_back = false } }
    {
        self.awaited = Awaited::OptionCount;
        self.is_held_back = false;
    }

    // Whether the message has room for a line that is not `Options`.
    fn judge_message(&self, line: &[u8]) -> Result<(), Refusal>
        requires { is_options line.now ≡ false }
        ensures fine { OnOk result (first_reason (message_tests (seen self.now) line.now)
            ≡ None) }
        ensures fault { IfErr result
            (λ refusal. first_reason (message_tests (seen self.now) line.now) ≡ Some refusal) }
    {
        if self.is_over() {
            return Err(Refusal::Late);
        }
        if self.has_lines(MOST_LINES) && !line.is_empty() {
            return Err(Refusal::Here(SolReason::TooLarge));
        }
        Ok(())
    }

    // Takes a row, where the awaited line is neither one of the message nor taken as it is.
    fn take_words(&mut self, words: &[&[u8]]) -> Result<(), Stop<Refusal>>
        ensures { Takes
            (row_line_tests (kind_of self.old.awaited) (seen self.old) (texts words.now))
            (after_row_line self.old.awaited self.old (texts words.now)) result self.new }
    {
        if words.is_empty() {
            return Ok(());
        }
        self.take_row(words)
    }

    // Takes a row with a word.
    #[tactic(auto, unfolding(crate::specs::Tests::row_tests, crate::specs::Steps::after_row))]
    fn take_row(&mut self, words: &[&[u8]]) -> Result<(), Stop<Refusal>>
        ensures { Takes (row_tests (kind_of self.old.awaited) (seen self.old) (texts words.now))
            (after_row self.old.awaited self.old (texts words.now)) result self.new }
    {
        match self.awaited {
            Awaited::OptionCount => self.take_option_count(words),
            Awaited::Options(left) => self.take_option(words, left),
            Awaited::Constraints => self.take_constraints(words),
            Awaited::DualCount => self.take_dual_count(words),
            Awaited::Variables => self.take_variables(words),
            Awaited::PrimalCount => self.take_primal_count(words),
            Awaited::Duals(left) => self.take_dual(words, left),
            Awaited::Primals(left) => self.take_primal(words, left),
            Awaited::Tail => self.take_tail(words),
            Awaited::Values(left) => self.take_value(words, left),
            Awaited::Message | Awaited::Name(_) | Awaited::Table(_, _) => Ok(()),
        }
    }
}
