// What the lines of an answer said so far, one method for each kind of line.
ghost use Rattle.std.specs.Prelude.{◌≡◌, ◌<◌, length, [], None, Some, IfOk, IfErr, OnOk, true, option_map};
ghost use Rattle.text_base.specs.Judged.{Takes, first_reason};
ghost use Rattle.text_base.specs.Stopped.{IfFault};
ghost use Rattle.text_base.specs.Words.{row_of, texts, word_at};
ghost use Rattle.exact_numbers.specs.Numbers.{dec_of};
ghost use Rattle.answer_file.specs.declared.keyword.Keyword.{Keyword as KeywordOf};
ghost use Rattle.answer_file.specs.Entries.{keyword_of, message_in, status_in, sign_in, objective_in, kind_in, at_place, suffix_in, entry_in, MessageLine, StatusIs, SignIs, ObjectiveIs, ColumnValue, RowValue};
ghost use Rattle.answer_file.specs.Names.{Setting, column_target, row_target};
ghost use Rattle.answer_file.specs.Grammar.{standing, answer_of, is_given, first_tests, status_tests, message_tests, sign_tests, objective_tests, value_tests, suffix_tests, row_tests, line_tests, end_tests, is_part};
ghost use Rattle.answer_file.specs.Steps.{after, with_entry, with_said, with_given};

use crate::answer::Answer;
use crate::fault::AnswerReason;
use crate::keyword::{Keyword, keyword_of};
use crate::scope::Scope;
use crate::suffixes::take_object;
use crate::table::SuffixTable;
use crate::target::Target;
use crate::values::Values;
use crate::words::{kind_in, message_in, objective_in, sign_in, status_in};
use exact_numbers::{Dec, dec_of};
use nl_model::objects_of;
use std::alloc::{AllocError, Global};
use std::marker::Model;
use text_base::{Row, Stop, TextLines, is_name, word_at};

/// A message has at most so many lines.
const MOST_MESSAGE_LINES: usize = 1 << 16;

/// What the lines so far said.
#[derive(Drop)]
pub struct Parts {
    begun: bool,
    status: Option<u32>,
    message: TextLines,
    sign: Option<bool>,
    objective: Option<u32>,
    columns: Values,
    rows: Values,
    suffixes: SuffixTable,
}

impl Model for Parts {
    ghost use Rattle.answer_file.specs.Grammar.{Standing};

    ghost Value = { Standing };

    ghost view = { λ p. record {
      begun = p.begun;
      status = p.status;
      message = p.message;
      sign = p.sign;
      objective = p.objective;
      columns = p.columns;
      rows = p.rows;
      suffixes = p.suffixes;
    } };
}

// Whether a value was given for what a name stands for.
fn is_given(values: &Values, target: Option<Target>) -> bool
    ensures { result ≡ is_given values.now target }
{
    match target {
        Some(Target::Place(place)) => values.get(place).is_some(),
        _ => false,
    }
}

// Takes a value of a column or of a row.
#[tactic(auto, unfolding(crate::specs::Grammar::value_tests))]
fn take_value(
    values: &mut Values,
    target: Option<Target>,
    words: &[&[u8]],
) -> Result<(), Stop<AnswerReason>>
    ensures { Takes (value_tests values.old target (texts words.now))
        (with_given values.old target (dec_of (word_at (texts words.now) 2))) result values.new }
{
    if words.len() != 3 {
        return Err(Stop::Fault(AnswerReason::BadLine));
    }
    let Some(target) = target else {
        return Err(Stop::Fault(AnswerReason::UnknownName));
    };
    let Some(value) = dec_of(word_at(words, 2)) else {
        return Err(Stop::Fault(AnswerReason::BadNumber));
    };
    if is_given(values, Some(target)) {
        return Err(Stop::Fault(AnswerReason::Repeated));
    }
    if let Target::Place(place) = target {
        values.give(place, value);
    }
    Ok(())
}

// Whether some values were given, but not all.
fn is_part(given: usize, all: usize) -> bool
    ensures { result ≡ is_part given all }
{
    0 < given && given < all
}

impl Parts {
    /// No lines.
    #[tactic(auto, using(crate::proofs::StandingLemmas::standing_none))]
    pub(crate) fn new(alloc: Global, scope: &Scope) -> Result<Parts, AllocError>
        ensures { IfOk result (λ p. p ≡ standing scope.now []) }
    {
        let columns = Values::new(alloc, scope.columns() as usize)?;
        let rows = Values::new(alloc, scope.rows())?;
        Ok(Parts {
            begun: false,
            status: None,
            message: TextLines::new(alloc),
            sign: None,
            objective: None,
            columns,
            rows,
            suffixes: SuffixTable::new(alloc),
        })
    }

    #[tactic(auto, unfolding(crate::specs::Grammar::first_tests))]
    fn take_first(&mut self, words: &[&[u8]]) -> Result<(), Stop<AnswerReason>>
        ensures { Takes (first_tests (texts words.now))
            (record self.old { begun = true }) result self.new }
    {
        if words.len() != 2 || words[0] != b"answer".as_slice() || words[1] != b"1".as_slice() {
            return Err(Stop::Fault(AnswerReason::BadFirst));
        }
        self.begun = true;
        Ok(())
    }

    #[tactic(auto, unfolding(crate::specs::Grammar::status_tests))]
    fn take_status(&mut self, words: &[&[u8]]) -> Result<(), Stop<AnswerReason>>
        ensures { Takes (status_tests self.old (texts words.now))
            (with_said self.old (option_map StatusIs
            (status_in (texts words.now)))) result self.new }
    {
        if words.len() != 2 {
            return Err(Stop::Fault(AnswerReason::BadLine));
        }
        let Some(status) = status_in(words) else {
            return Err(Stop::Fault(AnswerReason::BadNumber));
        };
        if self.status.is_some() {
            return Err(Stop::Fault(AnswerReason::Repeated));
        }
        self.status = Some(status);
        Ok(())
    }

    #[tactic(auto, unfolding(crate::specs::Grammar::message_tests))]
    fn take_message(&mut self, text: &[u8]) -> Result<(), Stop<AnswerReason>>
        ensures { Takes (message_tests self.old text.now)
            (with_entry self.old (MessageLine text.now)) result self.new }
    {
        if text == b"Options".as_slice() {
            return Err(Stop::Fault(AnswerReason::BadLine));
        }
        if self.message.len() >= MOST_MESSAGE_LINES {
            return Err(Stop::Fault(AnswerReason::TooLarge));
        }
        self.message.push(text)?;
        Ok(())
    }

    #[tactic(auto, unfolding(crate::specs::Grammar::sign_tests))]
    fn take_sign(&mut self, words: &[&[u8]]) -> Result<(), Stop<AnswerReason>>
        ensures { Takes (sign_tests self.old (texts words.now))
            (with_said self.old (option_map SignIs (sign_in (texts words.now)))) result self.new }
    {
        if words.len() != 2 {
            return Err(Stop::Fault(AnswerReason::BadLine));
        }
        let Some(sign) = sign_in(words) else {
            return Err(Stop::Fault(AnswerReason::BadLine));
        };
        if self.sign.is_some() {
            return Err(Stop::Fault(AnswerReason::Repeated));
        }
        self.sign = Some(sign);
        Ok(())
    }

    #[tactic(auto, unfolding(crate::specs::Grammar::objective_tests))]
    fn take_objective(&mut self, words: &[&[u8]]) -> Result<(), Stop<AnswerReason>>
        ensures { Takes (objective_tests self.old (texts words.now))
            (with_said self.old (option_map ObjectiveIs (objective_in (texts words.now)))) result
            self.new }
    {
        if words.len() != 2 {
            return Err(Stop::Fault(AnswerReason::BadLine));
        }
        let Some(objective) = objective_in(words) else {
            return Err(Stop::Fault(AnswerReason::BadNumber));
        };
        if self.objective.is_some() {
            return Err(Stop::Fault(AnswerReason::Repeated));
        }
        self.objective = Some(objective);
        Ok(())
    }

    fn take_column(&mut self, scope: &Scope, words: &[&[u8]]) -> Result<(), Stop<AnswerReason>>
        ensures { Takes (value_tests self.old.columns
            (column_target scope.now (word_at (texts words.now) 1)) (texts words.now))
            (with_said self.old (at_place ColumnValue
            (column_target scope.now (word_at (texts words.now) 1))
            (dec_of (word_at (texts words.now) 2)))) result self.new }
    {
        let target = scope.column_target(word_at(words, 1));
        take_value(&mut self.columns, target, words)
    }

    fn take_row_value(&mut self, scope: &Scope, words: &[&[u8]]) -> Result<(), Stop<AnswerReason>>
        ensures { Takes (value_tests self.old.rows
            (row_target scope.now (word_at (texts words.now) 1)) (texts words.now))
            (with_said self.old (at_place RowValue
            (row_target scope.now (word_at (texts words.now) 1))
            (dec_of (word_at (texts words.now) 2)))) result self.new }
    {
        let target = scope.row_target(word_at(words, 1));
        take_value(&mut self.rows, target, words)
    }

    #[tactic(auto, unfolding(crate::specs::Grammar::suffix_tests))]
    fn take_suffix(
        &mut self,
        alloc: Global,
        scope: &Scope,
        words: &[&[u8]],
    ) -> Result<(), Stop<AnswerReason>>
        ensures { Takes (suffix_tests scope.now self.old.suffixes (texts words.now))
            (with_said self.old (suffix_in scope.now (texts words.now) (kind_in (texts words.now))))
            result self.new }
    {
        let name = word_at(words, 2);
        if words.len() != 5 || !is_name(name) {
            return Err(Stop::Fault(AnswerReason::BadLine));
        }
        let Some(kind) = kind_in(words) else {
            return Err(Stop::Fault(AnswerReason::BadNumber));
        };
        let objects = objects_of(kind as u8);
        let target = scope.object_target(objects, word_at(words, 3));
        take_object(
            &mut self.suffixes,
            alloc,
            kind as u8,
            name,
            target,
            dec_of(word_at(words, 4)),
        )
    }

    // Takes a row after the first.
    #[tactic(auto, unfolding(crate::specs::Grammar::row_tests, crate::specs::Entries::entry_in))]
    fn take_row(
        &mut self,
        alloc: Global,
        scope: &Scope,
        line: &[u8],
        words: &[&[u8]],
    ) -> Result<(), Stop<AnswerReason>>
        requires { texts words.now ≡ row_of line.now }
        ensures { Takes (row_tests scope.now self.old line.now)
            (with_said self.old (entry_in scope.now line.now)) result self.new }
    {
        match keyword_of(word_at(words, 0)) {
            Some(Keyword::Status) => self.take_status(words),
            Some(Keyword::Message) => self.take_message(message_in(line)),
            Some(Keyword::Sign) => self.take_sign(words),
            Some(Keyword::Objno) => self.take_objective(words),
            Some(Keyword::Col) => self.take_column(scope, words),
            Some(Keyword::Row) => self.take_row_value(scope, words),
            Some(Keyword::Suffix) => self.take_suffix(alloc, scope, words),
            None => Err(Stop::Fault(AnswerReason::BadLine)),
        }
    }

    /// Takes a line. After an `Err` nothing is known of what was taken.
    #[tactic(auto, unfolding(crate::specs::Grammar::line_tests, crate::specs::Steps::after))]
    pub(crate) fn take_line(
        &mut self,
        alloc: Global,
        scope: &Scope,
        line: &[u8],
    ) -> Result<(), Stop<AnswerReason>>
        ensures { Takes (line_tests scope.now self.old line.now)
            (after scope.now self.old line.now) result self.new }
    {
        let row = Row::of(line);
        let words = row.words();
        if words.is_empty() {
            return Ok(());
        }
        if !self.begun {
            return self.take_first(words);
        }
        self.take_row(alloc, scope, line, words)
    }

    // Judges the end.
    #[tactic(auto, unfolding(crate::specs::Grammar::end_tests))]
    fn judge_end(&self, scope: &Scope) -> Result<(), AnswerReason>
        ensures fine { OnOk result (first_reason (end_tests scope.now self.now) ≡ None) }
        ensures fault { IfErr result (λ reason. first_reason (end_tests scope.now self.now)
            ≡ Some reason) }
    {
        if !self.begun {
            return Err(AnswerReason::BadFirst);
        }
        if is_part(self.columns.given(), scope.columns() as usize)
            || is_part(self.rows.given(), scope.exported_count())
        {
            return Err(AnswerReason::Partial);
        }
        Ok(())
    }

    /// The answer, at the end of the text.
    pub(crate) fn finish(self, alloc: Global, scope: &Scope) -> Result<Answer, Stop<AnswerReason>>
        ensures value { IfOk result (λ answer. answer ≡ answer_of self) }
        ensures fine { OnOk result (first_reason (end_tests scope.now self) ≡ None) }
        ensures fault { IfErr result (λ stop. IfFault stop
            (λ reason. first_reason (end_tests scope.now self) ≡ Some reason)) }
    {
        if let Err(reason) = self.judge_end(scope) {
            drop(self);
            return Err(Stop::Fault(reason));
        }
        let objective = self.objective.unwrap_or(0);
        let suffixes = self.suffixes.into_suffixes(alloc, objective)?;
        Ok(Answer::new(
            self.status,
            self.message,
            self.sign.unwrap_or(false),
            objective,
            self.columns,
            self.rows,
            suffixes,
        ))
    }
}
