// What an answer says.
ghost use Rattle.std.specs.Prelude.{◌≡◌, ◌<◌, get_or, is_some, None};
ghost use Rattle.std.specs.List.{list_any};

use crate::values::Values;
use exact_numbers::Dec;
use nl_model::Suffix;
use std::marker::Model;
use text_base::TextLines;

/// A solver's answer for a file.
#[derive(Drop)]
pub struct Answer {
    status: Option<u32>,
    message: TextLines,
    min_sign: bool,
    objective: u32,
    columns: Values,
    rows: Values,
    suffixes: Vec<Suffix>,
}

impl Model for Answer {
    ghost use Rattle.answer_file.specs.Grammar.{AnswerValue};

    ghost Value = { AnswerValue };

    ghost view = { λ a. record {
      status = a.status;
      message = a.message;
      min_sign = a.min_sign;
      objective = a.objective;
      columns = a.columns;
      rows = a.rows;
      suffixes = a.suffixes.items;
    } };
}

impl Answer {
    /// The answer of these parts.
    pub(crate) fn new(
        status: Option<u32>,
        message: TextLines,
        min_sign: bool,
        objective: u32,
        columns: Values,
        rows: Values,
        suffixes: Vec<Suffix>,
    ) -> Answer
        ensures { result ≡ record {
          status = status;
          message = message;
          min_sign = min_sign;
          objective = objective;
          columns = columns;
          rows = rows;
          suffixes = suffixes.items;
        } }
    {
        Answer {
            status,
            message,
            min_sign,
            objective,
            columns,
            rows,
            suffixes,
        }
    }

    /// The status, where one was given.
    pub fn status(&self) -> Option<u32>
        ensures { result ≡ self.now.status }
    {
        self.status
    }

    /// The lines of the message.
    pub fn message(&self) -> &TextLines
        ensures { result.now ≡ self.now.message }
    {
        &self.message
    }

    /// Whether duals are given as for minimising, also where the objective is maximised.
    pub fn min_sign(&self) -> bool
        ensures { result ≡ self.now.min_sign }
    {
        self.min_sign
    }

    /// The number of the objective.
    pub fn objective(&self) -> u32
        ensures { result ≡ self.now.objective }
    {
        self.objective
    }

    /// The value of a variable, where it was given.
    pub fn col(&self, var: u32) -> Option<Dec>
        ensures { result ≡ get_or self.now.columns var None }
    {
        self.columns.get(var)
    }

    /// The dual value of a constraint, where it was given.
    pub fn row(&self, con: u32) -> Option<Dec>
        ensures { result ≡ get_or self.now.rows con None }
    {
        self.rows.get(con)
    }

    /// Whether a value was given for some variable.
    #[tactic(auto, using(crate::proofs::GivenLemmas::some_counted))]
    pub fn has_cols(&self) -> bool
        ensures { result ≡ list_any is_some self.now.columns }
    {
        self.columns.given() > 0
    }

    /// Whether a value was given for some constraint.
    #[tactic(auto, using(crate::proofs::GivenLemmas::some_counted))]
    pub fn has_rows(&self) -> bool
        ensures { result ≡ list_any is_some self.now.rows }
    {
        self.rows.given() > 0
    }

    /// The suffixes, in order of first appearance.
    pub fn suffixes(&self) -> &[Suffix]
        ensures { result.now ≡ self.now.suffixes }
    {
        &self.suffixes
    }
}
