// Laws of answers.
ghost use Rattle.std.specs.Prelude.{◌≡◌, ◌<◌, List, ℕ, ◌++◌, ◌∷◌, [], length, map, get_or, Some};
ghost use Rattle.linear_program.specs.Intervals.{is_sided};
ghost use Rattle.text_base.specs.Judged.{HasOneOutcome};
ghost use Rattle.text_base.specs.Reading.{lines_of, last_of};
ghost use Rattle.nl_model.specs.File.{File};
ghost use Rattle.mps_model.specs.Names.{AreNames};
ghost use Rattle.answer_file.specs.declared.target.Target.TheVariants.{Place};
ghost use Rattle.answer_file.specs.Names.{Setting, named_setting, column_target, row_target, if_exported};
ghost use Rattle.answer_file.specs.Grammar.{AnswerValue, SaysAnswer, answer_rules, standing};
ghost use Rattle.answer_file.specs.Steps.{after};

/// Each text is free of faults as an answer or has one first fault, and what it says is one answer.
#[tactic(auto, using(text_base::proofs::JudgedLemmas::one_outcome))]
pub fn one_reading()
    ensures outcome { (s : Setting) (text : List ℕ)
        → HasOneOutcome (answer_rules s) (lines_of text) (last_of text) }
    ensures value { (s : Setting) (lines : List (List ℕ)) (a b : AnswerValue) → SaysAnswer s lines a
        → SaysAnswer s lines b → a ≡ b }
{}

/// What lines mean for the next one depends on the last of them and on what those before it mean.
#[tactic(auto, using(crate::proofs::StandingLemmas::standing_more))]
pub fn one_line_more()
    ensures { (s : Setting) (lines : List (List ℕ)) (line : List ℕ)
        → standing s (lines ++ line ∷ []) ≡ after s (standing s lines) line }
{}

/// A name of a list stands for the column of its number, or for the row of its number where that is
/// exported.
#[tactic(auto, using(crate::proofs::FoundLemmas::column_found, crate::proofs::FoundLemmas::row_found))]
pub fn names_of_lists()
    ensures columns { (f : File) (rows columns : List (List ℕ)) (j : ℕ) → AreNames columns
        → length columns ≡ f.counts.n_var → j < length columns
        → column_target (named_setting f rows columns) (get_or columns j []) ≡ Some (Place j) }
    ensures rows { (f : File) (rows columns : List (List ℕ)) (i : ℕ) → AreNames rows
        → length rows ≡ length f.sides → i < length rows
        → row_target (named_setting f rows columns) (get_or rows i [])
        ≡ if_exported (map is_sided f.sides) i }
{}
