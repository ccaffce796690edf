// Laws of .nl texts.
ghost use Rattle.std.specs.Prelude.{◌≡◌, ◌+◌, List, ℕ, ◌++◌, ◌∷◌, [], length};
ghost use Rattle.text_base.specs.Judged.{HasOneOutcome};
ghost use Rattle.text_base.specs.Reading.{lines_of, last_of};
ghost use Rattle.nl_segments.specs.Grammar.{nl_rules, NlValue, SaysFile, standing};
ghost use Rattle.nl_segments.specs.Reader.{HasLinesUpTo, HasPieces, IsNl};
ghost use Rattle.nl_segments.specs.Steps.{after};

/// Each text is free of faults or has one first fault, and what it says is one file with one list
/// of places.
pub fn one_reading()
    ensures outcome { (text : List ℕ) → HasOneOutcome nl_rules (lines_of text) (last_of text) }
    ensures value { (lines : List (List ℕ)) (v w : NlValue) → SaysFile lines v
        → SaysFile lines w → v ≡ w }
{}

/// What lines mean for the next one depends on the last of them and on what those before it mean.
pub fn one_line_more()
    ensures { (lines : List (List ℕ)) (line : List ℕ) → standing (lines ++ line ∷ [])
        ≡ after (standing lines) (length lines + 1) line }
{}

/// Each expression of the file of a text that is read has, in prefix form, the nodes that the rows
/// of its piece are.
#[tactic(auto, using(crate::proofs::CleanTexts::has_pieces))]
pub fn trees_are_pieces()
    ensures { (text : List ℕ) (value : NlValue) → IsNl text value
        → HasPieces (standing (lines_of text)) value.file }
{}

/// Each node, term and head of the file of a text that is read has its line, which is one of the
/// text's lines.
#[tactic(auto, using(crate::proofs::CleanTexts::has_lines_up_to))]
pub fn places_have_lines()
    ensures { (text : List ℕ) (value : NlValue) → IsNl text value
        → HasLinesUpTo (length (lines_of text)) value }
{}
