// Laws of MPS texts of fixed columns. Each is proved by a function with an empty body.
ghost use Rattle.std.specs.Prelude.{◌≡◌, ◌≤◌, List, ℕ, length};
ghost use Rattle.text_base.specs.Judged.{HasOneOutcome};
ghost use Rattle.text_base.specs.Reading.{lines_of, last_of};
ghost use Rattle.exact_numbers.specs.declared.dec.Dec.{Dec};
ghost use Rattle.mps_model.specs.Mps.{Mps};
ghost use Rattle.text_base.specs.Cut.{IsTextLine};
ghost use Rattle.fixed_mps.specs.Fields.{free};
ghost use Rattle.fixed_mps.specs.Grammar.{fixed_rules, SaysFixed};

/// Each text is free of faults or has one first fault, and what it says is one program.
pub fn one_reading()
    ensures outcome { (text : List ℕ) → HasOneOutcome fixed_rules (lines_of text) (last_of text) }
    ensures value { (lines : List (List ℕ)) (m n : Mps Dec) → SaysFixed lines m
        → SaysFixed lines n → m ≡ n }
{}

/// No free form is longer than its line.
pub fn no_longer()
    ensures { (line : List ℕ) → IsTextLine line → length (free line) ≤ length line }
{}
