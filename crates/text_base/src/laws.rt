// What holds of every grammar and of the lines of every text.
ghost use Rattle.std.specs.Prelude.{◌≡◌, ◌≤◌, ◌^◌, List, ℕ, ◌++◌, length};
ghost use Rattle.std.specs.List.{AllByRecursion};
ghost use Rattle.text_base.specs.Cut.{IsCut, IsTextLine, ended_lines};
ghost use Rattle.text_base.specs.Judged.{Rules, HasOneOutcome, End};
ghost use Rattle.text_base.specs.Lines.{scan};
ghost use Rattle.text_base.specs.Reading.{lines_of, last_of, lines_so_far, last_so_far, HasFault, HasFaultSoFar, IsLineOf};
ghost use Rattle.text_base.specs.Words.{row_of, words_of};
ghost use Rattle.text_base.specs.declared.fault.TextFault.{TextFault};

/// Whatever the rules, each text is free of faults or has one first fault; and so is what has come
/// of a text.
pub fn one_outcome<R>()
    ensures whole { (rules : Rules R) (text : List ℕ)
        → HasOneOutcome rules (lines_of text) (last_of text) }
    ensures so_far { (rules : Rules R) (text : List ℕ)
        → HasOneOutcome rules (lines_so_far text) (last_so_far text) }
{}

/// A fault of what has come of a text is the first fault of the text, whatever comes.
pub fn fault_stays<R>()
    ensures so_far { (rules : Rules R) (text more : List ℕ) (fault : TextFault R)
        → HasFaultSoFar rules text fault → HasFaultSoFar rules (text ++ more) fault }
    ensures whole { (rules : Rules R) (text more : List ℕ) (fault : TextFault R)
        → HasFaultSoFar rules text fault → HasFault rules (text ++ more) fault }
{}

/// Whatever the rules, the first fault of a text stands at one of its lines, or at the line after
/// the last.
pub fn faults_have_lines<R>()
    ensures whole { (rules : Rules R) (text : List ℕ) (fault : TextFault R)
        → HasFault rules text fault → IsLineOf text fault.line }
    ensures so_far { (rules : Rules R) (text more : List ℕ) (fault : TextFault R)
        → HasFaultSoFar rules text fault → IsLineOf (text ++ more) fault.line }
{}

/// The words by which a line is judged are all its words where they are at most twelve, and twelve
/// where they are more.
pub fn rows_are_words()
    ensures all { (line : List ℕ) → length (words_of line) ≤ 12 → row_of line ≡ words_of line }
    ensures many { (line : List ℕ) → 12 ≤ length (words_of line) → length (row_of line) ≡ 12 }
{}

/// The lines of a text are the text, cut at each LF.
pub fn lines_are_the_text()
    ensures { (text : List ℕ) → IsCut text (scan text) }
{}

/// Each line of a text is one line, and has at most 65,536 bytes.
pub fn lines_are_lines()
    ensures whole { (text : List ℕ) → AllByRecursion IsTextLine (lines_of text) }
    ensures so_far { (text : List ℕ) → AllByRecursion IsTextLine (lines_so_far text) }
{}

/// Lines that are written, each with its LF, are read as themselves.
pub fn written_lines_are_read()
    ensures lines { (lines : List (List ℕ)) → AllByRecursion IsTextLine lines
        → length (ended_lines lines) ≤ 2 ^ 31 → lines_of (ended_lines lines) ≡ lines }
    ensures end { (lines : List (List ℕ)) → AllByRecursion IsTextLine lines
        → length (ended_lines lines) ≤ 2 ^ 31 → last_of (ended_lines lines) ≡ End }
{}
