// Laws of .sol texts. Each is proved by a function with an empty body.
ghost use Rattle.std.specs.Prelude.{◌≡◌, ◌++◌, ◌∷◌, [], List, ℕ};
ghost use Rattle.sol_files.specs.Sol.{Sol as SolValue};
ghost use Rattle.sol_files.specs.Reader.{HasOneReading, IsSol};
ghost use Rattle.sol_files.specs.Standing.{standing};
ghost use Rattle.sol_files.specs.Progress.{seen};
ghost use Rattle.sol_files.specs.Steps.{after, read};
ghost use Rattle.sol_files.specs.Written.{IsWritable, KeepsRules, sol_text};

/// Each text is a .sol text, which says one thing, or has one first fault.
pub fn one_reading()
    ensures { (text : List ℕ) → HasOneReading text }
{}

/// What lines mean for the next one is read line by line: what is held of them depends on the last
/// of them and on what is held of those before it.
pub fn one_line_more()
    ensures step { (lines : List (List ℕ)) (line : List ℕ)
        → read (lines ++ line ∷ []) ≡ after (read lines) line }
    ensures meaning { (lines : List (List ℕ)) → standing lines ≡ seen (read lines) }
{}

/// What is written is read as itself.
pub fn written_is_read()
    ensures { (sol : SolValue) → IsWritable sol → IsSol (sol_text sol) sol }
{}

/// What was read can be written and read again, unless the written text is too long for a text.
pub fn what_is_read_keeps_the_rules()
    ensures { (text : List ℕ) (sol : SolValue) → IsSol text sol → KeepsRules sol }
{}
