// Laws of what answers are returned as.
ghost use Rattle.std.specs.Prelude.{◌≡◌, List, None, true};
ghost use Rattle.std.specs.List.{list_all};
ghost use Rattle.exact_numbers.specs.Numbers.{has_31_bits};
ghost use Rattle.exact_numbers.specs.declared.dec.Dec.{Dec};
ghost use Rattle.nl_model.specs.FoldFaults.{fold_fault, has_objective};
ghost use Rattle.nl_model.specs.File.{File};
ghost use Rattle.nl_model.specs.Rules.{IsFile};
ghost use Rattle.answer_file.specs.Grammar.{AnswerValue};
ghost use Rattle.dual_return.specs.Return.{AreDuals, HasOneReturn, IsAnswerFor, IsReturn, MeanTheProgram};
ghost use Rattle.sol_files.specs.Sol.{Sol};
ghost use Rattle.sol_files.specs.Written.{KeepsRules};

/// The law of return: in a file that folds, the duals that are returned mean what the answer says
/// of the exported program.
pub fn returned_duals_mean_the_program()
    ensures { (f : File) (a : AnswerValue) (duals : List Dec) → IsFile f
        → fold_fault f a.objective ≡ None → AreDuals f a duals → MeanTheProgram f a duals }
{}

/// Each answer for a file is returned as one .sol file, or has one first dual that is too wide.
pub fn one_return()
    ensures { (f : File) (a : AnswerValue) → HasOneReturn f a }
{}

/// Each .sol value that an answer is returned as keeps the rules of values and the limits of their
/// parts: it can be written, unless its whole text is too long. The file's options are those of a
/// text, and the answer's objective is one of the file.
pub fn returned_values_are_writable()
    ensures { (f : File) (a : AnswerValue) (sol : Sol) → IsFile f
        → list_all has_31_bits f.options ≡ true → has_objective f a.objective ≡ true
        → IsAnswerFor f a → IsReturn f a sol → KeepsRules sol }
{}
