// Laws of names. Each is proved by a function with an empty body.
ghost use Rattle.std.specs.Prelude.{◌≡◌, ◌<◌, ◌^◌, List, ℕ, length};
ghost use Rattle.text_base.specs.Judged.{HasOneOutcome};
ghost use Rattle.text_base.specs.Reading.{IsRead, lines_of, last_of};
ghost use Rattle.exact_numbers.specs.declared.dec.Dec.{Dec};
ghost use Rattle.exact_numbers.specs.Values.{dec_value};
ghost use Rattle.mps_model.specs.Mps.{Mps, with_values};
ghost use Rattle.mps_model.specs.Valid.{IsMps};
ghost use Rattle.mps_model.specs.Names.{AreNames};
ghost use Rattle.name_files.specs.Names.{Counts, name_rules, SaysNames};
ghost use Rattle.linear_program.specs.Linear.{Linear};
ghost use Rattle.scaled_program.specs.ExportedProgram.{program, tied_program};
ghost use Rattle.name_files.specs.Renamed.{named, HasExportedNames, HaveOneMeaning, IsNamedLinear};

/// Each text is free of faults or has one first fault, and what it says is one list of names.
#[tactic(auto, using(text_base::proofs::JudgedLemmas::one_outcome))]
pub fn one_reading()
    ensures outcome { (counts : Counts) (text : List ℕ)
        → HasOneOutcome (name_rules counts) (lines_of text) (last_of text) }
    ensures value { (counts : Counts) (lines : List (List ℕ)) (names others : List (List ℕ))
        → SaysNames counts lines names → SaysNames counts lines others → names ≡ others }
{}

/// A program with other names has the same points and the same objective.
#[tactic(auto, using(crate::proofs::MeaningLemmas::same_meaning))]
pub fn names_mean_nothing()
    ensures { (m : Mps Dec) (rows columns : List (List ℕ))
        → HaveOneMeaning (with_values dec_value (named m rows columns)) (with_values dec_value m) }
{}

/// A program that is exported, and has other names, is a program.
#[tactic(auto, using(crate::proofs::ValidLemmas::program_named))]
pub fn named_is_a_program()
    ensures { (m : Mps Dec) (rows columns : List (List ℕ)) → IsMps dec_value m
        → AreNames rows → AreNames columns → HasExportedNames (length rows) (length columns) m
        → IsMps dec_value (named m rows columns) }
{}

/// The values of a program with other names are those of the program, with these names.
#[tactic(auto, using(crate::proofs::MeaningLemmas::valued))]
pub fn names_keep_values()
    ensures { (m : Mps Dec) (rows columns : List (List ℕ))
        → with_values dec_value (named m rows columns)
        ≡ named (with_values dec_value m) rows columns }
{}

/// A program that is exported, with its objective tied or not, has the names that are renamed.
pub fn exported_names()
    ensures plain { (f : Linear) (factor : ℕ → ℕ) → IsNamedLinear f
        → HasExportedNames (length f.rows) (length f.variables) (program f factor) }
    ensures tied { (f : Linear) (factor : ℕ → ℕ) (g : ℕ) → IsNamedLinear f
        → HasExportedNames (length f.rows) (length f.variables) (tied_program f factor g) }
{}

/// The names that a text lists are names, no two the same, and none of them reserved.
#[tactic(auto, using(crate::proofs::ListedNames::listed_names))]
pub fn listed_names_are_names()
    ensures { (counts : Counts) (text : List ℕ) (names : List (List ℕ)) → counts.used < 2 ^ 32
        → IsRead (name_rules counts) (SaysNames counts) text names → AreNames names }
{}
