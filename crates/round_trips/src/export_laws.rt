// Each law is proved by a function with an empty body.
ghost use Rattle.std.specs.Prelude.{◌⊎◌, ℕ};
ghost use Rattle.exact_numbers.specs.declared.dec.Dec.{Dec};
ghost use Rattle.exact_numbers.specs.Values.{dec_value, value_text};
ghost use Rattle.linear_program.specs.Linear.{Linear};
ghost use Rattle.scaled_program.specs.Fits.{ExportFits, IsDecimal, IsScaledProgramOf, ObjectiveFits};
ghost use Rattle.scaled_program.specs.Program.{ScaledProgram};
ghost use Rattle.scaled_program.specs.ExportedProgram.{IsProgramOf, mps_of};
ghost use Rattle.mps_model.specs.Mps.{Mps, with_values};
ghost use Rattle.mps_model.specs.Text.{mps_text_by};
ghost use Rattle.mps_model.specs.Valid.{IsMps};
ghost use Rattle.mps_reader.specs.Written.{HasShortNames};
ghost use Rattle.round_trips.specs.Exportable.{IsExportable, IsNamedByNumber};
ghost use Rattle.round_trips.specs.ReadAs.{IsReadAs};

/// The rows and columns of an exported program have names of at most eight bytes.
#[tactic(auto, using(crate::proofs::Reading::short_names))]
pub fn exported_names_are_short()
    ensures { (l : Linear) (m : Mps Dec) → IsNamedByNumber l → IsProgramOf l m → HasShortNames m }
{}

/// The written text of an exported program is read as the program: of a whole decimal program that
/// has its values, and of the program of each linear program that scales without a fault.
pub fn exported_is_read()
    ensures decimal { (l : Linear) (m : Mps Dec) → IsNamedByNumber l → IsProgramOf l m
        → IsMps dec_value m → IsReadAs (mps_text_by value_text (with_values dec_value m))
        (with_values dec_value m) }
    ensures program { (l : Linear) → IsExportable l → ((i : ℕ) → ExportFits l i)
        → (s : ScaledProgram) → IsDecimal l ⊎ ObjectiveFits l → IsScaledProgramOf l s
        → IsReadAs (mps_text_by value_text (mps_of s)) (mps_of s) }
{}
