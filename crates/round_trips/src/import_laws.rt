// The laws of written imports.
ghost use Rattle.std.specs.Prelude.{◌≡◌, ◌↔◌, List, None};
ghost use Rattle.exact_numbers.specs.Rational.{ℚ};
ghost use Rattle.exact_numbers.specs.declared.dec.Dec.{Dec};
ghost use Rattle.exact_numbers.specs.Values.{dec_value};
ghost use Rattle.nl_model.specs.LinearFile.{linear_of};
ghost use Rattle.mps_model.specs.Mps.{IsMpsFeasible, Mps, mps_objective};
ghost use Rattle.mps_model.specs.Valid.{IsMps};
ghost use Rattle.scaled_program.specs.Fits.{IsDecimal, IsScaledProgramOf};
ghost use Rattle.scaled_program.specs.Program.{ScaledProgram};
ghost use Rattle.scaled_program.specs.ExportedProgram.{mps_of};
ghost use Rattle.mps_import.specs.Faults.{import_fault};
ghost use Rattle.mps_import.specs.Import.{import_of};
ghost use Rattle.mps_import.specs.Variables.{in_order};
ghost use Rattle.mps_program.specs.Program.{values_of};
ghost use Rattle.round_trips.specs.Imports.{ImportsAreSaid, ImportsAreWritable, NoOtherFileIsSaid};

/// The file of a program that is imported can be written.
pub fn imports_are_writable()
    ensures { ImportsAreWritable }
{}

/// What is written of the file of a program that is imported is a text of the profile, without
/// faults, that says this file and no other.
pub fn imports_are_said()
    ensures said { ImportsAreSaid }
    ensures only { NoOtherFileIsSaid }
{}

/// The program that the file of a program m is exported as has the points of m, in the order of the
/// variables, the same objective and the same sense. Its objective is not tied.
pub fn imports_are_exported()
    ensures decimal { (m : Mps Dec) → IsMps dec_value m → IsDecimal (linear_of (import_of m) 0) }
    ensures points { (m : Mps Dec) (s : ScaledProgram) (xs : List ℚ) → IsMps dec_value m
        → import_fault m ≡ None → IsScaledProgramOf (linear_of (import_of m) 0) s
        → IsMpsFeasible (values_of m) xs ↔ IsMpsFeasible (mps_of s) (in_order m xs) }
    ensures objective { (m : Mps Dec) (s : ScaledProgram) (xs : List ℚ) → IsMps dec_value m
        → import_fault m ≡ None → IsScaledProgramOf (linear_of (import_of m) 0) s
        → mps_objective (mps_of s) (in_order m xs) ≡ mps_objective (values_of m) xs }
    ensures sense { (m : Mps Dec) (s : ScaledProgram) → IsMps dec_value m → import_fault m ≡ None
        → IsScaledProgramOf (linear_of (import_of m) 0) s → (mps_of s).maximise ≡ m.maximise }
{}
