// Each law is proved by a function with an empty body.
ghost use Rattle.std.specs.Prelude.{◌≡◌, ◌≢◌, ◌↔◌, ℕ, suc, ◌<◌, ◌^◌, List, [], ◌∷◌, ◌++◌, length, IsTrue};
ghost use Rattle.exact_numbers.specs.Rational.{ℚ, ◌-ℚ◌, ◌*ℚ◌};
ghost use Rattle.linear_program.specs.Linear.{Linear, IsLinear, IsFeasible, objective_value, variable_count, form_value, row_at};
ghost use Rattle.linear_program.specs.Names.{row_name, variable_name};
ghost use Rattle.text_base.specs.Names.{IsName};
ghost use Rattle.exact_numbers.specs.declared.dec.Dec.{Dec};
ghost use Rattle.exact_numbers.specs.Values.{dec_value};
ghost use Rattle.mps_model.specs.Mps.{Mps, with_values, IsMpsFeasible, mps_objective, row_value};
ghost use Rattle.mps_model.specs.Text.{mps_text_by};
ghost use Rattle.mps_model.specs.Valid.{marker_word};
ghost use Rattle.scaled_program.specs.Fits.{IsDecimal};
ghost use Rattle.scaled_program.specs.Meaning.{HasOrderedSides, IsScaledFeasible, scaled_objective, scaled_row_value};
ghost use Rattle.scaled_program.specs.Program.{ScaledProgram, is_exported, z_name, zdef_name};
ghost use Rattle.scaled_program.specs.Return.{dual_of};
ghost use Rattle.scaled_program.specs.Example.{spelled, knapsack, knapsack_text};
ghost use Rattle.scaled_program.specs.ExportedProgram.{IsProgramOf, mps_of, nl_name, obj_name, program, program_row, tied_program};

/// The MPS program of a scaled program means what the scaled program means, where no lower side of
/// a row is above its upper side: row 0 is the objective, and the others are its rows in order.
pub fn mps_keeps_meaning()
    ensures points { (s : ScaledProgram) (xs : List ℚ) → HasOrderedSides s
        → IsMpsFeasible (mps_of s) xs ↔ IsScaledFeasible s xs }
    ensures objective { (s : ScaledProgram) (xs : List ℚ)
        → mps_objective (mps_of s) xs ≡ scaled_objective s xs }
    ensures sense { (s : ScaledProgram) → (mps_of s).maximise ≡ s.maximise }
    ensures rows { (s : ScaledProgram) (xs : List ℚ) (k : ℕ) → k < length s.rows
        → row_value (mps_of s) xs (suc k) ≡ scaled_row_value s xs k }
{}

/// The exported program has the linear program's points, objective and sense, whatever the factors above 0.
pub fn export_keeps_meaning()
    ensures points { (f : Linear) (factor : ℕ → ℕ) (xs : List ℚ) → IsLinear f
        → ((i : ℕ) → 0 < factor i) → IsMpsFeasible (program f factor) xs ↔ IsFeasible f xs }
    ensures objective { (f : Linear) (factor : ℕ → ℕ) (xs : List ℚ)
        → mps_objective (program f factor) xs ≡ objective_value f xs }
    ensures sense { (f : Linear) (factor : ℕ → ℕ) → (program f factor).maximise ≡ f.maximise }
{}

/// With a tied objective each point is extended by its objective value.
pub fn tied_export_keeps_meaning()
    ensures points { (f : Linear) (factor : ℕ → ℕ) (g : ℕ) (xs : List ℚ) (z : ℚ) → IsLinear f
        → ((i : ℕ) → 0 < factor i) → 0 < g → length xs ≡ variable_count f
        → IsMpsFeasible (tied_program f factor g) (xs ++ z ∷ [])
        ↔ (IsFeasible f xs × (z ≡ objective_value f xs)) }
    ensures objective { (f : Linear) (factor : ℕ → ℕ) (g : ℕ) (xs : List ℚ) (z : ℚ)
        → length xs ≡ variable_count f
        → mps_objective (tied_program f factor g) (xs ++ z ∷ []) ≡ z }
    ensures sense { (f : Linear) (factor : ℕ → ℕ) (g : ℕ)
        → (tied_program f factor g).maximise ≡ f.maximise }
{}

/// A dual times the change of its row's body is s times the answer's value times the program's row.
pub fn duals_return()
    ensures plain { (f : Linear) (factor : ℕ → ℕ) (s w : ℚ) (i : ℕ) (xs : List ℚ)
        → i < length f.rows → IsTrue (is_exported (row_at f i))
        → dual_of s w (factor i)
        *ℚ (form_value (row_at f i).body (variable_count f) xs
        -ℚ form_value (row_at f i).body (variable_count f) [])
        ≡ s *ℚ w *ℚ row_value (program f factor) xs (program_row f i) }
    ensures tied { (f : Linear) (factor : ℕ → ℕ) (g : ℕ) (s w : ℚ) (i : ℕ) (xs : List ℚ) (z : ℚ)
        → IsLinear f → length xs ≡ variable_count f → i < length f.rows
        → IsTrue (is_exported (row_at f i))
        → dual_of s w (factor i)
        *ℚ (form_value (row_at f i).body (variable_count f) xs
        -ℚ form_value (row_at f i).body (variable_count f) [])
        ≡ s *ℚ w *ℚ row_value (tied_program f factor g) (xs ++ z ∷ []) (program_row f i) }
{}

/// The text of a knapsack with three variables.
pub fn example()
    ensures { mps_text_by spelled knapsack ≡ knapsack_text }
{}

/// The law of export, for a decimal program.
pub fn decimal_program_keeps_meaning()
    ensures points { (f : Linear) (m : Mps Dec) (xs : List ℚ) → IsLinear f → IsProgramOf f m
        → IsDecimal f → IsMpsFeasible (with_values dec_value m) xs ↔ IsFeasible f xs }
    ensures objective { (f : Linear) (m : Mps Dec) (xs : List ℚ) → IsProgramOf f m → IsDecimal f
        → mps_objective (with_values dec_value m) xs ≡ objective_value f xs }
    ensures tied_points { (f : Linear) (m : Mps Dec) (xs : List ℚ) (z : ℚ) → IsLinear f
        → IsProgramOf f m → ¬ IsDecimal f → length xs ≡ variable_count f
        → IsMpsFeasible (with_values dec_value m) (xs ++ z ∷ [])
        ↔ (IsFeasible f xs × (z ≡ objective_value f xs)) }
    ensures tied_objective { (f : Linear) (m : Mps Dec) (xs : List ℚ) (z : ℚ) → IsProgramOf f m
        → ¬ IsDecimal f → length xs ≡ variable_count f
        → mps_objective (with_values dec_value m) (xs ++ z ∷ []) ≡ z }
{}

/// The names of the program, its rows and its columns are names.
pub fn names_are_names()
    ensures constraints { (i : ℕ) → i < 2 ^ 32 → IsName (row_name i) }
    ensures variables { (j : ℕ) → j < 2 ^ 32 → IsName (variable_name j) }
    ensures program { IsName nl_name }
    ensures objective { IsName obj_name }
    ensures tied_column { IsName z_name }
    ensures tied_row { IsName zdef_name }
{}

/// No two rows have one name, nor have two columns, and no row is named as a marker line is.
pub fn names_differ()
    ensures constraints { (i j : ℕ) → i < 2 ^ 32 → j < 2 ^ 32 → row_name i ≡ row_name j → i ≡ j }
    ensures variables { (i j : ℕ) → i < 2 ^ 32 → j < 2 ^ 32 → variable_name i ≡ variable_name j
        → i ≡ j }
    ensures objective { (i : ℕ) → row_name i ≢ obj_name }
    ensures tied_row { (i : ℕ) → row_name i ≢ zdef_name }
    ensures tied_column { (j : ℕ) → variable_name j ≢ z_name }
    ensures objective_and_tied_row { obj_name ≢ zdef_name }
    ensures markers { ((i : ℕ) → row_name i ≢ marker_word) × (obj_name ≢ marker_word)
        × (zdef_name ≢ marker_word) }
{}
