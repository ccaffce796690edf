// Each law is proved by a function with an empty body.
ghost use Prim.Native.Nat.{◌∣◌};
ghost use Rattle.std.specs.Prelude.{◌≡◌, ◌↔◌, ℕ, ◌<◌, pos, List, [], ◌∷◌, ◌++◌, length, All, IsTrue};
ghost use Rattle.exact_numbers.specs.Divisors.{AreCoprime};
ghost use Rattle.exact_numbers.specs.Rational.{ℚ, whole, ◌-ℚ◌, ◌*ℚ◌};
ghost use Rattle.linear_program.specs.Linear.{Linear, IsLinear, IsFeasible, objective_value, variable_count, form_value, row_at};
ghost use Rattle.scaled_program.specs.Factor.{IsFinite, IsLeastFactor, least_factor, cofactor_of};
ghost use Rattle.scaled_program.specs.Meaning.{HasOrderedSides, IsScaledFeasible, scaled_objective, scaled_row_value};
ghost use Rattle.scaled_program.specs.Program.{is_exported, scaled_and_tied, scaled_by};
ghost use Rattle.scaled_program.specs.Return.{dual_of, place_of};

/// The scaled program has the linear program's points, objective and sense, whatever the factors
/// above 0.
pub fn scaling_keeps_meaning()
    ensures points { (f : Linear) (factor : ℕ → ℕ) (xs : List ℚ) → IsLinear f
        → ((i : ℕ) → 0 < factor i) → IsScaledFeasible (scaled_by f factor) xs ↔ IsFeasible f xs }
    ensures objective { (f : Linear) (factor : ℕ → ℕ) (xs : List ℚ)
        → scaled_objective (scaled_by f factor) xs ≡ objective_value f xs }
    ensures sense { (f : Linear) (factor : ℕ → ℕ) → (scaled_by f factor).maximise ≡ f.maximise }
    ensures ordered { (f : Linear) (factor : ℕ → ℕ) → IsLinear f → ((i : ℕ) → 0 < factor i)
        → HasOrderedSides (scaled_by f factor) }
{}

/// With a tied objective each point is extended by its objective value.
pub fn tying_keeps_meaning()
    ensures points { (f : Linear) (factor : ℕ → ℕ) (g : ℕ) (xs : List ℚ) (z : ℚ) → IsLinear f
        → ((i : ℕ) → 0 < factor i) → 0 < g → length xs ≡ variable_count f
        → IsScaledFeasible (scaled_and_tied f factor g) (xs ++ z ∷ [])
        ↔ (IsFeasible f xs × (z ≡ objective_value f xs)) }
    ensures objective { (f : Linear) (factor : ℕ → ℕ) (g : ℕ) (xs : List ℚ) (z : ℚ)
        → length xs ≡ variable_count f
        → scaled_objective (scaled_and_tied f factor g) (xs ++ z ∷ []) ≡ z }
    ensures sense { (f : Linear) (factor : ℕ → ℕ) (g : ℕ)
        → (scaled_and_tied f factor g).maximise ≡ f.maximise }
    ensures ordered { (f : Linear) (factor : ℕ → ℕ) (g : ℕ) → IsLinear f
        → ((i : ℕ) → 0 < factor i) → 0 < g → HasOrderedSides (scaled_and_tied f factor g) }
{}

/// The least common multiple of the parts of the denominators that are prime to 10 is the least
/// factor, and its multiples are the factors.
pub fn least_factors()
    ensures least { (xs : List ℚ) → IsLeastFactor xs (least_factor xs) }
    ensures multiples { (xs : List ℚ) (k : ℕ)
        → All (λ x. IsFinite (whole (pos k) *ℚ x)) xs ↔ (least_factor xs ∣ k) }
    ensures cofactor { (n c : ℕ) → 0 < n → c ∣ n → AreCoprime c 10
        → ((d : ℕ) → d ∣ n → AreCoprime d 10 → d ∣ c) → c ≡ cofactor_of n }
{}

/// A dual times the change of its row's body is s times the answer's value times the scaled row.
pub fn duals_return()
    ensures plain { (f : Linear) (factor : ℕ → ℕ) (s w : ℚ) (i : ℕ) (xs : List ℚ)
        → i < length f.rows → IsTrue (is_exported (row_at f i))
        → dual_of s w (factor i)
        *ℚ (form_value (row_at f i).body (variable_count f) xs
        -ℚ form_value (row_at f i).body (variable_count f) [])
        ≡ s *ℚ w *ℚ scaled_row_value (scaled_by f factor) xs (place_of f.rows i) }
    ensures tied { (f : Linear) (factor : ℕ → ℕ) (g : ℕ) (s w : ℚ) (i : ℕ) (xs : List ℚ) (z : ℚ)
        → IsLinear f → length xs ≡ variable_count f → i < length f.rows
        → IsTrue (is_exported (row_at f i))
        → dual_of s w (factor i)
        *ℚ (form_value (row_at f i).body (variable_count f) xs
        -ℚ form_value (row_at f i).body (variable_count f) [])
        ≡ s *ℚ w
        *ℚ scaled_row_value (scaled_and_tied f factor g) (xs ++ z ∷ []) (place_of f.rows i) }
{}
