// Each law is proved by a function with an empty body.
ghost use Rattle.std.specs.Prelude.{◌≡◌, ◌↔◌, List, [], ◌∷◌, None, Some, false, map, true};
ghost use Rattle.exact_numbers.specs.Rational.{ℚ, neg_ℚ, zero_ℚ};
ghost use Rattle.linear_program.specs.Linear.{IsFeasible, IsLinear, objective_value, row_at};
ghost use Rattle.linear_program.specs.Names.{row_name};
ghost use Rattle.mps_model.specs.Mps.{IsMpsFeasible, Mps, mps_objective, objective_row};
ghost use Rattle.mps_program.specs.Example.{four_rows, two_columns};
ghost use Rattle.mps_program.specs.Program.{constraints, linear_of};

/// The linear program means what the program means, at every assignment of its columns.
pub fn linear_program_keeps_meaning()
    ensures feasible { (m : Mps ℚ) (xs : List ℚ)
        → IsFeasible (linear_of m) xs ↔ IsMpsFeasible m xs }
    ensures objective { (m : Mps ℚ) (xs : List ℚ)
        → objective_value (linear_of m) xs ≡ mps_objective m xs }
    ensures sense { (m : Mps ℚ) → (linear_of m).maximise ≡ m.maximise }
    ensures linear { (m : Mps ℚ) → IsLinear (linear_of m) }
{}

/// Of the rows `N L N G` the constraints are the second and the fourth, and the first is the
/// objective.
pub fn constraints_of_four_rows()
    ensures constraints { constraints four_rows ≡ 1 ∷ 3 ∷ [] }
    ensures objective { objective_row four_rows ≡ 0 }
{}

/// The sides of both constraints, of which the second has no right side, which rows and variables
/// there are, the objective's constant, and the coefficient of y in the second constraint.
pub fn program_of_two_columns()
    ensures sides { (p q r s t b c u : ℚ)
        → map (λ row. row.side) (linear_of (two_columns p q r s t b c u)).rows
        ≡ record { lower = None; upper = Some c } ∷ record { lower = Some zero_ℚ; upper = None }
        ∷ [] }
    ensures names { (p q r s t b c u : ℚ)
        → map (λ row. row.name) (linear_of (two_columns p q r s t b c u)).rows
        ≡ row_name 0 ∷ row_name 1 ∷ [] }
    ensures whole { (p q r s t b c u : ℚ)
        → map (λ v. v.whole) (linear_of (two_columns p q r s t b c u)).variables
        ≡ false ∷ true ∷ [] }
    ensures constant { (p q r s t b c u : ℚ)
        → (linear_of (two_columns p q r s t b c u)).objective.constant ≡ neg_ℚ b }
    ensures coefficient { (p q r s t b c u : ℚ)
        → (row_at (linear_of (two_columns p q r s t b c u)) 1).body.coefficient 1 ≡ s }
{}
