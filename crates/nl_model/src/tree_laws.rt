// Each law is proved by a function with an empty body.
ghost use Rattle.std.specs.Prelude.{◌≡◌, ℕ, ◌≤◌, List, None, Some, [], pos, negsuc};
ghost use Rattle.exact_numbers.specs.Rational.{zero_ℚ, ◌+ℚ◌, ◌*ℚ◌, decimal_value};
ghost use Rattle.exact_numbers.specs.Sums.{sum_below};
ghost use Rattle.nl_model.specs.declared.fault.Reason.TheVariants.{Nonlinear, RefusedPower, TooWide};
ghost use Rattle.nl_model.specs.Example.{power_and_least};
ghost use Rattle.nl_model.specs.Faults.{coef, constant_of, expression_line, first_expression_fault, first_fault};
ghost use Rattle.linear_program.specs.Lines.{line_value, Point};
ghost use Rattle.nl_model.specs.Parts.{IsLinearTree, IsPart};
ghost use Rattle.nl_model.specs.Trees.{AreDefined, Definition, Expression, IsExpressionFormed, IsFormed, Tree, expression_value, indices_of, number, tree_value, variable};

// A tree without a fault has a value at every point: its value at 0 and the sum of its coefficients
// times the variables.
// The same holds of each of its parts, and of a tree with linear terms.
pub fn trees_are_linear()
    ensures trees { (n : ℕ) (ds : List Definition) (t : Tree) → AreDefined n [] ds
        → IsFormed n (indices_of ds) t → first_fault n ds t ≡ None → (at : Point)
        → tree_value ds t at ≡ Some (constant_of ds t +ℚ sum_below (λ j. coef ds t j *ℚ at j) n) }
    ensures parts { (n : ℕ) (ds : List Definition) (t u : Tree) → AreDefined n [] ds
        → IsFormed n (indices_of ds) t → first_fault n ds t ≡ None → IsPart u t
        → IsLinearTree n ds u }
    ensures expressions { (n : ℕ) (ds : List Definition) (x : Expression) → AreDefined n [] ds
        → IsExpressionFormed n (indices_of ds) x → first_expression_fault n ds x ≡ None
        → (at : Point) → expression_value ds x at ≡ Some (line_value n (expression_line ds x) at) }
{}

// A tree with linear terms that uses only the first n variables has no coefficient at or beyond n.
pub fn coefficients_are_within()
    ensures { (n : ℕ) (ds : List Definition) → AreDefined n [] ds → (x : Expression)
        → IsExpressionFormed n (indices_of ds) x → (j : ℕ) → n ≤ j
        → (expression_line ds x).coef j ≡ zero_ℚ }
{}

// 1.5 ^ 3 + min(4, ceil(-7.5)) is -3.625; the exponent 0.5, a variable as base, and 10 ^ 127 are
// faults at the power.
pub fn example_has_its_value_and_faults()
    ensures value { (at : Point)
        → tree_value [] (power_and_least (number (pos 15) (negsuc 0)) (number (pos 3) (pos 0))) at
        ≡ Some (decimal_value (negsuc 3624) (negsuc 2)) }
    ensures refused { first_fault 1 []
        (power_and_least (number (pos 15) (negsuc 0)) (number (pos 5) (negsuc 0)))
        ≡ Some (record { place = 1; reason = RefusedPower }) }
    ensures nonlinear { first_fault 1 [] (power_and_least (variable 0) (number (pos 3) (pos 0)))
        ≡ Some (record { place = 1; reason = Nonlinear }) }
    ensures too_wide { first_fault 1 []
        (power_and_least (number (pos 1) (pos 1)) (number (pos 127) (pos 0)))
        ≡ Some (record { place = 1; reason = TooWide }) }
{}
