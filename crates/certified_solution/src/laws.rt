// Each law is proved by a function with an empty body.
ghost use Rattle.std.specs.Prelude.{◌≡◌, ◌<◌, ◌≤◌, ◌^◌, List, None, ℕ, ℤ, false, length, true};
ghost use Rattle.std.specs.List.{list_all};
ghost use Rattle.exact_numbers.specs.Rational.{ℚ};
ghost use Rattle.linear_program.specs.Linear.{Linear};
ghost use Rattle.certificates.specs.Branch.{duals, proof_fault};
ghost use Rattle.certificates.specs.Means.{problem_in};
ghost use Rattle.exact_numbers.specs.Numbers.{has_31_bits};
ghost use Rattle.nl_model.specs.Options.{has_second_three};
ghost use Rattle.certificates.specs.Certificates.{Given, claim_objective};
ghost use Rattle.certificates.specs.declared.certificate.Claim.{Claim as ClaimValue};
ghost use Rattle.certified_solution.specs.Lagrangian.{ShowBound};
ghost use Rattle.certified_solution.specs.Solution.{HasOneSolution, IsSolutionOf};
ghost use Rattle.sol_files.specs.Sol.{Sol};
ghost use Rattle.sol_files.specs.Written.{IsSaidLine, KeepsRules};

/// Each claim with its parts has one .sol value, or a value of its point has no decimal.
pub fn one_solution()
    ensures { (options : List ℤ) (m n : ℕ) (line : List ℕ) (claim : ClaimValue) (g : Given)
        → HasOneSolution options m n line claim g }
{}

/// The .sol value of a claim keeps the rules of values and the limits of their parts: it can be
/// written and is read as itself, unless its whole text is too long.
pub fn solutions_are_writable()
    ensures { (options : List ℤ) (m n : ℕ) (line : List ℕ) (claim : ClaimValue) (g : Given)
        (s : Sol) → IsSolutionOf options m n line claim g s → IsSaidLine line
        → list_all has_31_bits options ≡ true → length options ≤ 9
        → has_second_three options ≡ false → m ≤ 2 ^ 20 → n ≤ 2 ^ 20
        → claim_objective claim < 2 ^ 31 → KeepsRules s }
{}

/// The duals of a leaf that closes for a value show it as a bound, in AMPL's sign for both senses:
/// each has the side that it needs, and at each point within the bounds the objective and what each
/// row lacks to its side, times its dual, come to nothing better than the value.
pub fn duals_show_bounds()
    ensures { (f : Linear) (v : ℚ) (ys : List ℚ) → proof_fault f v (duals ys) ≡ None
        → ShowBound (problem_in f) ys v }
{}
