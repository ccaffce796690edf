// What verdicts on a linear program say of a problem that it means; each law is proved by a
// function with an empty body.
ghost use Rattle.std.specs.Prelude.{◌≡◌, ◌↔◌, ℕ, IsTrue, List, None, Some};
ghost use Rattle.exact_numbers.specs.Rational.{ℚ, zero_ℚ, ◌≤ℚ◌};
ghost use Rattle.linear_program.specs.Linear.{Linear};
ghost use Rattle.certificates.specs.Branch.{LeafFault, BranchTree, duals, weights, open_gap, AreSplitsWhole, proof_fault, branch_fault};
ghost use Rattle.certificates.specs.Certificate.{Certificate, IsCertificate, at_point, outcome};
ghost use Rattle.certificates.specs.Contrary.{IsConstraintUnmet, IsEachBeaten, IsNoneBetter, IsNoneFeasible, IsNoneRelaxed};
ghost use Rattle.certificates.specs.OneRowExamples.{example};
ghost use Rattle.certificates.specs.LeafSays.{IsLeafDenied, LeafDenies};
ghost use Rattle.certificates.specs.Means.{Means, problem_in};
ghost use Rattle.certificates.specs.Parts.{Part};
ghost use Rattle.certificates.specs.Problem.{Problem, IsBestRelaxed, IsBound, IsBroken, IsConstraintBroken, IsInfeasible, IsReached, IsRelaxed, IsUnbounded};
ghost use Rattle.certificates.specs.ProblemSays.{Denies, OutcomeSays, VerdictSays};
ghost use Rattle.certificates.specs.Verdict.{at_objective, too_wide, verdict, yes};

/// A linear program means the problem that it states.
pub fn programs_are_meant()
    ensures { (f : Linear) → Means f (problem_in f) }
{}

/// Of a problem that a linear program means, the claims are what they are by what is not the case:
/// no feasible point is better, none is feasible, some is better than any value, a constraint is
/// not met.
pub fn claims_are_contrary()
    ensures bounds { (f : Linear) (p : Problem) → Means f p → (v : ℚ)
        → IsBound p v ↔ IsNoneBetter p v }
    ensures infeasible { (f : Linear) (p : Problem) → Means f p
        → IsInfeasible p ↔ IsNoneFeasible p }
    ensures relaxed { (f : Linear) (p : Problem) → Means f p
        → ((xs : List ℚ) → IsBroken p xs) ↔ IsNoneRelaxed p }
    ensures unbounded { (f : Linear) (p : Problem) → Means f p → IsUnbounded p ↔ IsEachBeaten p }
    ensures constraints { (f : Linear) (p : Problem) → Means f p → (xs : List ℚ) (i : ℕ)
        → IsConstraintBroken p xs i ↔ IsConstraintUnmet p xs i }
{}

/// Of any problem, also one with values that are not there, each claim implies what it is by what
/// is not the case.
pub fn claims_are_stronger()
    ensures bounds { (p : Problem) (v : ℚ) → IsBound p v → IsNoneBetter p v }
    ensures infeasible { (p : Problem) → IsInfeasible p → IsNoneFeasible p }
    ensures relaxed { (p : Problem) → ((xs : List ℚ) → IsBroken p xs) → IsNoneRelaxed p }
    ensures unbounded { (p : Problem) → IsUnbounded p → IsEachBeaten p }
    ensures constraints { (p : Problem) (xs : List ℚ) (i : ℕ) → IsConstraintBroken p xs i
        → IsConstraintUnmet p xs i }
{}

/// What the verdict on a point and duals says: with a yes or a gap the point is relaxed feasible,
/// the objective has the value there, and the bound is at least as good as the objective at each
/// relaxed feasible point; a constraint or a bound that is named as broken is so, and where one is
/// named as broken or too wide all before it is met.
pub fn verdicts_of_problems()
    ensures { (f : Linear) (p : Problem) → Means f p → (xs ys : List ℚ)
        → VerdictSays p xs (verdict f xs ys) }
{}

/// With a yes the value is the bound.
pub fn certificates_of_problems()
    ensures { (f : Linear) (p : Problem) → Means f p → (xs ys : List ℚ) (v : ℚ)
        → verdict f xs ys ≡ yes v → IsBestRelaxed p xs v }
{}

/// What the verdict on a certificate says. Where it holds, what is told is true: the point is
/// optimal, near or a solution, v is a bound, there is no feasible point, or no end. Where a
/// constraint or a bound at the point is broken or too wide, all before it is met; where it fails
/// later, the point is feasible.
pub fn outcomes_of_problems()
    ensures { (f : Linear) (p : Problem) → Means f p → (c : Certificate) → IsCertificate f c
        → OutcomeSays p f c (outcome f c) }
{}

/// Where every leaf of a proof closes, and its splits are on whole variables, the stated value is a
/// bound.
pub fn proofs_of_problems()
    ensures { (f : Linear) (p : Problem) → Means f p → (v : ℚ) (tree : BranchTree)
        → AreSplitsWhole f tree → proof_fault f v tree ≡ None → IsBound p v }
{}

/// Where one leaf with weights closes, each point breaks some constraint or some bound.
pub fn infeasible_problems()
    ensures { (f : Linear) (p : Problem) → Means f p → (v : ℚ) (ys : List ℚ)
        → proof_fault f v (weights ys) ≡ None → (xs : List ℚ) → IsBroken p xs }
{}

/// What the gap says that is told of the first leaf that does not close: of duals it bounds the
/// objective on the leaf's part, or in the proof of a lemma its sum; of weights it is how much their
/// rows lack there at least.
pub fn gaps_are_bounds()
    ensures parts { (part : Part) (p : Problem) → Means part.program p → (tree : BranchTree)
        (fault : LeafFault) → branch_fault part 0 tree ≡ Some fault
        → LeafDenies p part tree fault }
    ensures proofs { (f : Linear) (p : Problem) → Means f p → (v : ℚ) (tree : BranchTree)
        (fault : LeafFault) → proof_fault f v tree ≡ Some fault → IsLeafDenied p f tree fault }
{}

/// A gap of weights says something: not each number that is not above 0 is one of theirs.
pub fn not_each_number_is_a_gap()
    ensures { ¬ ((ys : List ℚ) (b : ℚ) → b ≤ℚ zero_ℚ
        → IsLeafDenied (problem_in example) example (weights ys) (open_gap 0 b)) }
{}

/// At the rows and bounds of a point no objective is too wide: so that is said of a feasible point
/// alone.
pub fn objectives_are_wide_at_feasible_points()
    ensures { (p : Problem) (f : Linear) (c : Certificate)
        → ¬ Denies p f c (at_point (too_wide at_objective)) }
{}

/// The gap of a tree that is one leaf of duals is a bound of the problem, also without its whole
/// variables.
pub fn lone_gaps_are_bounds()
    ensures { (f : Linear) (p : Problem) → Means f p → (ys : List ℚ) (n : ℕ) (b : ℚ)
        → IsLeafDenied p f (duals ys) (open_gap n b) → (xs : List ℚ) → IsRelaxed p xs
        → IsReached p b xs }
{}
