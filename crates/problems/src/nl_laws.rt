// Each law is proved by a function with an empty body.
ghost use Rattle.std.specs.Prelude.{◌≡◌, ◌↔◌, ℕ, ◌<◌, List, None, Option, Some};
ghost use Rattle.exact_numbers.specs.Rational.{ℚ};
ghost use Rattle.certificates.specs.Branch.{BranchTree, duals, open_gap, weights, AreSplitsWhole, proof_fault};
ghost use Rattle.certificates.specs.Certificate.{Cause, Certificate as ProgramCertificate, IsCertificate, fails, holds, outcome};
ghost use Rattle.certificates.specs.LeafSays.{IsLeafDenied};
ghost use Rattle.certificates.specs.Means.{Means};
ghost use Rattle.certificates.specs.Problem.{IsBestRelaxed, IsBound, IsBroken, IsConstraintBroken, IsFeasible, IsInfeasible, IsReached, IsRelaxed, IsUnbounded};
ghost use Rattle.certificates.specs.ProblemSays.{Denies, OutcomeSays, VerdictSays};
ghost use Rattle.certificates.specs.ToldMeaning.{IsToldTrue};
ghost use Rattle.certificates.specs.Verdict.{verdict, yes};
ghost use Rattle.linear_program.specs.Numbers.{spread};
ghost use Rattle.nl_model.specs.File.{File};
ghost use Rattle.nl_model.specs.Rules.{IsFile};
ghost use Rattle.nl_model.specs.Expressions.{maximises};
ghost use Rattle.nl_model.specs.FoldFaults.{fold_fault};
ghost use Rattle.nl_model.specs.LinearFile.{linear_of};
ghost use Rattle.nl_model.specs.Meaning.{HasValueInside, IsBetterValue, IsFeasible as IsFeasibleFile, IsRelaxed as IsRelaxedFile, body_value, file_objective, side_of};
ghost use Rattle.certificates.specs.Certificates.{CertificateValue, IsCertificateOf, certificate_over, claim_outcome, claim_objective};
ghost use Rattle.certificates.specs.Proofs.{IsProofOf, ProofValue};
ghost use Rattle.certificates.specs.Told.{told_claim};
ghost use Rattle.problems.specs.Files.{IsCertificateIn, IsProofIn};
ghost use Rattle.problems.specs.FileProblem.{problem_of};

/// The problem that a file states has the file's feasible points, with the whole variables and
/// without them, whichever objective is chosen.
pub fn problems_have_the_points()
    ensures feasible { (f : File) (k : ℕ) (xs : List ℚ)
        → IsFeasible (problem_of f k) xs ↔ IsFeasibleFile f xs }
    ensures relaxed { (f : File) (k : ℕ) (xs : List ℚ)
        → IsRelaxed (problem_of f k) xs ↔ IsRelaxedFile f xs }
{}

/// The linear program of a file without fold faults means the problem that the file states.
pub fn files_are_meant()
    ensures { (f : File) (k : ℕ) → IsFile f → fold_fault f k ≡ None
        → Means (linear_of f k) (problem_of f k) }
{}

/// In a file that folds the claims are what they are by what is not the case, in the words of what
/// the file means: no feasible point is better, none is feasible, some is better than any value, a
/// constraint has no value within its sides. For the file has the objective, and each body and the
/// objective have values.
pub fn claims_are_contrary()
    ensures bounds { (f : File) (k : ℕ) → IsFile f → fold_fault f k ≡ None → (v : ℚ)
        → IsBound (problem_of f k) v
        ↔ ((xs : List ℚ) → IsFeasibleFile f xs
        → ¬ IsBetterValue (maximises f k) (file_objective f k xs) (Some v)) }
    ensures infeasible { (f : File) (k : ℕ) → IsFile f → fold_fault f k ≡ None
        → IsInfeasible (problem_of f k) ↔ ((xs : List ℚ) → ¬ IsFeasibleFile f xs) }
    ensures relaxed { (f : File) (k : ℕ) → IsFile f → fold_fault f k ≡ None
        → ((xs : List ℚ) → IsBroken (problem_of f k) xs)
        ↔ ((xs : List ℚ) → ¬ IsRelaxedFile f xs) }
    ensures unbounded { (f : File) (k : ℕ) → IsFile f → fold_fault f k ≡ None
        → IsUnbounded (problem_of f k)
        ↔ ((v : ℚ) → (xs : List ℚ) × IsFeasibleFile f xs
        × IsBetterValue (maximises f k) (file_objective f k xs) (Some v)) }
    ensures constraints { (f : File) (k : ℕ) → IsFile f → fold_fault f k ≡ None
        → (xs : List ℚ) (i : ℕ) → IsConstraintBroken (problem_of f k) xs i
        ↔ ((i < f.counts.n_con) × (¬ HasValueInside (side_of f i) (body_value f i xs))) }
{}

/// In any file, also one that does not fold, each claim implies what it is by what is not the case.
pub fn claims_are_stronger()
    ensures bounds { (f : File) (k : ℕ) (v : ℚ) → IsBound (problem_of f k) v → (xs : List ℚ)
        → IsFeasibleFile f xs
        → ¬ IsBetterValue (maximises f k) (file_objective f k xs) (Some v) }
    ensures infeasible { (f : File) (k : ℕ) → IsInfeasible (problem_of f k) → (xs : List ℚ)
        → ¬ IsFeasibleFile f xs }
    ensures relaxed { (f : File) (k : ℕ) → ((xs : List ℚ) → IsBroken (problem_of f k) xs)
        → (xs : List ℚ) → ¬ IsRelaxedFile f xs }
    ensures unbounded { (f : File) (k : ℕ) → IsUnbounded (problem_of f k) → (v : ℚ)
        → (xs : List ℚ) × IsFeasibleFile f xs
        × IsBetterValue (maximises f k) (file_objective f k xs) (Some v) }
    ensures constraints { (f : File) (k : ℕ) (xs : List ℚ) (i : ℕ)
        → IsConstraintBroken (problem_of f k) xs i
        → (i < f.counts.n_con) × (¬ HasValueInside (side_of f i) (body_value f i xs)) }
{}

/// What the verdict on a point and duals says of a file without fold faults: with a yes or a gap
/// the point is relaxed feasible, objective k has the value there, and the bound is at least as
/// good as the objective at each relaxed feasible point; a constraint or a bound that is named as
/// broken is so, and where one is named as broken or too wide all before it is met.
pub fn verdicts_of_files()
    ensures { (f : File) (k : ℕ) → IsFile f → fold_fault f k ≡ None → (xs ys : List ℚ)
        → VerdictSays (problem_of f k) xs (verdict (linear_of f k) xs ys) }
{}

/// Where a file has no fold fault and the verdict on a point of its linear program is a yes, the
/// point is relaxed feasible in the file, its objective has that value, and this is at least as
/// good as the value at each relaxed feasible point of the file, for both senses.
pub fn certificates_of_files()
    ensures { (f : File) (k : ℕ) → IsFile f → fold_fault f k ≡ None → (xs ys : List ℚ) (v : ℚ)
        → verdict (linear_of f k) xs ys ≡ yes v → IsBestRelaxed (problem_of f k) xs v }
{}

/// What the verdict on a certificate says of a file without fold faults. Where it holds, what is
/// told is true of the file: the point is optimal, near or a solution, v is a bound on objective k,
/// there is no feasible point, or no end. Where a constraint or a bound at the point is broken or
/// too wide, all before it is met; where it fails later, the point is feasible.
pub fn outcomes_of_files()
    ensures { (f : File) (k : ℕ) → IsFile f → fold_fault f k ≡ None
        → (c : ProgramCertificate) → IsCertificate (linear_of f k) c
        → OutcomeSays (problem_of f k) (linear_of f k) c (outcome (linear_of f k) c) }
{}

/// A certificate of a file is one of its linear program, whichever objective is chosen.
pub fn certificates_are_of_programs()
    ensures { (f : File) (k : ℕ) (c : CertificateValue) → IsCertificateIn f c
        → IsCertificateOf (linear_of f k) c }
{}

/// What is told of a claim whose certificate holds in the linear program of a file without fold
/// faults is true of the file.
pub fn claims_are_true()
    ensures { (f : File) (c : CertificateValue) → IsFile f
        → fold_fault f (claim_objective c.claim) ≡ None → (h : IsCertificateIn f c)
        → (value : Option ℚ)
        → claim_outcome (linear_of f (claim_objective c.claim)) c.claim h.given ≡ holds value
        → IsToldTrue (problem_of f (claim_objective c.claim)) (spread f.counts.n_var h.given.point)
        (told_claim c.claim value) }
{}

/// What a claim whose certificate fails in the linear program of a file without fold faults says of
/// the file by the cause that is told: the row or the bound that is broken, and that all before it
/// is met; the variable that is not whole; that the point is feasible; what the gap of a leaf shows.
pub fn claims_are_denied()
    ensures { (f : File) (c : CertificateValue) → IsFile f
        → fold_fault f (claim_objective c.claim) ≡ None → (h : IsCertificateIn f c)
        → (cause : Cause)
        → claim_outcome (linear_of f (claim_objective c.claim)) c.claim h.given ≡ fails cause
        → Denies (problem_of f (claim_objective c.claim)) (linear_of f (claim_objective c.claim))
        (certificate_over f.counts.n_var f.counts.n_con c.claim h.given) cause }
{}

/// Where every leaf of a proof closes in the linear program of a file, and its splits are on whole
/// variables, the stated value is a bound on objective k of the file.
pub fn proofs_of_files()
    ensures { (f : File) (k : ℕ) → IsFile f → fold_fault f k ≡ None → (v : ℚ) (tree : BranchTree)
        → AreSplitsWhole (linear_of f k) tree → proof_fault (linear_of f k) v tree ≡ None
        → IsBound (problem_of f k) v }
{}

/// Where one leaf with weights closes in the linear program of a file, each point breaks some
/// constraint or some bound of the file.
pub fn infeasible_files()
    ensures { (f : File) (k : ℕ) → IsFile f → fold_fault f k ≡ None → (v : ℚ) (ys : List ℚ)
        → proof_fault (linear_of f k) v (weights ys) ≡ None
        → (xs : List ℚ) → IsBroken (problem_of f k) xs }
{}

/// A proof of a file is one of its linear program, whichever objective is chosen.
#[tactic(auto, using(crate::proofs::ProofFiles::proof_of))]
pub fn proofs_are_of_programs()
    ensures { (f : File) (k : ℕ) (p : ProofValue) → IsProofIn f p
        → IsProofOf (linear_of f k) p }
{}

/// The gap of a tree that is one leaf of duals is a bound on objective k of the file, also without
/// its whole variables.
pub fn lone_gaps_are_bounds()
    ensures { (f : File) (k : ℕ) → IsFile f → fold_fault f k ≡ None → (ys : List ℚ) (n : ℕ)
        (b : ℚ) → IsLeafDenied (problem_of f k) (linear_of f k) (duals ys) (open_gap n b)
        → (xs : List ℚ) → IsRelaxed (problem_of f k) xs → IsReached (problem_of f k) b xs }
{}
