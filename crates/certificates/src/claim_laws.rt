// What is told of claims and proofs; each law is proved by a function with an empty body.
ghost use Rattle.std.specs.Prelude.{◌≡◌, None, Option};
ghost use Rattle.exact_numbers.specs.Rational.{ℚ};
ghost use Rattle.linear_program.specs.Linear.{Linear, row_count, variable_count};
ghost use Rattle.certificates.specs.Branch.{proof_fault};
ghost use Rattle.certificates.specs.Certificate.{Cause, fails, holds};
ghost use Rattle.certificates.specs.Means.{Means};
ghost use Rattle.certificates.specs.Problem.{Problem};
ghost use Rattle.certificates.specs.ProblemSays.{Denies};
ghost use Rattle.certificates.specs.ToldMeaning.{IsToldTrue};
ghost use Rattle.linear_program.specs.Numbers.{spread};
ghost use Rattle.certificates.specs.Certificates.{CertificateValue, IsCertificateOf, certificate_over, claim_outcome};
ghost use Rattle.certificates.specs.Proofs.{IsProofOf, ProofValue, claim_value, tree_over};
ghost use Rattle.certificates.specs.ProofSays.{IsProvedTrueOf};
ghost use Rattle.certificates.specs.Told.{told_claim};

/// What is told of a claim whose certificate holds is true of each problem that the linear program
/// means.
pub fn claims_are_true()
    ensures { (f : Linear) (p : Problem) → Means f p → (c : CertificateValue)
        → (h : IsCertificateOf f c) → (value : Option ℚ)
        → claim_outcome f c.claim h.given ≡ holds value
        → IsToldTrue p (spread (variable_count f) h.given.point) (told_claim c.claim value) }
{}

/// What a claim whose certificate fails says of the problem, by its cause.
pub fn claims_are_denied()
    ensures { (f : Linear) (p : Problem) → Means f p → (c : CertificateValue)
        → (h : IsCertificateOf f c) → (cause : Cause)
        → claim_outcome f c.claim h.given ≡ fails cause
        → Denies p f (certificate_over (variable_count f) (row_count f) c.claim h.given) cause }
{}

/// What a proof by branches claims is true of the problem where each leaf closes.
pub fn proofs_are_true()
    ensures { (f : Linear) (p : Problem) → Means f p → (q : ProofValue) → (h : IsProofOf f q)
        → proof_fault f (claim_value q.claim) (tree_over (row_count f) h.tree) ≡ None
        → IsProvedTrueOf p q.claim }
{}
