// Each law is proved by a function with an empty body.
ghost use Rattle.std.specs.Prelude.{◌≡◌, ◌↔◌, List, Option};
ghost use Rattle.exact_numbers.specs.Rational.{ℚ};
ghost use Rattle.exact_numbers.specs.declared.dec.Dec.{Dec};
ghost use Rattle.certificates.specs.Certificate.{Cause, fails, holds};
ghost use Rattle.certificates.specs.Means.{Means};
ghost use Rattle.certificates.specs.Problem.{IsFeasible};
ghost use Rattle.certificates.specs.ProblemSays.{Denies};
ghost use Rattle.certificates.specs.ToldMeaning.{IsToldTrue};
ghost use Rattle.linear_program.specs.Numbers.{spread};
ghost use Rattle.mps_model.specs.Mps.{IsMpsFeasible, Mps};
ghost use Rattle.mps_program.specs.Program.{linear_of, values_of};
ghost use Rattle.certificates.specs.Certificates.{CertificateValue, IsCertificateOf, certificate_over, claim_outcome};
ghost use Rattle.certificates.specs.Setting.{IsCertificateFor, IsSettingOf};
ghost use Rattle.certificates.specs.Told.{told_claim};
ghost use Rattle.problems.specs.Problem.{mps_problem};
ghost use Rattle.problems.specs.MpsSetting.{mps_setting};

/// The points that the problem allows are those that satisfy the MPS program.
pub fn feasible_points()
    ensures { (m : Mps ℚ) (xs : List ℚ) → IsFeasible (mps_problem m) xs ↔ IsMpsFeasible m xs }
{}

/// The linear program of an MPS program means the problem that the program states.
pub fn programs_mean_problems()
    ensures { (m : Mps ℚ) → Means (linear_of m) (mps_problem m) }
{}

/// A certificate of an MPS program is one of its linear program.
pub fn certificates_are_of_programs()
    ensures setting { (m : Mps Dec) → IsSettingOf (linear_of (values_of m)) (mps_setting m) }
    ensures certificate { (m : Mps Dec) (c : CertificateValue) → IsCertificateFor (mps_setting m) c
        → IsCertificateOf (linear_of (values_of m)) c }
{}

/// What is told of a claim whose certificate holds in the linear program of an MPS program is true
/// of the problem that the program states.
pub fn claims_are_true()
    ensures { (m : Mps Dec) (c : CertificateValue) → (h : IsCertificateFor (mps_setting m) c)
        → (value : Option ℚ)
        → claim_outcome (linear_of (values_of m)) c.claim h.given ≡ holds value
        → IsToldTrue (mps_problem (values_of m))
        (spread (mps_problem (values_of m)).variables h.given.point) (told_claim c.claim value) }
{}

/// What a claim whose certificate fails there says of the problem, by its cause.
pub fn claims_are_denied()
    ensures { (m : Mps Dec) (c : CertificateValue) → (h : IsCertificateFor (mps_setting m) c)
        → (cause : Cause)
        → claim_outcome (linear_of (values_of m)) c.claim h.given ≡ fails cause
        → Denies (mps_problem (values_of m)) (linear_of (values_of m))
        (certificate_over (mps_problem (values_of m)).variables
        (mps_problem (values_of m)).constraints c.claim h.given) cause }
{}
