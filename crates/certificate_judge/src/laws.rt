// Laws of what is told; each is proved by a function with an empty body.
ghost use Rattle.std.specs.Prelude.{◌≡◌, ◌<◌, ◌^◌};
ghost use Rattle.linear_program.specs.Linear.{Linear};
ghost use Rattle.certificates.specs.Branch.{LeafFault};
ghost use Rattle.certificates.specs.Certificate.{Cause, Certificate};
ghost use Rattle.certificates.specs.Problem.{Problem};
ghost use Rattle.certificates.specs.ProblemSays.{Denies};
ghost use Rattle.certificates.specs.Verdict.{Fault};
ghost use Rattle.exact_checks.specs.Reasons.{cause_text};
ghost use Rattle.certificate_judge.specs.Reasons.{failed_text, fault_index, leaf_fault_text, IsShort, IsShortLeaf};

/// Each line that tells why a verdict is not yes has one cause: of a point and duals, of a leaf, and
/// of a certificate, where what is told is so.
pub fn lines_have_one_cause()
    ensures points { (a b : Fault) → fault_index a < 2 ^ 32 → fault_index b < 2 ^ 32
        → cause_text a ≡ cause_text b → a ≡ b }
    ensures leaves { (a b : LeafFault) → IsShortLeaf a → IsShortLeaf b
        → leaf_fault_text a ≡ leaf_fault_text b → a ≡ b }
    ensures certificates { (p : Problem) (f : Linear) (c : Certificate) (a b : Cause) → IsShort a
        → IsShort b → Denies p f c a → Denies p f c b → failed_text a ≡ failed_text b → a ≡ b }
{}
