// The rows of planes and lemmas.
ghost use Rattle.std.specs.Prelude.{◌≡◌, ℕ, IfOk, All, true};
ghost use Rattle.exact_numbers.specs.Fits.{fits};
ghost use Rattle.exact_numbers.specs.Rational.{ℚ, IsWhole, whole};
ghost use Rattle.certificates.specs.Parts.{NumberForm, at_least, at_most, form_of as plane_form, number_factor};
ghost use Rattle.linear_program.specs.Intervals.{interval_of};
ghost use Rattle.linear_program.specs.Coefs.{coef_in};
ghost use Rattle.certificates.specs.Certificates.{AreNumbers, number_form, whole_form};
ghost use Rattle.linear_program.specs.Numbers.{number_value};
ghost use Rattle.exact_checks.specs.Lists.{form_of};
ghost use Rattle.exact_checks.specs.Terms.{AreTerms};
ghost use Rattle.certificate_judge.specs.InsidePaths.{IsLemma, IsLemmaRow, IsLemmaWithin};

use crate::given::fraction;
use crate::path::Lemma;
use crate::sides::whole_dec;
use exact_checks::{Body, Row};
use exact_numbers::{Dec, Frac};
use linear_program::{Coefficients, Interval, Number};
use std::alloc::{AllocError, Global};

// The numbers of a sum that are not 0.
fn terms_of(alloc: Global, pairs: &[(u32, Number)]) -> Result<Coefficients, AllocError>
    requires { (n : ℕ) × AreNumbers 0 n pairs.now }
    ensures sum { IfOk result (λ v. coef_in v ≡ number_factor (number_form pairs.now)) }
    ensures terms { IfOk result (λ v. (n : ℕ) → AreNumbers 0 n pairs.now
        → AreTerms 0 n v) }
{
    let mut terms = Vec::with_capacity(alloc, pairs.len())?;
    for pair in pairs {
        if pair.1.is_zero() {
            continue;
        }
        terms.push((pair.0, fraction(&pair.1)))?;
    }
    Ok(Coefficients::of_items(terms))
}

// The form of a plane.
pub(crate) fn body_of(alloc: Global, pairs: &[(u32, Number)]) -> Result<Body, AllocError>
    requires whole { All (λ p. IsWhole (number_value p.1)) pairs.now }
    requires numbers { (n : ℕ) × AreNumbers 0 n pairs.now }
    ensures form { IfOk result (λ b. form_of b ≡ plane_form (whole_form pairs.now)) }
    ensures terms { IfOk result (λ b. (n : ℕ) → AreNumbers 0 n pairs.now
        → AreTerms 0 n b.terms) }
{
    let terms = terms_of(alloc, pairs)?;
    Ok(Body {
        constant: Frac::zero(),
        terms,
    })
}

// The lemma that a sum is at most this number.
pub(crate) fn lemma_of(
    alloc: Global,
    pairs: &[(u32, Number)],
    most: &Number,
) -> Result<Lemma, AllocError>
    requires numbers { (n : ℕ) × AreNumbers 0 n pairs.now }
    requires most { fits (number_value most.now) ≡ true }
    ensures lemma { IfOk result (λ l. IsLemma (number_form pairs.now) (number_value most.now) l) }
    ensures terms { IfOk result (λ l. (n : ℕ) → AreNumbers 0 n pairs.now → IsLemmaWithin n l) }
{
    let terms = terms_of(alloc, pairs)?;
    Ok(Lemma {
        terms,
        most: fraction(most),
    })
}

// The row of a lemma.
pub(crate) fn lemma_row(shown: Lemma) -> Row
    ensures row { (form : NumberForm) (t : ℚ) → IsLemma form t shown → IsLemmaRow form t result }
    ensures terms { (n : ℕ) → IsLemmaWithin n shown → AreTerms 0 n result.body.terms }
{
    Row {
        body: Body {
            constant: shown.most.neg(),
            terms: shown.terms,
        },
        side: Interval {
            lo: None,
            hi: Some(Dec::zero()),
        },
    }
}

// The side "at most".
pub(crate) fn side_under(most: i128) -> Interval
    requires { fits (whole most) ≡ true }
    ensures { interval_of result ≡ at_most (whole most) }
{
    Interval {
        lo: None,
        hi: Some(whole_dec(most)),
    }
}

// The side "at least".
pub(crate) fn side_over(least: i128) -> Interval
    requires { fits (whole least) ≡ true }
    ensures { interval_of result ≡ at_least (whole least) }
{
    Interval {
        lo: Some(whole_dec(least)),
        hi: None,
    }
}
