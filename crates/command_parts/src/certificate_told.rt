// The lines of verdicts on certificates.
ghost use Rattle.std.specs.Prelude.{[], ◌≡◌, ◌++◌, codes, IfOk, OnOk, string_bytes, true};
ghost use Rattle.std.specs.Option.{option_map_or};
ghost use Rattle.exact_numbers.specs.Fits.{fits};
ghost use Rattle.certificates.specs.Certificate.{holds};
ghost use Rattle.certificates.specs.ToldMeaning.{within};
ghost use Rattle.exact_numbers.specs.Values.{frac_value};
ghost use Rattle.linear_program.specs.Numbers.{number_value};
ghost use Rattle.exact_checks.specs.Terms.{value_found};
ghost use Rattle.certificates.specs.Certificates.{claim_objective};
ghost use Rattle.certificates.specs.Told.{told_claim};
ghost use Rattle.certificate_judge.specs.Reasons.{failed_text};
ghost use Rattle.certificate_judge.specs.Outcomes.{cause_of, outcome_of};
ghost use Rattle.command_parts.specs.CertificateTold.{HasFittingBound, is_held, objective_text, outcome_line, told_text};

use certificate_judge::{Cause, Outcome};
use certificates::Claim;
use exact_numbers::Frac;
use linear_program::Number;
use std::alloc::{AllocError, Global};

// What is said of a value that is within a bound.
fn put_within(line: &mut String, bound: &Number, value: Frac) -> Result<(), AllocError>
    requires { fits (number_value bound.now) ≡ true }
    ensures { OnOk result (string_bytes line.new ≡ string_bytes line.old
        ++ told_text (within (number_value bound.now) (frac_value value))) }
{
    match bound.fraction() {
        Some(bound) => write!(line, "within {bound} {value}"),
        None => unreachable!(),
    }
}

// What is said where a claim holds with a value.
fn put_valued(line: &mut String, claim: Claim, value: Frac) -> Result<(), AllocError>
    requires { HasFittingBound claim }
    ensures { OnOk result (string_bytes line.new ≡ string_bytes line.old
        ++ option_map_or told_text (told_claim claim (value_found (Some value))) []) }
{
    match claim {
        Claim::Optimal(_) => write!(line, "optimal {value}"),
        Claim::Within(_, bound) => put_within(line, &bound, value),
        Claim::Bound(_, _) => write!(line, "bound {value}"),
        Claim::Feasible(_) => write!(line, "feasible {value}"),
        Claim::Infeasible | Claim::Unbounded(_) => Ok(()),
    }
}

// What is said where a claim holds without a value.
fn put_bare(line: &mut String, claim: Claim) -> Result<(), AllocError>
    ensures { OnOk result (string_bytes line.new ≡ string_bytes line.old
        ++ option_map_or told_text (told_claim claim None) []) }
{
    match claim {
        Claim::Infeasible => write!(line, "infeasible"),
        Claim::Unbounded(_) => write!(line, "unbounded"),
        Claim::Optimal(_) | Claim::Within(_, _) | Claim::Bound(_, _) => Ok(()),
        Claim::Feasible(_) => Ok(()),
    }
}

// What is said where a claim holds with this value, if any.
fn put_told(line: &mut String, claim: Claim, value: Option<Frac>) -> Result<(), AllocError>
    requires { HasFittingBound claim }
    ensures { OnOk result (string_bytes line.new ≡ string_bytes line.old
        ++ option_map_or told_text (told_claim claim (value_found value)) []) }
{
    match value {
        Some(value) => put_valued(line, claim, value),
        None => put_bare(line, claim),
    }
}

/// The number of the objective of a claim; 0 where it is of none.
pub fn claim_objective(claim: Claim) -> u32
    ensures { result ≡ claim_objective claim }
{
    match claim {
        Claim::Optimal(objective) => objective,
        Claim::Within(objective, _) => objective,
        Claim::Bound(objective, _) => objective,
        Claim::Feasible(objective) => objective,
        Claim::Infeasible => 0,
        Claim::Unbounded(objective) => objective,
    }
}

// The objective, where it is not that of number 0.
fn put_objective(line: &mut String, objective: u32) -> Result<(), AllocError>
    ensures { OnOk result (string_bytes line.new
        ≡ string_bytes line.old ++ objective_text objective) }
{
    if objective == 0 {
        return Ok(());
    }
    write!(line, " of objective {objective}")
}

// The line of a claim that holds with this value, if any.
fn held_line(alloc: Global, claim: Claim, value: Option<Frac>) -> Result<Vec<u8>, AllocError>
    requires { HasFittingBound claim }
    ensures { IfOk result (λ line. line.items ≡ outcome_line claim (holds (value_found value))) }
{
    let mut line = String::new(alloc);
    let kept = claim;
    put_told(&mut line, claim, value)?;
    put_objective(&mut line, claim_objective(kept))?;
    line.push('\n')?;
    Ok(line.into_bytes())
}

/// The line of a certificate that shows nothing.
pub fn failed_line(alloc: Global, cause: Cause) -> Result<Vec<u8>, AllocError>
    ensures { IfOk result (λ line. line.items ≡ failed_text (cause_of cause) ++ codes "\n") }
{
    let line = format!(in alloc; "{cause}\n")?;
    Ok(line.into_bytes())
}

/// The line of a verdict on a certificate for this claim.
pub fn outcome_line(alloc: Global, claim: Claim, outcome: Outcome) -> Result<Vec<u8>, AllocError>
    requires { HasFittingBound claim }
    ensures { IfOk result (λ line. line.items ≡ outcome_line claim (outcome_of outcome)) }
{
    match outcome {
        Outcome::Holds(value) => held_line(alloc, claim, value),
        Outcome::Fails(cause) => failed_line(alloc, cause),
    }
}

/// Whether a claim holds.
pub fn is_held(outcome: Outcome) -> bool
    ensures { result ≡ is_held (outcome_of outcome) }
{
    matches!(outcome, Outcome::Holds(_))
}
