// The check of a certificate.
ghost use Rattle.std.specs.Prelude.{◌≡◌, IfOk, Some, length};
ghost use Rattle.linear_program.specs.Linear.{row_count, value_at, variable_count};
ghost use Rattle.certificates.specs.Branch.{proof_fault};
ghost use Rattle.certificates.specs.Certificate.{alone, judged, unless_leaf, with_leaves, with_ray, with_proof};
ghost use Rattle.certificates.specs.Ray.{ray_fault};
ghost use Rattle.exact_numbers.specs.Values.{frac_value};
ghost use Rattle.certificates.specs.Certificates.{CertificateTree, HasTree, IsCertificateOf, tree_over};
ghost use Rattle.linear_program.specs.Numbers.{spread};
ghost use Rattle.exact_checks.specs.Programs.{program_value};
ghost use Rattle.exact_checks.specs.Terms.{value_found};
ghost use Rattle.certificate_judge.specs.Outcomes.{outcome_of};
ghost use Rattle.certificate_judge.specs.InsidePoints.{fractions_of};
ghost use Rattle.certificate_judge.specs.Walks.{IsOutcomeOf, IsSaidOf};

use crate::given::{fraction, numbers_of};
use crate::outcome::{Cause, Outcome};
use crate::point::judged;
use crate::ray::ray_fault;
use crate::walk::check_tree;
use certificates::{Certificate, Claim};
use exact_checks::Program;
use exact_numbers::Frac;
use std::alloc::{AllocError, Global};

// The point that is given, by variable.
fn given_point(
    alloc: Global,
    program: &Program,
    certificate: &Certificate,
) -> Result<Vec<Frac>, AllocError>
    requires { IsCertificateOf (program_value program.now) certificate.now }
    ensures numbers { IfOk result (λ v.
        (h : IsCertificateOf (program_value program.now) certificate.now)
        → fractions_of v.items
        ≡ spread (variable_count (program_value program.now)) h.given.point) }
    ensures count { IfOk result (λ v.
        length v.items ≡ variable_count (program_value program.now)) }
{
    let (own, _) = certificate.pairs().split_at(certificate.point() as usize);
    numbers_of(alloc, program.n_var(), own)
}

// The ray that is given, by variable.
fn given_ray(
    alloc: Global,
    program: &Program,
    certificate: &Certificate,
) -> Result<Vec<Frac>, AllocError>
    requires { IsCertificateOf (program_value program.now) certificate.now }
    ensures numbers { IfOk result (λ v.
        (h : IsCertificateOf (program_value program.now) certificate.now)
        → fractions_of v.items ≡ spread (variable_count (program_value program.now)) h.given.ray) }
    ensures count { IfOk result (λ v.
        length v.items ≡ variable_count (program_value program.now)) }
{
    let (_, later) = certificate.pairs().split_at(certificate.point() as usize);
    let (own, _) = later.split_at(certificate.ray() as usize);
    numbers_of(alloc, program.n_var(), own)
}

// The claim holds with what is to be shown, unless a leaf of the tree does not close for the value.
fn tree_outcome(
    alloc: Global,
    program: &Program,
    certificate: &Certificate,
    value: Frac,
    shown: Option<Frac>,
) -> Result<Outcome, AllocError>
    requires { (h : IsCertificateOf (program_value program.now) certificate.now)
        × HasTree h.given.tree }
    ensures { IfOk result (λ o. (h : IsCertificateOf (program_value program.now) certificate.now)
        (tree : CertificateTree) → h.given.tree ≡ Some tree → outcome_of o ≡ unless_leaf
        (proof_fault (program_value program.now) (frac_value value)
        (tree_over (row_count (program_value program.now)) tree)) (value_found shown)) }
{
    let (_, later) = certificate.pairs().split_at(certificate.point() as usize);
    let (_, rest) = later.split_at(certificate.ray() as usize);
    match check_tree(alloc, program, certificate.nodes(), rest, value)? {
        Some((number, fault)) => Ok(Outcome::Fails(Cause::Leaf(number, fault))),
        None => Ok(Outcome::Holds(shown)),
    }
}

// The point is feasible, and the tree shows that none is better.
fn optimal_outcome(
    alloc: Global,
    program: &Program,
    certificate: &Certificate,
) -> Result<Outcome, AllocError>
    requires { (h : IsCertificateOf (program_value program.now) certificate.now)
        × HasTree h.given.tree }
    ensures { IfOk result (λ o. (h : IsCertificateOf (program_value program.now) certificate.now)
        (tree : CertificateTree) → h.given.tree ≡ Some tree → outcome_of o
        ≡ with_proof (program_value program.now)
        (tree_over (row_count (program_value program.now)) tree)
        (judged (program_value program.now)
        (spread (variable_count (program_value program.now)) h.given.point))) }
{
    let x = given_point(alloc, program, certificate)?;
    match judged(program, &x) {
        Ok(value) => tree_outcome(alloc, program, certificate, value, Some(value)),
        Err(cause) => Ok(Outcome::Fails(cause)),
    }
}

// The point is feasible, and the tree shows that none is better than what is stated.
fn near_outcome(
    alloc: Global,
    program: &Program,
    certificate: &Certificate,
    stated: Frac,
) -> Result<Outcome, AllocError>
    requires { (h : IsCertificateOf (program_value program.now) certificate.now)
        × HasTree h.given.tree }
    ensures { IfOk result (λ o. (h : IsCertificateOf (program_value program.now) certificate.now)
        (tree : CertificateTree) → h.given.tree ≡ Some tree → outcome_of o
        ≡ with_leaves (proof_fault (program_value program.now) (frac_value stated)
        (tree_over (row_count (program_value program.now)) tree))
        (judged (program_value program.now)
        (spread (variable_count (program_value program.now)) h.given.point))) }
{
    let x = given_point(alloc, program, certificate)?;
    match judged(program, &x) {
        Ok(value) => tree_outcome(alloc, program, certificate, stated, Some(value)),
        Err(cause) => Ok(Outcome::Fails(cause)),
    }
}

// The point is feasible.
fn feasible_outcome(
    alloc: Global,
    program: &Program,
    certificate: &Certificate,
) -> Result<Outcome, AllocError>
    requires { IsCertificateOf (program_value program.now) certificate.now }
    ensures { IfOk result (λ o. (h : IsCertificateOf (program_value program.now) certificate.now)
        → outcome_of o ≡ alone (judged (program_value program.now)
        (spread (variable_count (program_value program.now)) h.given.point))) }
{
    let x = given_point(alloc, program, certificate)?;
    match judged(program, &x) {
        Ok(value) => Ok(Outcome::Holds(Some(value))),
        Err(cause) => Ok(Outcome::Fails(cause)),
    }
}

// The point is feasible, and the ray leads on from it.
fn unbounded_outcome(
    alloc: Global,
    program: &Program,
    certificate: &Certificate,
) -> Result<Outcome, AllocError>
    requires { IsCertificateOf (program_value program.now) certificate.now }
    ensures { IfOk result (λ o. (h : IsCertificateOf (program_value program.now) certificate.now)
        → outcome_of o ≡ with_ray (ray_fault (program_value program.now)
        (value_at (spread (variable_count (program_value program.now)) h.given.ray)))
        (judged (program_value program.now)
        (spread (variable_count (program_value program.now)) h.given.point))) }
{
    let x = given_point(alloc, program, certificate)?;
    if let Err(cause) = judged(program, &x) {
        return Ok(Outcome::Fails(cause));
    }
    let d = given_ray(alloc, program, certificate)?;
    match ray_fault(program, &d) {
        Some(fault) => Ok(Outcome::Fails(Cause::Ray(fault))),
        None => Ok(Outcome::Holds(None)),
    }
}

// The outcome of a certificate, by its claim.
fn certificate_outcome(
    alloc: Global,
    program: &Program,
    certificate: &Certificate,
) -> Result<Outcome, AllocError>
    requires { IsCertificateOf (program_value program.now) certificate.now }
    ensures { IfOk result (λ o. IsOutcomeOf (program_value program.now) certificate.now
        (outcome_of o)) }
{
    match certificate.claim() {
        Claim::Optimal(_) => optimal_outcome(alloc, program, certificate),
        Claim::Within(_, stated) => { near_outcome(alloc, program, certificate, fraction(&stated)) }
        Claim::Bound(_, stated) => {
            let value = fraction(&stated);
            tree_outcome(alloc, program, certificate, value, Some(value))
        }
        Claim::Feasible(_) => feasible_outcome(alloc, program, certificate),
        Claim::Infeasible => tree_outcome(alloc, program, certificate, Frac::zero(), None),
        Claim::Unbounded(_) => unbounded_outcome(alloc, program, certificate),
    }
}

/// What a certificate shows of a linear program: the claim holds, with the value that it has for
/// the objective, or the first cause why not, of the point, the ray and the leaves in order. The
/// memory for the walk is taken before it, as `check_tree` says. A leaf costs the terms of the rows
/// that have a number, and of the objective.
#[tactic(auto, using(certificates::proofs::Shown::says, certificates::proofs::Given::is_certificate, exact_checks::proofs::SumLemmas::if_put))]
pub fn check_certificate(
    alloc: Global,
    program: &Program,
    certificate: &Certificate,
) -> Result<Outcome, AllocError>
    requires { IsCertificateOf (program_value program.now) certificate.now }
    ensures exact { IfOk result (λ o. IsOutcomeOf (program_value program.now) certificate.now
        (outcome_of o)) }

    // Where it holds, the claim is true of the program; where a row or a bound at the point is
    // broken or too wide, all before it is met; where it fails later, the point is feasible.
    ensures says { IfOk result (λ o. IsSaidOf (program_value program.now) certificate.now
        (outcome_of o)) }
{
    certificate_outcome(alloc, program, certificate)
}
