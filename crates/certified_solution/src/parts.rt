// What a certificate gives for the parts of a .sol file.
ghost use Rattle.std.specs.Prelude.{◌≡◌, ◌++◌, ◌<◌, ◌^◌, ℕ, IfOk, OnOk, length, pos, Bool, true, false, Some, None};
ghost use Rattle.certificates.specs.Reading.{given_in};
ghost use Rattle.exact_checks.specs.Terms.{values_of};
ghost use Rattle.certified_solution.specs.Solution.{AreDecimalsOf, IsCertificateBy, code_of, dual_values, point_values};
ghost use Rattle.certified_solution.specs.InsideParts.{begins_with_duals, has_point};

use crate::numbers::spread_decimals;
use certificates::{Certificate, CertificateNode, Claim};
use nl_model::Decs;
use sol_files::SolBuilder;
use std::alloc::{AllocError, Global};

// Whether a claim has a point.
fn has_point(claim: Claim) -> bool
    ensures { result ≡ has_point claim }
{
    match claim {
        Claim::Optimal(_) | Claim::Within(_, _) => true,
        Claim::Feasible(_) | Claim::Unbounded(_) => true,
        Claim::Bound(_, _) | Claim::Infeasible => false,
    }
}

/// The solver's code.
pub(crate) fn code_of(claim: Claim) -> u32
    ensures code { result ≡ code_of claim }
    ensures small { result < 2 ^ 31 }
{
    match claim {
        Claim::Optimal(_) => 0,
        Claim::Within(_, _) => 100,
        Claim::Bound(_, _) => 450,
        Claim::Feasible(_) => 100,
        Claim::Infeasible => 200,
        Claim::Unbounded(_) => 300,
    }
}

/// The values of the point, none where the claim has no point; or that one has no decimal.
#[tactic(auto, using(crate::proofs::Given::without_point, crate::proofs::Given::point_room, crate::proofs::Given::point_numbers, crate::proofs::Given::point_is))]
pub(crate) fn point_decimals(
    alloc: Global,
    n_var: u32,
    certificate: &Certificate,
) -> Result<Option<Decs>, AllocError>
    requires { (m : ℕ) × IsCertificateBy m n_var certificate.now }
    ensures { IfOk result (λ o. AreDecimalsOf o
        (point_values n_var certificate.now.claim (given_in certificate.now))) }
{
    if !has_point(certificate.claim()) {
        return Ok(Some(Decs::new(alloc)));
    }
    let (own, _) = certificate.pairs().split_at(certificate.point() as usize);
    spread_decimals(alloc, n_var, own)
}

// Whether the tree is one leaf of duals.
fn has_duals(certificate: &Certificate) -> bool
    ensures { result ≡ begins_with_duals certificate.now.nodes }
{
    matches!(certificate.nodes().first(), Some(CertificateNode::Duals(_)))
}

/// The duals of a tree that is one leaf of duals; none of any other, or where one has no decimal.
#[tactic(auto, using(crate::proofs::Given::point_room, crate::proofs::Given::ray_room))]
pub(crate) fn dual_decimals(
    alloc: Global,
    n_con: u32,
    certificate: &Certificate,
) -> Result<Decs, AllocError>
    requires { (n : ℕ) × IsCertificateBy n_con n certificate.now }
    ensures { IfOk result (λ ds. values_of ds
        ≡ dual_values n_con (given_in certificate.now).tree) }
{
    if !has_duals(certificate) {
        return Ok(Decs::new(alloc));
    }
    let (_, later) = certificate.pairs().split_at(certificate.point() as usize);
    let (_, own) = later.split_at(certificate.ray() as usize);
    match spread_decimals(alloc, n_con, own)? {
        Some(decimals) => Ok(decimals),
        None => Ok(Decs::new(alloc)),
    }
}

/// Sets the objective's number and the solver's code.
pub(crate) fn set_objno(sol: &mut SolBuilder, objective: u32, code: u32)
    requires number { objective < 2 ^ 31 }
    requires code { code < 2 ^ 31 }
    ensures { sol.new ≡ record sol.old { objno = Some (pos objective, pos code) } }
{
    sol.set_objno(objective as i32, code as i32);
}

/// Adds duals.
pub(crate) fn add_duals(sol: &mut SolBuilder, duals: &Decs) -> Result<(), AllocError>
    ensures { OnOk result (sol.new ≡ record sol.old { duals = sol.old.duals ++ duals.now }) }
{
    'duals: for value in duals.items() {
        sol.dual(*value)?;
    }
    Ok(())
}

/// Adds the values of variables.
pub(crate) fn add_primals(sol: &mut SolBuilder, primals: &Decs) -> Result<(), AllocError>
    ensures { OnOk result (sol.new ≡ record sol.old { primals = sol.old.primals ++ primals.now }) }
{
    'primals: for value in primals.items() {
        sol.primal(*value)?;
    }
    Ok(())
}
