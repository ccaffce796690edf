// The .sol file of a claim whose certificate holds.
ghost use Rattle.std.specs.Prelude.{◌≡◌, ◌<◌, ◌^◌, IfOk, MatchOption};
ghost use Rattle.certificates.specs.Certificates.{claim_objective};
ghost use Rattle.certificates.specs.Reading.{given_in};
ghost use Rattle.sol_files.specs.Built.{IsMessageLine};
ghost use Rattle.certified_solution.specs.Solution.{IsCertificateBy, IsNotDecimal, IsSolutionOf};

use crate::parts::{add_duals, add_primals, code_of, dual_decimals, point_decimals, set_objno};
use certificates::Certificate;
use nl_model::Options;
use sol_files::{Sol, SolBuilder};
use std::alloc::{AllocError, Global};

/// The .sol file of a claim of this objective on a file with these options and counts, whose message
/// is this line; none where a value of the point has no decimal. The command `certified` asks.
pub fn certified_solution(
    alloc: Global,
    options: Options,
    n_con: u32,
    n_var: u32,
    line: &[u8],
    objective: u32,
    certificate: &Certificate,
) -> Result<Option<Sol>, AllocError>
    requires certificate { IsCertificateBy n_con n_var certificate.now }
    requires line { IsMessageLine line.now }
    requires objective { objective ≡ claim_objective certificate.now.claim }
    requires small { objective < 2 ^ 31 }
    ensures { IfOk result (λ o. MatchOption o
        (IsNotDecimal n_var certificate.now.claim (given_in certificate.now))
        (λ s. IsSolutionOf options n_con n_var line.now certificate.now.claim
        (given_in certificate.now) s)) }
{
    let Some(primals) = point_decimals(alloc, n_var, certificate)? else {
        return Ok(None);
    };
    let duals = dual_decimals(alloc, n_con, certificate)?;
    let mut sol = SolBuilder::new(alloc, options, n_con, n_var);
    sol.say(line)?;
    add_duals(&mut sol, &duals)?;
    add_primals(&mut sol, &primals)?;
    let code = code_of(certificate.claim());
    set_objno(&mut sol, objective, code);
    Ok(Some(sol.finish()))
}
