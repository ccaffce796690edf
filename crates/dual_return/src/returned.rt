// A .sol file from an answer.
ghost use Rattle.std.specs.Prelude.{◌≡◌, IfOk, IfErr};
ghost use Rattle.text_base.specs.Stopped.{IfFault};
ghost use Rattle.nl_model.specs.File.{File};
ghost use Rattle.row_scaling.specs.Scaling.{IsScaledOf};
ghost use Rattle.dual_return.specs.Return.{IsAnswered, IsAnswerFor, IsReturn, HasReturnFault, linear_for};

use crate::duals::add_given_duals;
use crate::fault::ReturnFault;
use crate::parts::{add_message, add_primals, add_suffixes, options_of, set_objno};
use answer_file::Answer;
use nl_model::{Counts, NlFile, Options};
use row_scaling::Scaled;
use sol_files::{Sol, SolBuilder};
use std::alloc::Global;
use text_base::Stop;

/// The .sol file of an answer: duals of the file's rows, unscaled and in AMPL's sign, under the
/// original numbers.
pub fn solution(
    alloc: Global,
    file: &NlFile,
    scaled: &Scaled,
    answer: &Answer,
) -> Result<Sol, Stop<ReturnFault>>
    requires made { IsAnswerFor file.now answer.now }
    requires scales { IsScaledOf (linear_for file.now answer.now) scaled.now }
    ensures sol { IfOk result (λ sol. IsReturn file.now answer.now sol) }
    ensures fault { IfErr result (λ stop. IfFault stop
        (λ fault. HasReturnFault file.now answer.now fault)) }
{
    let options = options_of(file);
    let header = file.header();
    solution_by_header(alloc, *header.counts(), options, scaled, answer)
}

/// The same by the header of a file that may be let go before.
pub fn solution_by_header(
    alloc: Global,
    counts: Counts,
    options: Options,
    scaled: &Scaled,
    answer: &Answer,
) -> Result<Sol, Stop<ReturnFault>>
    requires { (f : File) × IsAnswered counts options scaled.now answer.now f }
    ensures sol { IfOk result (λ sol. (f : File)
        → IsAnswered counts options scaled.now answer.now f → IsReturn f answer.now sol) }
    ensures fault { IfErr result (λ stop. IfFault stop (λ fault. (f : File)
        → IsAnswered counts options scaled.now answer.now f → HasReturnFault f answer.now fault)) }
{
    let mut sol = SolBuilder::new(alloc, options, counts.n_con, counts.n_var);
    add_message(&mut sol, answer.message())?;
    if let Err(stop) = add_given_duals(alloc, &mut sol, counts.n_con, scaled, answer) {
        return Err(stop);
    }
    add_primals(&mut sol, counts.n_var, answer)?;
    set_objno(&mut sol, answer);
    add_suffixes(alloc, &mut sol, answer.suffixes())?;
    Ok(sol.finish())
}
