// The other parts of a .sol file.
ghost use Rattle.std.specs.Prelude.{◌≡◌, ◌++◌, ◌∷◌, [], ◌<◌, ◌≤◌, ◌^◌, List, map, length, None, All, OnOk, IfOk, IfSome};
ghost use Rattle.std.specs.List.{AllByRecursion};
ghost use Rattle.answer_file.specs.Grammar.{AnswerValue};
ghost use Rattle.sol_files.specs.Built.{IsMessageLine};
ghost use Rattle.dual_return.specs.Return.{given, objno_of, suffix_for};

use answer_file::Answer;
use exact_numbers::Dec;
use nl_model::{Decs, NlFile, Options, Suffix, Terms};
use sol_files::{SolBuilder, SolSuffix};
use std::alloc::{AllocError, Global};
use text_base::TextLines;

// The same options.
fn same_options(options: &Options) -> Options
    requires { length options.now ≤ 9 }
    ensures { result ≡ options.now }
{
    let mut same = Options::new();
    'options: for value in options.items() {
        same.push(*value);
    }
    same
}

/// The options of a file.
pub fn options_of(file: &NlFile) -> Options
    ensures { result ≡ file.now.options }
{
    let header = file.header();
    let _counts = header.counts();
    same_options(header.options())
}

/// Adds the lines of a message.
pub(crate) fn add_message(sol: &mut SolBuilder, message: &TextLines) -> Result<(), AllocError>
    requires { AllByRecursion IsMessageLine message.now }
    ensures { OnOk result (sol.new ≡ record sol.old { message = sol.old.message ++ message.now }) }
{
    'lines: for i in 0..message.len() {
        sol.say(message.get(i))?;
    }
    Ok(())
}

/// Adds duals.
pub(crate) fn add_duals(sol: &mut SolBuilder, duals: &Decs) -> Result<(), AllocError>
    ensures { OnOk result (sol.new ≡ record sol.old { duals = sol.old.duals ++ duals.now }) }
{
    'duals: for value in duals.items() {
        sol.dual(*value)?;
    }
    Ok(())
}

// Adds the value of a variable, where it was given.
fn add_primal(sol: &mut SolBuilder, value: Option<Dec>) -> Result<(), AllocError>
    ensures { OnOk result (sol.new ≡ record sol.old {
      primals = sol.old.primals
          ++ given (value ∷ []);
    }) }
{
    match value {
        Some(value) => sol.primal(value),
        None => Ok(()),
    }
}

/// Adds the values of variables that were given.
pub(crate) fn add_primals(
    sol: &mut SolBuilder,
    count: u32,
    answer: &Answer,
) -> Result<(), AllocError>
    requires { length answer.now.columns ≡ count }
    ensures { OnOk result (sol.new ≡ record sol.old {
      primals = sol.old.primals
          ++ given answer.now.columns;
    }) }
{
    'variables: for var in 0..count {
        add_primal(sol, answer.col(var))?;
    }
    Ok(())
}

// The same terms.
fn same_terms(alloc: Global, terms: &Terms) -> Result<Terms, AllocError>
    ensures { IfOk result (λ same. same ≡ terms.now) }
{
    let mut same = Terms::new(alloc);
    'terms: for term in terms.items() {
        same.push(*term)?;
    }
    Ok(same)
}

// The suffix of a .sol file.
fn suffix_for(alloc: Global, suffix: &Suffix) -> Result<SolSuffix, AllocError>
    ensures { IfOk result (λ s. s ≡ suffix_for suffix.now) }
{
    let name = suffix.name.copy(alloc)?;
    let name_len = name.bytes().len() as u32 + 1;
    let values = same_terms(alloc, &suffix.values)?;
    Ok(SolSuffix {
        kind: suffix.kind,
        name,
        name_len,
        table_len: 0,
        table: TextLines::new(alloc),
        values,
    })
}

/// Sets the objective's number and the status, where a status was given.
pub(crate) fn set_objno(sol: &mut SolBuilder, answer: &Answer)
    requires none { sol.old.objno ≡ None }
    requires number { answer.now.objective < 2 ^ 31 }
    requires status { IfSome answer.now.status (λ n. n < 2 ^ 31) }
    ensures { sol.new ≡ record sol.old { objno = objno_of answer.now } }
{
    if let Some(status) = answer.status() {
        sol.set_objno(answer.objective() as i32, status as i32);
    }
}

/// Adds suffixes.
pub(crate) fn add_suffixes(
    alloc: Global,
    sol: &mut SolBuilder,
    suffixes: &[Suffix],
) -> Result<(), AllocError>
    ensures { OnOk result (sol.new ≡ record sol.old {
      suffixes = sol.old.suffixes
          ++ map suffix_for suffixes.now;
    }) }
{
    'suffixes: for suffix in suffixes {
        let suffix = suffix_for(alloc, suffix)?;
        sol.suffix(suffix)?;
    }
    Ok(())
}
