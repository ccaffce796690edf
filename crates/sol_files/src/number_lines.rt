// The lines with options and counts.
ghost use Rattle.std.specs.Prelude.{◌≡◌, length};
ghost use Rattle.text_base.specs.Judged.{Takes};
ghost use Rattle.text_base.specs.Words.{texts};
ghost use Rattle.sol_files.specs.Tests.{count_tests, dec_tests, given_tests, option_tests, size_tests};
ghost use Rattle.sol_files.specs.Steps.{after_constraints, after_dual, after_dual_count, after_option, after_option_count, after_primal, after_primal_count, after_variables, options_await, values_await};

use crate::awaited::Awaited;
use crate::fault::{Refusal, SolReason};
use crate::grammar::{SolGrammar, here};
use crate::rows::{MOST_OPTIONS, MOST_VALUES, read_given, read_number, read_option, read_value};
use text_base::Stop;

// The line that is awaited where so many options are left.
fn options_await(left: u32) -> Awaited
    ensures { result ≡ options_await left }
{
    if left > 0 {
        return Awaited::Options(left);
    }
    Awaited::Constraints
}

// The line that is awaited where so many duals and primals are left.
fn values_await(duals: u32, primals: u32) -> Awaited
    ensures { result ≡ values_await duals primals }
{
    if duals > 0 {
        return Awaited::Duals(duals);
    }
    if primals > 0 {
        return Awaited::Primals(primals);
    }
    Awaited::Tail
}

impl SolGrammar {
    /// The number of options.
    pub(crate) fn take_option_count(&mut self, words: &[&[u8]]) -> Result<(), Stop<Refusal>>
        requires { self.old.awaited ≡ Awaited.OptionCount }
        ensures { Takes (count_tests (texts words.now))
            (after_option_count self.old (texts words.now)) result self.new }
    {
        let count = match read_number(words, MOST_OPTIONS, SolReason::Options) {
            Ok(count) => count,
            Err(reason) => return Err(here(reason)),
        };
        self.awaited = options_await(count);
        Ok(())
    }

    /// An option.
    pub(crate) fn take_option(&mut self, words: &[&[u8]], left: u32) -> Result<(), Stop<Refusal>>
        requires { self.old.awaited ≡ Awaited.Options left }
        ensures { Takes (option_tests (length self.old.sol.options) (texts words.now))
            (after_option self.old left (texts words.now)) result self.new }
    {
        let value = match read_option(words, self.draft.option_count()) {
            Ok(value) => value,
            Err(reason) => return Err(here(reason)),
        };
        self.draft.add_option(value);
        self.awaited = options_await(left - 1);
        Ok(())
    }

    /// The number of constraints.
    pub(crate) fn take_constraints(&mut self, words: &[&[u8]]) -> Result<(), Stop<Refusal>>
        requires { self.old.awaited ≡ Awaited.Constraints }
        ensures { Takes (size_tests (texts words.now))
            (after_constraints self.old (texts words.now)) result self.new }
    {
        let count = match read_number(words, MOST_VALUES, SolReason::TooLarge) {
            Ok(count) => count,
            Err(reason) => return Err(here(reason)),
        };
        self.draft.set_n_con(count);
        self.awaited = Awaited::DualCount;
        Ok(())
    }

    /// How many duals are given.
    pub(crate) fn take_dual_count(&mut self, words: &[&[u8]]) -> Result<(), Stop<Refusal>>
        requires { self.old.awaited ≡ Awaited.DualCount }
        ensures { Takes (given_tests self.old.sol.n_con (texts words.now))
            (after_dual_count self.old (texts words.now)) result self.new }
    {
        let count = match read_given(words, self.draft.n_con()) {
            Ok(count) => count,
            Err(reason) => return Err(here(reason)),
        };
        self.dual_count = count;
        self.awaited = Awaited::Variables;
        Ok(())
    }

    /// The number of variables.
    pub(crate) fn take_variables(&mut self, words: &[&[u8]]) -> Result<(), Stop<Refusal>>
        requires { self.old.awaited ≡ Awaited.Variables }
        ensures { Takes (size_tests (texts words.now))
            (after_variables self.old (texts words.now)) result self.new }
    {
        let count = match read_number(words, MOST_VALUES, SolReason::TooLarge) {
            Ok(count) => count,
            Err(reason) => return Err(here(reason)),
        };
        self.draft.set_n_var(count);
        self.awaited = Awaited::PrimalCount;
        Ok(())
    }

    /// How many primals are given.
    pub(crate) fn take_primal_count(&mut self, words: &[&[u8]]) -> Result<(), Stop<Refusal>>
        requires { self.old.awaited ≡ Awaited.PrimalCount }
        ensures { Takes (given_tests self.old.sol.n_var (texts words.now))
            (after_primal_count self.old (texts words.now)) result self.new }
    {
        let count = match read_given(words, self.draft.n_var()) {
            Ok(count) => count,
            Err(reason) => return Err(here(reason)),
        };
        self.primal_count = count;
        self.awaited = values_await(self.dual_count, count);
        Ok(())
    }

    /// A dual.
    pub(crate) fn take_dual(&mut self, words: &[&[u8]], left: u32) -> Result<(), Stop<Refusal>>
        requires { self.old.awaited ≡ Awaited.Duals left }
        ensures { Takes (dec_tests (texts words.now))
            (after_dual self.old left (texts words.now)) result self.new }
    {
        let value = match read_value(words) {
            Ok(value) => value,
            Err(reason) => return Err(here(reason)),
        };
        self.draft.dual(value)?;
        self.awaited = values_await(left - 1, self.primal_count);
        Ok(())
    }

    /// A primal.
    pub(crate) fn take_primal(&mut self, words: &[&[u8]], left: u32) -> Result<(), Stop<Refusal>>
        requires { self.old.awaited ≡ Awaited.Primals left }
        ensures { Takes (dec_tests (texts words.now))
            (after_primal self.old left (texts words.now)) result self.new }
    {
        let value = match read_value(words) {
            Ok(value) => value,
            Err(reason) => return Err(here(reason)),
        };
        self.draft.primal(value)?;
        self.awaited = values_await(0, left - 1);
        Ok(())
    }
}
