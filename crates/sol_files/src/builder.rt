// How a value of a .sol file is built.
ghost use Rattle.std.specs.Prelude.{◌≡◌, ◌<◌, ◌++◌, ◌∷◌, [], length, OnOk, OnErr, Some, All};
ghost use Rattle.std.specs.List.{AllByRecursion};
ghost use Rattle.sol_files.specs.Parts.{change_last};
ghost use Rattle.sol_files.specs.Built.{AreGiven, IsMessageLine, empty_sol, with_message, with_dual, with_primal, with_suffix, with_table_line, with_value};
ghost use Rattle.text_base.specs.Cut.{IsOneLine};
ghost use Rattle.sol_files.specs.Steps.{held_lines, lines_with};

use crate::parts::SolParts;
use crate::sol::Sol;
use crate::suffix::SolSuffix;
use exact_numbers::Dec;
use nl_model::{Decs, Options};
use std::alloc::{AllocError, Global};
use std::marker::Model;
use text_base::TextLines;

/// A value of a .sol file that is being built.
#[derive(Drop)]
pub struct SolBuilder {
    parts: SolParts,
}

impl Model for SolBuilder {
    ghost use Rattle.sol_files.specs.Sol.{Sol as SolValue};

    ghost Value = { SolValue };

    ghost use Rattle.sol_files.specs.InsideParts.{sol_of};

    ghost view = { λ s. sol_of s.parts };
}

impl SolBuilder {
    /// Options and two numbers, without values.
    pub fn new(alloc: Global, options: Options, n_con: u32, n_var: u32) -> SolBuilder
        ensures { result ≡ empty_sol options n_con n_var }
    {
        let parts = SolParts {
            message: TextLines::new(alloc),
            options,
            n_con,
            duals: Decs::new(alloc),
            n_var,
            primals: Decs::new(alloc),
            objno: None,
            suffixes: Vec::new(alloc),
        };
        SolBuilder { parts }
    }

    /// Adds a line to the message.
    pub fn say(&mut self, line: &[u8]) -> Result<(), AllocError>
        requires { IsMessageLine line.now }
        ensures ok { OnOk result (self.new ≡ with_message self.old line.now) }
        ensures err { OnErr result (self.new ≡ self.old) }
    {
        self.parts.message.push(line)?;
        Ok(())
    }

    /// Adds the value of the next constraint.
    pub fn dual(&mut self, value: Dec) -> Result<(), AllocError>
        ensures ok { OnOk result (self.new ≡ with_dual self.old value) }
        ensures err { OnErr result (self.new ≡ self.old) }
    {
        self.parts.duals.push(value)?;
        Ok(())
    }

    /// Adds the value of the next variable.
    pub fn primal(&mut self, value: Dec) -> Result<(), AllocError>
        ensures ok { OnOk result (self.new ≡ with_primal self.old value) }
        ensures err { OnErr result (self.new ≡ self.old) }
    {
        self.parts.primals.push(value)?;
        Ok(())
    }

    /// Adds a suffix.
    pub fn suffix(&mut self, suffix: SolSuffix) -> Result<(), AllocError>
        requires { AllByRecursion IsOneLine suffix.table }
        ensures ok { OnOk result (self.new ≡ with_suffix self.old suffix) }
        ensures err { OnErr result (self.new ≡ self.old) }
    {
        self.parts.suffixes.push(suffix)?;
        Ok(())
    }

    /// Sets the number of the objective and the solver's code.
    pub fn set_objno(&mut self, number: i32, code: i32)
        ensures { self.new ≡ record self.old { objno = Some (number, code) } }
    {
        self.parts.objno = Some((number, code));
    }

    /// The value, where duals and primals are empty or full.
    pub fn finish(self) -> Sol
        requires { AreGiven self }
        ensures { result ≡ self }
    {
        Sol { parts: self.parts }
    }
}

// What a reader of a text adds.
impl SolBuilder {
    // Adds an empty line that was held back.
    fn release(&mut self, is_held_back: bool) -> Result<(), AllocError>
        ensures ok { OnOk result (self.new
            ≡ record self.old { message = self.old.message ++ held_lines is_held_back }) }
        ensures err { OnErr result (self.new ≡ self.old) }
    {
        if is_held_back {
            return self.say(b"");
        }
        Ok(())
    }

    // Adds a line, unless it is empty.
    fn add_some(&mut self, line: &[u8]) -> Result<(), AllocError>
        requires { IsMessageLine line.now }
        ensures ok { OnOk result (self.new
            ≡ record self.old { message = lines_with self.old.message line.now }) }
        ensures err { OnErr result (self.new ≡ self.old) }
    {
        if line.is_empty() {
            return Ok(());
        }
        self.say(line)
    }

    /// Adds an empty line that was held back, and then a line, unless that is empty.
    pub(crate) fn add_lines(&mut self, is_held_back: bool, line: &[u8]) -> Result<(), AllocError>
        requires { IsMessageLine line.now }
        ensures ok { OnOk result (self.new
            ≡ record self.old {
              message = lines_with (self.old.message
                  ++ held_lines is_held_back) line.now;
            }) }
        ensures others { record self.new { message = [] } ≡ record self.old { message = [] } }
    {
        self.release(is_held_back)?;
        self.add_some(line)?;
        Ok(())
    }

    /// Adds an option.
    pub(crate) fn add_option(&mut self, value: i32)
        requires { length self.old.options < 9 }
        ensures { self.new ≡ record self.old { options = self.old.options ++ value ∷ [] } }
    {
        self.parts.options.push(value);
    }

    /// Sets the number of constraints.
    pub(crate) fn set_n_con(&mut self, n_con: u32)
        ensures { self.new ≡ record self.old { n_con = n_con } }
    {
        self.parts.n_con = n_con;
    }

    /// Sets the number of variables.
    pub(crate) fn set_n_var(&mut self, n_var: u32)
        ensures { self.new ≡ record self.old { n_var = n_var } }
    {
        self.parts.n_var = n_var;
    }

    /// Adds a line to the table of the last suffix.
    pub(crate) fn add_table_line(&mut self, line: &[u8]) -> Result<(), AllocError>
        requires { 0 < length self.old.suffixes }
        ensures ok { OnOk result (self.new
            ≡ record self.old {
              suffixes = change_last (with_table_line line.now) self.old.suffixes;
            }) }
        ensures err { OnErr result (self.new ≡ self.old) }
    {
        let last = self.parts.suffixes.len() - 1;
        let suffix = &mut self.parts.suffixes[last];
        suffix.table.push(line)?;
        Ok(())
    }

    /// Adds a value to the last suffix.
    pub(crate) fn add_value(&mut self, pair: (u32, Dec)) -> Result<(), AllocError>
        requires { 0 < length self.old.suffixes }
        ensures ok { OnOk result (self.new
            ≡ record self.old { suffixes = change_last (with_value pair) self.old.suffixes }) }
        ensures err { OnErr result (self.new ≡ self.old) }
    {
        let last = self.parts.suffixes.len() - 1;
        let suffix = &mut self.parts.suffixes[last];
        suffix.values.push(pair)?;
        Ok(())
    }

    /// How many options there are.
    pub(crate) fn option_count(&self) -> usize
        ensures { result ≡ length self.now.options }
    {
        self.parts.options.len()
    }

    /// How many constraints there are.
    pub(crate) fn n_con(&self) -> u32
        ensures { result ≡ self.now.n_con }
    {
        self.parts.n_con
    }

    /// How many variables there are.
    pub(crate) fn n_var(&self) -> u32
        ensures { result ≡ self.now.n_var }
    {
        self.parts.n_var
    }

    /// How many lines the message has.
    pub(crate) fn line_count(&self) -> usize
        ensures { result ≡ length self.now.message }
    {
        self.parts.message.len()
    }

    /// Whether the number of the objective was set.
    pub(crate) fn objno(&self) -> Option<(i32, i32)>
        ensures { result ≡ self.now.objno }
    {
        self.parts.objno
    }

    /// The suffixes.
    pub(crate) fn suffixes(&self) -> &[SolSuffix]
        ensures { result.now ≡ self.now.suffixes }
    {
        &self.parts.suffixes
    }
}
