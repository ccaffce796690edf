// Files.
ghost use Rattle.std.specs.Prelude.{◌≡◌, ◌<◌, ◌≤◌, length, None, Some, IsSome, All, slice_get, option_copied, option_map};
ghost use Rattle.nl_model.specs.Draft.{file_of};
ghost use Rattle.nl_model.specs.HeaderWords.{header_counts, header_options};
ghost use Rattle.nl_model.specs.FilePlaces.{tree_at};
ghost use Rattle.nl_model.specs.Rules.{term_count, IsFile};
ghost use Rattle.nl_model.specs.declared.at.Owner.TheVariants.{Con};

use crate::builder::NlBuilder;
use crate::definition::Def;
use crate::expr::Expr;
use crate::header::Header;
use crate::objective::Objective;
use crate::suffix::Suffix;
use linear_program::{Interval, Terms};
use std::marker::Model;

/// What an .nl file says.
#[derive(Drop)]
pub struct NlFile {
    header: Header,
    bodies: Vec<Option<Expr>>,
    objectives: Vec<Option<Objective>>,
    definitions: Vec<Def>,
    terms: Vec<Terms>,
    slopes: Vec<Terms>,
    sides: Vec<Interval>,
    bounds: Vec<Interval>,
    dual_guesses: Terms,
    primal_guesses: Terms,
    suffixes: Vec<Suffix>,
}

impl Model for NlFile {
    ghost use Rattle.nl_model.specs.File.{File};
    ghost use Rattle.nl_model.specs.InsideFileCode.{file_code};

    ghost Value = { File };

    ghost coded = { file_code };

    ghost use Rattle.nl_model.specs.InsideBuilt.{read_file, IsWhole};

    ghost view = { read_file };

    ghost invariant = { IsWhole };
}

impl NlFile {
    /// The header, and what holds of each file.
    pub fn header(&self) -> &Header
        ensures options { header_options result.now ≡ self.now.options }
        ensures counts { header_counts result.now ≡ self.now.counts }
        ensures file { IsFile self.now }
    {
        &self.header
    }

    /// The body of a constraint, where it was given; none of a number beyond the last constraint.
    pub fn body(&self, con: u32) -> Option<&Expr>
        ensures tree { option_copied result ≡ tree_at self.now (Con con) }
        ensures given { con < self.now.counts.n_con
            → slice_get self.now.bodies con ≡ Some (option_copied result) }
        ensures beyond { self.now.counts.n_con ≤ con → option_copied result ≡ None }
    {
        match self.bodies.get(con as usize) {
            Some(body) => body.as_ref(),
            None => None,
        }
    }

    /// The terms of a constraint.
    pub fn terms(&self, con: u32) -> &Terms
        requires { con < self.now.counts.n_con }
        ensures { slice_get self.now.terms con ≡ Some result.now }
    {
        &self.terms[con as usize]
    }

    // Objective k.
    fn given(&self, k: u32) -> &Objective
        requires { k < self.now.counts.n_obj }
        ensures { slice_get self.now.objectives k ≡ Some result.now }
    {
        match &self.objectives[k as usize] {
            Some(objective) => objective,
            None => unreachable!(),
        }
    }

    /// The tree of objective k.
    pub fn objective(&self, k: u32) -> &Expr
        requires { k < self.now.counts.n_obj }
        ensures { option_map (λ o. o.tree) (slice_get self.now.objectives k) ≡ Some result.now }
    {
        &self.given(k).tree
    }

    /// Whether objective k is maximised.
    pub fn maximise(&self, k: u32) -> bool
        requires { k < self.now.counts.n_obj }
        ensures { option_map (λ o. o.maximise) (slice_get self.now.objectives k) ≡ Some result }
    {
        self.given(k).maximise
    }

    /// The terms of objective k.
    pub fn slopes(&self, k: u32) -> &Terms
        requires { k < self.now.counts.n_obj }
        ensures { slice_get self.now.slopes k ≡ Some result.now }
    {
        &self.slopes[k as usize]
    }

    /// The defined variables in file order.
    pub fn defs(&self) -> &[Def]
        ensures { result.now ≡ self.now.definitions }
    {
        &self.definitions
    }

    /// The interval of a constraint.
    pub fn side(&self, con: u32) -> Interval
        requires { con < self.now.counts.n_con }
        ensures { slice_get self.now.sides con ≡ Some result }
    {
        self.sides[con as usize]
    }

    /// The interval of a variable.
    pub fn bound(&self, var: u32) -> Interval
        requires { var < self.now.counts.n_var }
        ensures { slice_get self.now.bounds var ≡ Some result }
    {
        self.bounds[var as usize]
    }

    /// The terms of all constraints, the intervals of all constraints and those of all variables; the
    /// rest is let go.
    pub fn into_rows(self) -> (Vec<Terms>, Vec<Interval>, Vec<Interval>)
        ensures terms { result.0.items ≡ self.terms }
        ensures sides { result.1.items ≡ self.sides }
        ensures bounds { result.2.items ≡ self.bounds }
    {
        (self.terms, self.sides, self.bounds)
    }

    /// The guesses of dual values of constraints in file order.
    pub fn dual_guesses(&self) -> &Terms
        ensures { result.now ≡ self.now.dual_guesses }
    {
        &self.dual_guesses
    }

    /// The guesses of values of variables in file order.
    pub fn primal_guesses(&self) -> &Terms
        ensures { result.now ≡ self.now.primal_guesses }
    {
        &self.primal_guesses
    }

    /// The suffixes in file order.
    pub fn suffixes(&self) -> &[Suffix]
        ensures { result.now ≡ self.now.suffixes }
    {
        &self.suffixes
    }
}

impl NlBuilder {
    /// The file, where every objective, side and bound was given, and as many terms as the header
    /// says.
    pub fn finish(self) -> NlFile
        requires objectives { All IsSome self.objectives }
        requires sides { length self.sides ≡ self.counts.n_con }
        requires bounds { length self.bounds ≡ self.counts.n_var }
        requires terms { term_count self.terms ≡ self.counts.nzc }
        ensures { result ≡ file_of self }
    {
        NlFile {
            header: self.header,
            bodies: self.bodies,
            objectives: self.objectives,
            definitions: self.definitions,
            terms: self.terms,
            slopes: self.slopes,
            sides: self.sides,
            bounds: self.bounds,
            dual_guesses: self.dual_guesses,
            primal_guesses: self.primal_guesses,
            suffixes: self.suffixes,
        }
    }
}
