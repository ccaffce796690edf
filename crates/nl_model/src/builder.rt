// Files that are being built.
ghost use Rattle.std.specs.Prelude.{◌≡◌, ◌≢◌, ◌+◌, ◌<◌, ◌≤◌, ◌^◌, ◌++◌, ◌∷◌, [], length, get_or, false, Some, All, OnOk, OnErr, IfOk, slice_set};
ghost use Rattle.nl_model.specs.HeaderRules.{defined_count};
ghost use Rattle.nl_model.specs.HeaderWords.{header_counts, header_options};
ghost use Rattle.nl_model.specs.Draft.{empty_draft, is_given, IsDraft};
ghost use Rattle.nl_model.specs.Rules.{AreIndicesApart, AreTermsBelow, IsTreeWithin, has_suffix, is_defined, is_suffix_of, most_terms, object_count, term_count};
ghost use Rattle.linear_program.specs.Intervals.{IsOrdered};

use crate::definition::Def;
use crate::expr::Expr;
use crate::has_same_objects;
use crate::header::Header;
use crate::header_rules::defined_count;
use crate::objective::Objective;
use crate::places::{lists, marks, places};
use crate::suffix::Suffix;
use exact_numbers::Dec;
use linear_program::{Interval, Terms};
use std::alloc::{AllocError, Global};
use std::marker::Model;

/// A file that is being built: its header, and the parts that were given.
#[derive(Drop)]
pub struct NlBuilder {
    pub(crate) header: Header,
    pub(crate) bodies: Vec<Option<Expr>>,
    pub(crate) objectives: Vec<Option<Objective>>,
    pub(crate) definitions: Vec<Def>,
    // by index less the number of variables
    pub(crate) defined: Vec<bool>,
    pub(crate) terms: Vec<Terms>,
    pub(crate) term_count: u32,
    pub(crate) slopes: Vec<Terms>,
    pub(crate) sides: Vec<Interval>,
    pub(crate) bounds: Vec<Interval>,
    pub(crate) dual_guesses: Terms,
    pub(crate) primal_guesses: Terms,
    pub(crate) suffixes: Vec<Suffix>,
}

impl Model for NlBuilder {
    ghost use Rattle.nl_model.specs.Draft.{Draft};
    ghost use Rattle.nl_model.specs.InsideFileCode.{draft_code};

    ghost Value = { Draft };

    ghost coded = { draft_code };

    ghost use Rattle.nl_model.specs.InsideBuilt.{draft_of, IsBuilt};

    ghost view = { draft_of };

    ghost invariant = { IsBuilt };
}

// Whether the suffix has this name and a kind for the same objects.
fn is_suffix_of(suffix: &Suffix, kind: u8, name: &[u8]) -> bool
    ensures { result ≡ is_suffix_of kind name.now suffix.now }
{
    has_same_objects(suffix.kind, kind) && suffix.name.bytes() == name
}

impl NlBuilder {
    /// A file of this header with no parts, and the places of bodies, objectives and terms.
    pub fn new(alloc: Global, header: Header) -> Result<NlBuilder, AllocError>
        ensures { IfOk result
            (λ b. b ≡ empty_draft (header_options header) (header_counts header)) }
    {
        let counts = *header.counts();
        let rows = counts.n_con as usize;
        let costs = counts.n_obj as usize;
        let bodies = places(alloc, rows)?;
        let objectives = places(alloc, costs)?;
        let defined = marks(alloc, defined_count(&counts) as usize)?;
        let terms = lists(alloc, rows)?;
        let slopes = lists(alloc, costs)?;
        let sides = Vec::with_capacity(alloc, rows)?;
        let bounds = Vec::with_capacity(alloc, counts.n_var as usize)?;
        Ok(NlBuilder {
            header,
            bodies,
            objectives,
            definitions: Vec::new(alloc),
            defined,
            terms,
            term_count: 0,
            slopes,
            sides,
            bounds,
            dual_guesses: Terms::new(alloc),
            primal_guesses: Terms::new(alloc),
            suffixes: Vec::new(alloc),
        })
    }

    /// Gives the body of a constraint.
    pub fn body(&mut self, con: u32, tree: Expr)
        requires con { con < self.old.counts.n_con }
        requires fresh { is_given self.old.bodies con ≡ false }
        requires within { IsTreeWithin self.old.counts.n_var self.old.definitions tree }
        ensures { self.new
            ≡ record self.old { bodies = slice_set self.old.bodies con (Some tree) } }
    {
        // for the prover alone: it brings what an `Expr` always keeps
        let _ = tree.nodes();
        self.bodies[con as usize] = Some(tree);
    }

    /// Gives objective k.
    pub fn objective(&mut self, k: u32, maximise: bool, tree: Expr)
        requires k { k < self.old.counts.n_obj }
        requires fresh { is_given self.old.objectives k ≡ false }
        requires within { IsTreeWithin self.old.counts.n_var self.old.definitions tree }
        ensures { self.new
            ≡ record self.old {
              objectives = slice_set self.old.objectives k
                  (Some (record { maximise = maximise; tree = tree }));
            } }
    {
        // for the prover alone: it brings what an `Expr` always keeps
        let _ = tree.nodes();
        self.objectives[k as usize] = Some(Objective { maximise, tree });
    }

    /// Gives a defined variable, which may use those that were given before.
    pub fn define(&mut self, def: Def) -> Result<(), AllocError>
        requires from { self.old.counts.n_var ≤ def.index }
        requires below { def.index < self.old.counts.n_var + defined_count self.old.counts }
        requires fresh { is_defined self.old.definitions def.index ≡ false }
        requires terms { AreTermsBelow self.old.counts.n_var def.terms }
        requires few { length def.terms ≤ most_terms }
        requires within { IsTreeWithin self.old.counts.n_var self.old.definitions def.tree }
        ensures ok { OnOk result
            (self.new ≡ record self.old { definitions = self.old.definitions ++ def ∷ [] }) }
        ensures err { OnErr result (self.new ≡ self.old) }
    {
        // for the prover alone: it brings what an `Expr` always keeps
        let _ = def.tree.nodes();
        let place = (def.index - self.header.counts().n_var) as usize;
        self.definitions.push(def)?;
        self.defined[place] = true;
        Ok(())
    }

    /// Adds a guess of the dual value of a constraint.
    pub fn dual_guess(&mut self, con: u32, value: Dec) -> Result<(), AllocError>
        requires con { con < self.old.counts.n_con }
        requires fresh { All (λ t. t.0 ≢ con) self.old.dual_guesses }
        ensures ok { OnOk result
            (self.new ≡ record self.old
            { dual_guesses = self.old.dual_guesses ++ (con, value) ∷ [] }) }
        ensures err { OnErr result (self.new ≡ self.old) }
    {
        self.dual_guesses.push((con, value))?;
        Ok(())
    }

    /// Adds a guess of the value of a variable.
    pub fn primal_guess(&mut self, var: u32, value: Dec) -> Result<(), AllocError>
        requires var { var < self.old.counts.n_var }
        requires fresh { All (λ t. t.0 ≢ var) self.old.primal_guesses }
        ensures ok { OnOk result
            (self.new ≡ record self.old
            { primal_guesses = self.old.primal_guesses ++ (var, value) ∷ [] }) }
        ensures err { OnErr result (self.new ≡ self.old) }
    {
        self.primal_guesses.push((var, value))?;
        Ok(())
    }

    /// Adds a suffix.
    pub fn suffix(&mut self, suffix: Suffix) -> Result<(), AllocError>
        requires objects { AreTermsBelow (object_count self.old.counts suffix.kind) suffix.values }
        requires apart { AreIndicesApart suffix.values }
        requires fresh { has_suffix self.old.suffixes suffix.kind suffix.name ≡ false }
        ensures ok { OnOk result
            (self.new ≡ record self.old { suffixes = self.old.suffixes ++ suffix ∷ [] }) }
        ensures err { OnErr result (self.new ≡ self.old) }
    {
        self.suffixes.push(suffix)?;
        Ok(())
    }

    /// Gives the interval of the next constraint.
    pub fn side(&mut self, side: Interval) -> Result<(), AllocError>
        requires place { length self.old.sides < self.old.counts.n_con }
        requires ordered { IsOrdered side }
        ensures ok { OnOk result
            (self.new ≡ record self.old { sides = self.old.sides ++ side ∷ [] }) }
        ensures err { OnErr result (self.new ≡ self.old) }
    {
        let _lo = side.lo;
        self.sides.push(side)?;
        Ok(())
    }

    /// Gives the interval of the next variable.
    pub fn bound(&mut self, side: Interval) -> Result<(), AllocError>
        requires place { length self.old.bounds < self.old.counts.n_var }
        requires ordered { IsOrdered side }
        ensures ok { OnOk result
            (self.new ≡ record self.old { bounds = self.old.bounds ++ side ∷ [] }) }
        ensures err { OnErr result (self.new ≡ self.old) }
    {
        let _lo = side.lo;
        self.bounds.push(side)?;
        Ok(())
    }

    /// Adds a term to a constraint.
    #[inline(always)]
    pub fn term(&mut self, con: u32, var: u32, value: Dec) -> Result<(), AllocError>
        requires con { con < self.old.counts.n_con }
        requires var { var < self.old.counts.n_var }
        requires few { term_count self.old.terms < most_terms }
        ensures ok { OnOk result
            (self.new ≡ record self.old {
              terms = slice_set self.old.terms con
                  (get_or self.old.terms con [] ++ (var, value) ∷ []);
            }) }
        ensures err { OnErr result (self.new ≡ self.old) }
    {
        let row = &mut self.terms[con as usize];
        row.push((var, value))?;
        self.term_count += 1;
        Ok(())
    }

    /// Adds a term to objective k.
    #[inline]
    pub fn slope(&mut self, k: u32, var: u32, value: Dec) -> Result<(), AllocError>
        requires k { k < self.old.counts.n_obj }
        requires var { var < self.old.counts.n_var }
        requires few { length (get_or self.old.slopes k []) < most_terms }
        ensures ok { OnOk result
            (self.new ≡ record self.old {
              slopes = slice_set self.old.slopes k
                  (get_or self.old.slopes k [] ++ (var, value) ∷ []);
            }) }
        ensures err { OnErr result (self.new ≡ self.old) }
    {
        let cost = &mut self.slopes[k as usize];
        cost.push((var, value))?;
        Ok(())
    }

    /// Makes room for so many terms more of a constraint.
    pub fn make_room(&mut self, con: u32, count: usize) -> Result<(), AllocError>
        requires { con < self.old.counts.n_con }
        ensures { self.new ≡ self.old }
    {
        let terms = &mut self.terms[con as usize];
        terms.make_room(count)
    }

    /// The header, and what holds of each draft.
    pub fn header(&self) -> &Header
        ensures options { header_options result.now ≡ self.now.options }
        ensures counts { header_counts result.now ≡ self.now.counts }
        ensures draft { IsDraft self.now }
    {
        &self.header
    }

    /// Whether the body of the constraint was given.
    pub fn has_body(&self, con: u32) -> bool
        ensures { result ≡ is_given self.now.bodies con }
    {
        matches!(self.bodies.get(con as usize), Some(Some(_)))
    }

    /// Whether objective k was given.
    pub fn has_objective(&self, k: u32) -> bool
        ensures { result ≡ is_given self.now.objectives k }
    {
        matches!(self.objectives.get(k as usize), Some(Some(_)))
    }

    /// Whether the defined variable of this index was given.
    pub fn has_def(&self, index: u32) -> bool
        ensures { result ≡ is_defined self.now.definitions index }
    {
        let n_var = self.header.counts().n_var;
        if index < n_var {
            return false;
        }
        let place = (index - n_var) as usize;
        if place >= self.defined.len() {
            return false;
        }
        self.defined[place]
    }

    /// Whether a suffix of this name has a kind for the same objects.
    pub fn has_suffix(&self, kind: u8, name: &[u8]) -> bool
        ensures { result ≡ has_suffix self.now.suffixes kind name.now }
    {
        self.suffixes.iter().any(|s| is_suffix_of(s, kind, name))
    }

    /// How many intervals of constraints were given.
    pub fn sides(&self) -> u32
        ensures { result ≡ length self.now.sides }
    {
        self.sides.len() as u32
    }

    /// How many intervals of variables were given.
    pub fn bounds(&self) -> u32
        ensures { result ≡ length self.now.bounds }
    {
        self.bounds.len() as u32
    }

    /// How many terms of constraints were given.
    pub fn terms(&self) -> u32
        ensures { result ≡ term_count self.now.terms }
    {
        self.term_count
    }
}
