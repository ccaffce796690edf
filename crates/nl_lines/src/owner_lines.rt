// The lines of one owner.
ghost use Rattle.std.specs.Prelude.{◌≡◌, ◌≤◌, ◌+◌, ◌^◌, ◌++◌, ◌∷◌, [], true, None, Some, OnOk, slice_get};
ghost use Rattle.nl_lines.specs.InsideLineRuns.{follows};
ghost use Rattle.nl_lines.specs.Owners.{more_node_run, more_term_run, no_lines};
ghost use Rattle.std.specs.Option.{option_or};

use crate::line_runs::LineRuns;
use std::alloc::{AllocError, Global};
use std::marker::Model;

/// The lines of a defined variable, a constraint or an objective: of its head, if it has one, of
/// its nodes in prefix order, and of its terms in file order.
#[derive(Drop)]
pub struct OwnerLines {
    head: Option<u32>,
    nodes: LineRuns,
    terms: LineRuns,
}

impl Model for OwnerLines {
    ghost use Rattle.nl_lines.specs.Owners.{OwnerLines as LinesValue};

    ghost Value = { LinesValue };

    ghost view = { λ o. record { head = o.head; nodes = o.nodes; terms = o.terms } };
}

impl OwnerLines {
    /// No lines.
    pub fn new(alloc: Global) -> OwnerLines
        ensures { result ≡ no_lines }
    {
        OwnerLines {
            head: None,
            nodes: LineRuns::new(alloc),
            terms: LineRuns::new(alloc),
        }
    }

    /// Begins an expression.
    pub fn begin_tree(&mut self, line: u32)
        ensures { self.new ≡ record self.old { head = Some line; nodes = [] } }
    {
        self.head = Some(line);
        self.nodes.clear();
    }

    /// Begins terms.
    pub fn begin_terms(&mut self)
        ensures { self.new ≡ record self.old { terms = [] } }
    {
        self.terms.clear();
    }

    /// Begins terms, whose head counts where there is no expression.
    pub fn begin_row(&mut self, line: u32)
        ensures { self.new
            ≡ record self.old { head = option_or self.old.head (Some line); terms = [] } }
    {
        if self.head.is_none() {
            self.head = Some(line);
        }
        self.terms.clear();
    }

    /// Adds the line of a node.
    pub fn add_node(&mut self, line: u32) -> Result<(), AllocError>
        ensures { OnOk result (self.new ≡ record self.old { nodes = self.old.nodes ++ line ∷ [] }) }
    {
        self.nodes.push(line)
    }

    /// Whether a line follows those of the nodes, or is the first.
    pub fn nodes_follow(&self, line: u32) -> bool
        ensures { result ≡ follows self.now.nodes line }
    {
        self.nodes.follows(line)
    }

    /// Adds the lines of so many nodes that follow the others, from this line on.
    pub fn add_nodes(&mut self, line: u32, count: u32)
        requires next { follows self.old.nodes line ≡ true }
        requires room { line + count ≤ 2 ^ 32 }
        ensures { self.new ≡ more_node_run line count self.old }
    {
        self.nodes.grow(line, count);
    }

    /// Adds the line of a term.
    pub fn add_term(&mut self, line: u32) -> Result<(), AllocError>
        ensures { OnOk result (self.new ≡ record self.old { terms = self.old.terms ++ line ∷ [] }) }
    {
        self.terms.push(line)
    }

    /// Whether a line follows those of the terms, or is the first.
    pub fn terms_follow(&self, line: u32) -> bool
        ensures { result ≡ follows self.now.terms line }
    {
        self.terms.follows(line)
    }

    /// Adds the lines of so many terms that follow the others, from this line on.
    pub fn add_terms(&mut self, line: u32, count: u32)
        requires next { follows self.old.terms line ≡ true }
        requires room { line + count ≤ 2 ^ 32 }
        ensures { self.new ≡ more_term_run line count self.old }
    {
        self.terms.grow(line, count);
    }

    /// The line of the head.
    pub fn head(&self) -> Option<u32>
        ensures { result ≡ self.now.head }
    {
        self.head
    }

    /// The line of a node.
    pub fn node(&self, i: u32) -> Option<u32>
        ensures { result ≡ slice_get self.now.nodes i }
    {
        self.nodes.get(i)
    }

    /// The line of a term.
    pub fn term(&self, i: u32) -> Option<u32>
        ensures { result ≡ slice_get self.now.terms i }
    {
        self.terms.get(i)
    }
}
