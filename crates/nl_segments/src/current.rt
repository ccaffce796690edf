// The piece that was begun last.
ghost use Rattle.std.specs.Prelude.{◌≡◌, ◌<◌, ◌≤◌, ◌-◌, ◌^◌, ℕ, None, All, length, OnOk, OnErr, IfSome};
ghost use Rattle.nl_model.specs.Nodes.{awaited};
ghost use Rattle.nl_segments.specs.Current.{IsPending, new_current, nodes_await, current_awaits, less_line, less_lines, with_pair, with_node_row};
ghost use Rattle.nl_lines.specs.NodeRows.{IsFormedRow, IsNodeKnown};
ghost use Rattle.nl_segments.specs.Held.{Body};
ghost use Rattle.nl_segments.specs.InsideNodeRuns.{AwaitsNodes, HasNodes, only_nodes_of, with_nodes};
ghost use Rattle.nl_segments.specs.InsideTermRuns.{TakesLines};

use crate::body_leaves::give_nodes;
use exact_numbers::Dec;
use nl_lines::{Awaited, Head, NodeRow, Pending, has_tree, line_kind};
use nl_model::{ExprBuilder, NlBuilder, Terms};
use std::alloc::{AllocError, Global};
use std::marker::Model;
use text_base::Front;

/// The piece that was begun last: its head, how many lines before an expression are still awaited,
/// and what was read of it.
#[derive(Drop)]
pub struct Current {
    head: Head,
    line: u32,
    left: u32,
    pairs: Terms,
    nodes: ExprBuilder,
    pending: Option<Pending>,
}

impl Model for Current {
    ghost use Rattle.std.specs.Prelude.{IfSome};
    ghost use Rattle.nl_segments.specs.Current.{Current as CurrentValue, IsPending};

    ghost Value = { CurrentValue };

    ghost view = { λ c. record {
      head = c.head;
      line = c.line;
      left = c.left;
      pairs = c.pairs;
      nodes = c.nodes;
      pending = c.pending;
    } };

    ghost invariant = { λ c. IfSome c.pending (IsPending c.nodes) };
}

impl Current {
    /// A head, after which so many lines come before any expression.
    pub(crate) fn new(alloc: Global, head: Head, line: u32, left: u32) -> Current
        ensures { result ≡ new_current head line left }
    {
        Current {
            head,
            line,
            left,
            pairs: Terms::new(alloc),
            nodes: ExprBuilder::new(alloc),
            pending: None,
        }
    }

    /// The head.
    pub(crate) fn head(&self) -> Head
        ensures { result ≡ self.now.head }
    {
        self.head
    }

    /// The line of the head.
    pub(crate) fn line(&self) -> u32
        ensures { result ≡ self.now.line }
    {
        self.line
    }

    // What the expression awaits.
    fn nodes_await(&self) -> Awaited
        ensures { result ≡ nodes_await self.now.nodes self.now.pending }
    {
        if self.pending.is_some() {
            return Awaited::OperandCount;
        }
        if self.nodes.wants() == 0 {
            return Awaited::Nothing;
        }
        Awaited::Node
    }

    /// The line that is awaited.
    pub(crate) fn awaited(&self) -> Awaited
        ensures { result ≡ current_awaits self.now }
    {
        if self.left > 0 {
            return line_kind(self.head);
        }
        if has_tree(self.head) {
            return self.nodes_await();
        }
        Awaited::Nothing
    }

    /// Counts a line that is kept elsewhere.
    pub(crate) fn take_line(&mut self)
        requires { 0 < self.old.left }
        ensures { self.new ≡ less_line self.old }
    {
        self.left -= 1;
    }

    /// Counts so many lines that are kept elsewhere.
    pub(crate) fn take_lines(&mut self, count: u32)
        requires { count ≤ self.old.left }
        ensures { self.new ≡ less_lines self.old count }
    {
        self.left -= count;
    }

    /// Keeps a pair.
    pub(crate) fn take_pair(&mut self, pair: (u32, Dec)) -> Result<(), AllocError>
        requires { 0 < self.old.left }
        ensures { OnOk result (self.new ≡ with_pair self.old pair) }
    {
        self.pairs.push(pair)?;
        self.left -= 1;
        Ok(())
    }

    /// Keeps a row of the expression, whose node or opcode stands in this line.
    pub(crate) fn take_row(&mut self, row: NodeRow, line: u32) -> Result<(), AllocError>
        requires wanted { 0 < awaited self.old.nodes }
        requires few { length self.old.nodes < 2 ^ 22 }
        requires formed { IsFormedRow row }
        ensures ok { OnOk result (self.new ≡ with_node_row self.old line row) }
        ensures err { OnErr result (self.new ≡ self.old) }
    {
        match row {
            NodeRow::Whole(node) => {
                self.nodes.push(node)?;
                self.pending = None;
            }
            NodeRow::Counted(opcode) => self.pending = Some(Pending { opcode, line }),
        }
        Ok(())
    }

    /// Keeps nodes of lines at the front of a piece, after so many nodes of the file.
    pub(crate) fn take_nodes(&mut self, builder: &NlBuilder, before: u32, piece: &[u8]) -> Front
        requires alone { self.old.pending ≡ None }
        requires some { HasNodes builder.now self.old.nodes before }
        ensures same { self.new ≡ only_nodes_of self.old self.new.nodes }
        ensures few { result.lines ≤ 2 ^ 22 - before }
        ensures known { All (IsNodeKnown builder.now.counts.n_var builder.now.definitions)
            self.new.nodes }
        ensures takes { (b : Body) (number : ℕ)
            → AwaitsNodes builder.now self.old.nodes before b self.old
            → TakesLines b piece.now number result
            (with_nodes b self.old self.new.nodes number result.lines) }
    {
        give_nodes(builder, &mut self.nodes, before, piece)
    }

    /// The opcode that awaits its number of operands.
    pub(crate) fn pending(&self) -> Option<Pending>
        ensures opcode { result ≡ self.now.pending }
        ensures waits { IfSome self.now.pending (IsPending self.now.nodes) }
    {
        self.pending
    }

    /// The pairs that were kept, and the nodes.
    pub(crate) fn into_parts(self) -> (Terms, ExprBuilder)
        ensures pairs { result.0 ≡ self.pairs }
        ensures nodes { result.1 ≡ self.nodes }
    {
        (self.pairs, self.nodes)
    }
}

impl Current {
    /// How many lines before any expression are still awaited.
    pub(crate) fn left(&self) -> u32
        ensures { result ≡ self.now.left }
    {
        self.left
    }

    /// The pairs that were kept.
    pub(crate) fn into_pairs(self) -> Terms
        ensures { result ≡ self.pairs }
    {
        self.pairs
    }
}
