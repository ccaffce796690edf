// Expressions that are being built.
ghost use Rattle.std.specs.Prelude.{◌≡◌, ◌<◌, ◌^◌, ◌++◌, ◌∷◌, [], length, OnOk, OnErr};
ghost use Rattle.nl_model.specs.Nodes.{awaited, operand_count, tree_of, IsNode, AreNodesOf};

use crate::expr::Expr;
use crate::node::Node;
use linear_program::Few;
use std::alloc::{AllocError, Global};
use std::marker::Model;

/// The nodes of an expression so far, in prefix form.
#[derive(Drop)]
pub struct ExprBuilder {
    nodes: Few<Node>,
    wants: u64,
}

impl Model for ExprBuilder {
    ghost use Rattle.std.specs.Prelude.{List};
    ghost use Rattle.nl_model.specs.declared.node.Node.{Node as NodeValue};

    ghost Value = { List NodeValue };

    ghost use Rattle.linear_program.specs.Fews.{few_items};
    ghost use Rattle.nl_model.specs.Nodes.{AreNodesBegun};

    ghost view = { λ b. few_items b.nodes };

    ghost invariant = { λ b. AreNodesBegun (few_items b.nodes) b.wants };
}

// How many operands follow a node.
fn operand_count(node: Node) -> u32
    ensures { result ≡ operand_count node }
{
    match node {
        Node::Op(_, count) => count,
        _ => 0,
    }
}

impl ExprBuilder {
    /// No nodes.
    pub fn new(alloc: Global) -> ExprBuilder
        ensures { result ≡ [] }
    {
        ExprBuilder {
            nodes: Few::new(alloc),
            wants: 1,
        }
    }

    /// How many nodes are still awaited: 1 at first, 0 where the expression is whole.
    pub fn wants(&self) -> u64
        ensures { result ≡ awaited self.now }
    {
        self.wants
    }

    /// Adds the next node.
    #[inline]
    pub fn push(&mut self, node: Node) -> Result<(), AllocError>
        requires wanted { 0 < awaited self.old }
        requires few { length self.old < 2 ^ 22 }
        requires formed { IsNode node }
        ensures ok { OnOk result (self.new ≡ self.old ++ node ∷ []) }
        ensures err { OnErr result (self.new ≡ self.old) }
    {
        let pushed = node;
        self.nodes.push(pushed)?;
        self.wants = self.wants - 1 + operand_count(node) as u64;
        Ok(())
    }

    /// The expression of the nodes that were pushed, in their order.
    pub fn finish(self) -> Expr
        requires { awaited self ≡ 0 }
        ensures tree { result ≡ tree_of self }
        ensures nodes { AreNodesOf result self }
    {
        Expr::of_nodes(self.nodes)
    }
}
