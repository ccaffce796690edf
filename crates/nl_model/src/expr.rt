// Expressions: nodes in prefix form, seen as a tree.
ghost use Rattle.std.specs.Prelude.{◌≡◌};
ghost use Rattle.linear_program.specs.Fews.{few_items};
ghost use Rattle.nl_model.specs.Nodes.{tree_of, AreNodesOf};

use crate::node::Node;
use linear_program::Few;
use std::marker::Model;

/// An expression tree.
#[derive(Drop)]
pub struct Expr {
    nodes: Few<Node>,
}

impl Model for Expr {
    ghost use Rattle.nl_model.specs.Trees.{Tree};
    ghost use Rattle.nl_model.specs.InsideTreeCode.{tree_code};

    ghost Value = { Tree };

    ghost coded = { tree_code };

    ghost use Rattle.linear_program.specs.Fews.{few_items};
    ghost use Rattle.nl_model.specs.Nodes.{tree_of, AreNodesOf};

    ghost view = { λ x. tree_of (few_items x.nodes) };

    ghost invariant = { λ x. AreNodesOf (tree_of (few_items x.nodes)) (few_items x.nodes) };
}

impl Expr {
    // The expression of the nodes of one tree.
    pub(crate) fn of_nodes(nodes: Few<Node>) -> Expr
        requires { AreNodesOf (tree_of (few_items nodes)) (few_items nodes) }
        ensures { result ≡ tree_of (few_items nodes) }
    {
        Expr { nodes }
    }

    /// The nodes in prefix form.
    pub fn nodes(&self) -> &[Node]
        ensures { AreNodesOf self.now result.now }
    {
        self.nodes.items()
    }
}
