// Rows whose terms are handed on as they stand: those of a number, where they ascend.
ghost use Rattle.std.specs.Prelude.{◌≡◌, ◌+◌, ◌*◌, ◌≤◌, IfSome, None, length, option_copied};
ghost use Rattle.nl_model.specs.Trees.{Tree};
ghost use Rattle.nl_model.specs.Nodes.{AreNodesOf};
ghost use Rattle.nl_model.specs.Expressions.{tree_or_zero};
ghost use Rattle.linear_fold.specs.InsideHeld.{IsHeld, IsNumber};

use crate::ascending::{are_ascending, are_zero, with_decimals};
use crate::entries::Held;
use crate::expression::node_count;
use exact_numbers::{Dec, Frac};
use nl_model::{Expr, Node};
use text_base::{Ledger, Steps};

// The number that nodes are, where it has a fraction.
#[inline]
fn number_in(nodes: &[Node]) -> Option<Frac>
    ensures { IfSome result (λ k. (t : Tree) → AreNodesOf t nodes.now → IsNumber t k) }
{
    if nodes.len() != 1 {
        return None;
    }
    let node = nodes[0];
    let Node::Num(value) = node else {
        return None;
    };
    let Some(number) = Frac::of_dec(value) else {
        return None;
    };
    Some(number)
}

// The number that a tree is, where it has a fraction; a missing one is 0.
#[inline]
fn number_of(tree: Option<&Expr>) -> Option<Frac>
    ensures { IfSome result (λ k. IsNumber (tree_or_zero (option_copied tree.entry)) k) }
{
    match tree {
        None => Some(Frac::zero()),
        Some(expr) => {
            let Some(number) = number_in(expr.nodes()) else {
                return None;
            };
            Some(number)
        }
    }
}

/// A tree that is a number, with terms that ascend and add something; none of others.
#[inline]
pub(crate) fn held_row<L: Ledger>(
    tree: Option<&Expr>,
    terms: &[(u32, Dec)],
    steps: &mut Steps<L>,
) -> Option<Held>
    ensures held { IfSome result
        (λ h. IsHeld (tree_or_zero (option_copied tree.entry)) terms.now h) }
    ensures none { result ≡ None → steps.new ≡ steps.old }
    ensures above { steps.old ≤ steps.new }
    ensures below { steps.new ≤ steps.old + 2 * length terms.now }
{
    if are_zero(terms) {
        return None;
    }
    let Some(number) = number_of(tree) else {
        return None;
    };
    if !are_ascending(terms) {
        return None;
    }
    Some(with_decimals(number, terms, node_count(tree), steps))
}
